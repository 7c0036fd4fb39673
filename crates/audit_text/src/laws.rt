//! What a text says, with no order of reading.
ghost use Rattle.std.specs.Prelude.{◌≡◌, ◌≤◌, ◌++◌, ◌∷◌, [], ℕ, List, Ok, length};
ghost use Rattle.std.specs.List.{AllByRecursion};
ghost use Rattle.scenario_defs.specs.declared.event.Script.{Script};
ghost use Rattle.scenario_defs.specs.declared.report.ReportLine.{ReportLine};
ghost use Rattle.line_words.specs.declared.fault.TextFault.{TextFault};
ghost use Rattle.scenario_text.specs.Grammar.{script_of};
ghost use Rattle.audit_defs.specs.declared.verdict.ReportLines.{ReportLines};
ghost use Rattle.audit_defs.specs.Markers.{values};
ghost use Rattle.audit_text.specs.Texts.{HasFault, IsKnown, Says, with_report};

/// A text says one script and one report, or has a fault, and not both.
pub fn texts_say_one_thing()
    ensures one { (text : List ℕ) (script other : Script) (report second : ReportLines) → Says text script report → Says text other second →
        (script ≡ other) × (report ≡ second) }
    ensures whole { (text : List ℕ) (script : Script) (report : ReportLines) (fault : TextFault) → Says text script report →
        HasFault text fault → ⊥ }
{}

/// A script that ends with a line feed, with the line `report` and known lines of a report after it, says that script and those lines.
pub fn reports_are_said()
    ensures { (front : List ℕ) (script : Script) (all : List ReportLine) → script_of (front ++ 10 ∷ []) ≡ Ok script →
        AllByRecursion (IsKnown script.scenario) all → length (with_report script.scenario (front ++ 10 ∷ []) all) ≤ 16777216 →
        (report : ReportLines) × Says (with_report script.scenario (front ++ 10 ∷ []) all) script report × (values report.lines ≡ all) }
{}
