//! What a text says and what its first fault is, with no order of reading.
ghost use Rattle.std.specs.Prelude.{List, ℕ};
ghost use Rattle.scenario_text.specs.Faults.{AreTheFaults};

/// A text that is not too long is read exactly where no line has a fault and the scenario ends, with what its lines
/// say; else its first fault is told.
pub fn first_faults()
    ensures { (text : List ℕ) → AreTheFaults text }
{}
