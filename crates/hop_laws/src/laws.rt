//! Laws of the hops of runs.
ghost use Rattle.std.specs.Prelude.{All, ℕ, List, take};
ghost use Rattle.core_pcap.specs.Spelling.{IsHop};
ghost use Rattle.scenario_defs.specs.Rules.{ScriptRules};
ghost use Rattle.scenario_defs.specs.declared.event.Script.{Script};
ghost use Rattle.network_defs.specs.Costs.{Cores};
ghost use Rattle.network_defs.specs.Run.{Traced, report_of};
ghost use Rattle.network_defs.specs.World.{World};
ghost use Rattle.delivery_laws.specs.network_laws.SoundRun.{SoundRun};
ghost use Rattle.hop_laws.specs.Hops.{NameDatagrams, hops_of};

use license_laws::hops_are_mapped;

/// Where the first events of a script run, each `hop` line of the report names a datagram that was sent up to its own event.
pub fn hop_lines_name_datagrams()
    ensures { (cores : Cores) (script : Script) (count : ℕ) (trace : List Traced) (new : World) → ScriptRules script →
        SoundRun cores script (take count script.events) trace new → NameDatagrams script.events (report_of trace) }
{}

/// Where the first events of a script run, each hop of the report has a spelling in a file of hops.
pub fn hops_have_spellings()
    ensures { (cores : Cores) (script : Script) (count : ℕ) (trace : List Traced) (new : World) → ScriptRules script →
        SoundRun cores script (take count script.events) trace new → All IsHop (hops_of script.events (report_of trace)) }
{
    hops_are_mapped();
}
