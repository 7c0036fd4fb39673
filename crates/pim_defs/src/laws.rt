//! Laws of entries.
ghost use Rattle.std.specs.Prelude.{◌≡◌, ℕ};
ghost use Rattle.std.specs.FinMap.{get};
ghost use Rattle.scenario_defs.specs.mv_base.declared.ids.IfaceId.{IfaceId};
ghost use Rattle.pim_joinprune.specs.declared.message.JoinPrune.{JoinPrune};
ghost use Rattle.scenario_defs.specs.declared.event.IfaceEntry.{IfaceEntry};
ghost use Rattle.pim_defs.specs.Expiry.{remaining};
ghost use Rattle.pim_defs.specs.Entries.{Entries, applied, expiry_then, kept_at};

/// After a message each entry has the expiry that the message leaves it; after a run of the timers the entries that
/// have ended are gone.
pub fn each_entry()
    ensures message { (entries : Entries) (iface : IfaceId) (message : JoinPrune) (clock : ℕ) (at : IfaceEntry) →
        get (applied entries iface message clock) at ≡ expiry_then entries iface message clock at }
    ensures timers { (entries : Entries) (clock : ℕ) (at : IfaceEntry) → get (kept_at entries clock) at ≡ remaining clock (get entries at) }
{}
