//! What `settle` and `drain` leave after.
ghost use Rattle.std.specs.Prelude.{◌≡◌, ◌<◌, true, ◌++◌, ℕ, List, [], ◌∷◌, Some, length};
ghost use Rattle.std.specs.List.{AllByRecursion};
ghost use Rattle.mv_base.specs.declared.ids.NodeId.{NodeId};
ghost use Rattle.mldp.specs.declared.mldp_msgs.message.LabelMessage.{LabelMessage};
ghost use Rattle.bgp_messages.specs.declared.bgp_attributes.update.Message.{Message};
ghost use Rattle.bgp_messages.specs.bgp_update.Table.{changes_of};
ghost use Rattle.scenario_defs.specs.declared.event.Script.{Script};
ghost use Rattle.scenario_defs.specs.declared.event.Timed.{Timed};
ghost use Rattle.scenario_defs.specs.declared.report.ReportLine.TheVariants.{State};
ghost use Rattle.edge_defs.specs.Edge.{Control};
ghost use Rattle.edge_defs.specs.Held.{put_to};
ghost use Rattle.edge_defs.specs.Place.{EdgePlace};
ghost use Rattle.network_defs.specs.Costs.{Cores};
ghost use Rattle.edge_defs.specs.Steps.{Update, Label, Timers, control_step};
ghost use Rattle.network_defs.specs.Counts.{all_copies, datagrams_with_copy, octets_in_transit, due_timers, unready, state_line};
ghost use Rattle.network_defs.specs.Events.{Happened, Done};
ghost use Rattle.network_defs.specs.Acts.{Tell};
ghost use Rattle.network_defs.specs.Run.{Traced, IsSettled, IsDrained, outcome, Runs, Run};
ghost use Rattle.network_defs.specs.World.{World};
ghost use Rattle.network_laws.specs.SoundRun.{SoundRun};
ghost use Rattle.settle_laws.specs.Behind.{IsBehind, settle_at, drain_at, tick_at, state_at};
ghost use Rattle.settle_laws.specs.Ranks.{IsFresh, IsQuietAt, joins_only, IsJoin};
ghost use Rattle.settle_laws.specs.Rest.{calming, IsAtRest};

/// After a `settle` that comes next after a run of a sound scenario, by its cores and by sound events, no octet is in transit and no
/// timer is due, unless a node lacks a label on the way. So it is after each `settle` within such a run.
pub fn settle_settles()
    ensures next { (cores : Cores) (script : Script) (events : List Timed) (trace : List Traced) (old new : World) (line : ℕ) →
        (acts : List Happened) → SoundRun cores script events trace old → outcome old (settle_at line) ≡ Done acts new → IsSettled new }
    ensures within { (cores : Cores) (script : Script) (before after : List Timed) (line : ℕ) (trace : List Traced) (new : World) →
        SoundRun cores script (before ++ settle_at line ∷ after) trace new →
        IsBehind cores script (before ++ settle_at line ∷ []) trace IsSettled }
{}

/// After a `drain` that comes next after any run, and after each one within a run, no copy is on a link. What was settled stays so.
pub fn drain_drains()
    ensures next { (cores : Cores) (script : Script) (events : List Timed) (trace : List Traced) (old new : World) (line : ℕ) →
        (acts : List Happened) → Run cores script events trace old → outcome old (drain_at line) ≡ Done acts new → IsDrained new }
    ensures within { (cores : Cores) (script : Script) (before after : List Timed) (line : ℕ) (trace : List Traced) (new : World) →
        Run cores script (before ++ drain_at line ∷ after) trace new →
        IsBehind cores script (before ++ drain_at line ∷ []) trace IsDrained }
    ensures settled { (old new : World) (line : ℕ) (acts : List Happened) →
        IsSettled old → outcome old (drain_at line) ≡ Done acts new → IsSettled new }
{}

/// Copies do not outlive their life. After a `tick` of more than it that comes next after any run, no copy is on a link, and `settle`
/// puts none there.
pub fn time_drains()
    ensures next { (cores : Cores) (script : Script) (events : List Timed) (trace : List Traced) (old new : World) (line count : ℕ) →
        (acts : List Happened) → Run cores script events trace old → script.scenario.life < count →
        outcome old (tick_at line count) ≡ Done acts new → IsDrained new }
    ensures settled { (old new : World) (line : ℕ) (acts : List Happened) →
        IsDrained old → outcome old (settle_at line) ≡ Done acts new → IsDrained new }
{}

/// What `state` tells of a settled network, and of a drained one.
pub fn zeros_are_told()
    ensures settled { (world : World) → IsSettled world → state_line world ≡
        State 0 (length (all_copies world)) (datagrams_with_copy (all_copies world) (length world.datagrams)) 0 (unready world) }
    ensures drained { (world : World) → IsDrained world →
        state_line world ≡ State (octets_in_transit world) 0 0 (due_timers world) (unready world) }
{}

/// Whatever happened before: where `heal`, `settle`, a `tick` of more than the life of a copy and `settle` come next, and no node lacks a
/// label, no octet is in transit after them, no copy is on a link, no timer is due and each session is ready. So it is wherever they
/// stand in a run, and `state` tells of zeros alone there.
pub fn calm_is_reached()
    ensures next { (cores : Cores) (script : Script) (events : List Timed) (trace after : List Traced) (old new : World) →
        (number first second third fourth count : ℕ) → SoundRun cores script events trace old → script.scenario.life < count →
        Runs old number (calming first second third fourth count) after new → IsAtRest new }
    ensures within { (cores : Cores) (script : Script) (before after : List Timed) (trace : List Traced) (new : World) →
        (first second third fourth count : ℕ) →
        SoundRun cores script (before ++ calming first second third fourth count ++ after) trace new → script.scenario.life < count →
        IsBehind cores script (before ++ calming first second third fourth count) trace IsAtRest }
    ensures line { (world : World) → IsAtRest world → state_line world ≡ State 0 0 0 0 0 }
    ensures state { (world : World) (line : ℕ) → IsAtRest world →
        outcome world (state_at line) ≡ Done (record { act = Some Tell; lines = State 0 0 0 0 0 ∷ [] } ∷ []) world }
{}

/// What an edge puts over BGP in answer to a route is Source Tree Joins alone. After its timers its flows are those asked for at the
/// clock, and while they are, it puts nothing in answer to joins or to a label message, and its leaves stay.
pub fn answers_over_bgp()
    ensures routes { (place : EdgePlace) (now : ℕ) (old : Control) (peer to : NodeId) (message : Message) →
        AllByRecursion IsJoin (put_to place old (control_step place now old (Update peer message)) to) }
    ensures timers { (place : EdgePlace) (now : ℕ) (old : Control) → IsFresh place now (control_step place now old Timers) }
    ensures joins { (place : EdgePlace) (now : ℕ) (old : Control) (peer to : NodeId) (message : Message) →
        IsFresh place now old → joins_only (changes_of message) ≡ true →
        IsQuietAt place old (control_step place now old (Update peer message)) to }
    ensures labels { (place : EdgePlace) (now : ℕ) (old : Control) (from to : NodeId) (message : LabelMessage) →
        IsFresh place now old → IsQuietAt place old (control_step place now old (Label from message)) to }
{}
