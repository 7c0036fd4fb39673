//! Laws of the groups of an edge's flows.
ghost use Rattle.std.specs.Prelude.{◌≡◌, ℕ, List, Ok};
ghost use Rattle.mv_base.specs.Octets.{IsOctets};
ghost use Rattle.mv_base.specs.declared.addr.Addr.{Addr};
ghost use Rattle.pim_joinprune.specs.Reading.{decoded};
ghost use Rattle.pim_joinprune.specs.Spelling.{IsJoinPrune, Spells};
ghost use Rattle.pim_joinprune.specs.declared.message.JoinPrune.{JoinPrune};
ghost use Rattle.scenario_defs.specs.Rules.{NamesFlow};
ghost use Rattle.edge_defs.specs.Edge.{Control, no_control};
ghost use Rattle.edge_defs.specs.Place.{EdgePlace};
ghost use Rattle.edge_defs.specs.Steps.{Call, control_step, effect, refreshed};
ghost use Rattle.control_laws.specs.Peers.{AreWritable};
ghost use Rattle.control_laws.specs.group_laws.Groups.{HasGroups, HaveGroups, IsAllowed, IsFlow};

/// Each (S,G) that is joined or noted at an edge, and each of its flows, has a multicast group of the family of S: at first, after what a
/// call itself changes, after a refresh of the flows, and after a step (RFC 6514 section 4). This asks of a call that what it joins or
/// notes has such a group, and of the routes that were taken that each key has a spelling.
pub fn groups_are_kept()
    ensures first { HaveGroups no_control }
    ensures call { (place : EdgePlace) (now : ℕ) (control : Control) (call : Call) → HaveGroups control → IsAllowed call →
        HaveGroups (effect place now control call) }
    ensures refresh { (place : EdgePlace) (now : ℕ) (control : Control) → HaveGroups control → AreWritable control →
        HaveGroups (refreshed place now control) }
    ensures step { (place : EdgePlace) (now : ℕ) (control : Control) (call : Call) → HaveGroups control →
        AreWritable (effect place now control call) → IsAllowed call → HaveGroups (control_step place now control call) }
{}

/// Each (S,G) that a Join/Prune message joins has a multicast group of the family of S, where the message has a spelling: so where octets
/// spell it, and where it was read from octets (RFC 7761 section 4.9.1).
pub fn messages_have_groups()
    ensures whole { (message : JoinPrune) → IsJoinPrune message → HasGroups message }
    ensures spelled { (octets : List ℕ) (message : JoinPrune) → Spells message octets → HasGroups message }
    ensures read { (octets : List ℕ) (message : JoinPrune) → IsOctets octets → decoded octets ≡ Ok message → HasGroups message }
{}

/// A group that a line of a script names beside a source is a multicast group of the source's family.
pub fn named_flows_are_flows()
    ensures { (source group : Addr) → NamesFlow source group → IsFlow source group }
{}
