//! Laws of every run of the whole network: the label rule, tables in step, and VPNs that stay apart.
ghost use Rattle.std.specs.Prelude.{◌≡◌, true, List};
ghost use Rattle.std.specs.List.{AllByRecursion};
ghost use Rattle.mv_base.specs.declared.ids.NodeId.{NodeId};
ghost use Rattle.scenario_defs.specs.declared.event.Kind.TheVariants as kinds;
ghost use Rattle.scenario_defs.specs.declared.event.Script.{Script};
ghost use Rattle.scenario_defs.specs.declared.event.Timed.{Timed};
ghost use Rattle.network_defs.specs.Costs.{Cores};
ghost use Rattle.network_defs.specs.Counts.{direction};
ghost use Rattle.network_defs.specs.LabelRule.{LabelRule};
ghost use Rattle.network_defs.specs.Run.{Traced};
ghost use Rattle.network_defs.specs.World.{World};
ghost use Rattle.network_laws.specs.Honest.{IsSoundEvent};
ghost use Rattle.network_laws.specs.SoundRun.{SoundRun};
ghost use Rattle.rule_laws.specs.Networks.{AreNetworks};
ghost use Rattle.rule_laws.specs.Outs.{IsAdmittedLine};
ghost use Rattle.rule_laws.specs.Tables.{RoutesInStep, LabelsInStep};
ghost use Rattle.rule_laws.specs.Throughout.{ThroughoutEvents};

/// In every run of a sound scenario, by its cores and by sound events, the label rule holds: while a copy may be on its way under a
/// label, the label stands for no other VPN. It holds throughout the sound events that come next, after each of their acts, also
/// between the two acts of a raise, and up to an act that lacks a label.
pub fn runs_keep_the_label_rule()
    ensures after { (cores : Cores) (script : Script) (events : List Timed) (trace : List Traced) (new : World) →
        SoundRun cores script events trace new → LabelRule new }
    ensures throughout { (cores : Cores) (script : Script) (events more : List Timed) (trace : List Traced) (new : World) →
        SoundRun cores script events trace new → AllByRecursion (λ (timed : Timed). IsSoundEvent script.scenario timed.event) more →
        ThroughoutEvents LabelRule new more }
{}

/// After such a run the octets in transit carry messages by which the label parts of the nodes, their LDP sessions and the copies on
/// links are a network of label nodes that keeps its rule, and what edges keep of customers and of BGP is a network of edges that
/// keeps its rule.
pub fn runs_keep_two_networks()
    ensures { (cores : Cores) (script : Script) (events : List Timed) (trace : List Traced) (new : World) →
        SoundRun cores script events trace new → AreNetworks new }
{}

/// After such a run the two ends of each joined session are in step: the routes that one of two edges took from the other are those
/// that the other holds for it, once what is on its way is taken; and the branches of a node towards a neighbour are the labels that
/// the neighbour has mapped.
pub fn tables_are_in_step()
    ensures routes { (cores : Cores) (script : Script) (events : List Timed) (trace : List Traced) (new : World) →
        SoundRun cores script events trace new →
        (a b : NodeId) → new.network.joined (direction kinds.Bgp a b) ≡ true → RoutesInStep new a b }
    ensures labels { (cores : Cores) (script : Script) (events : List Timed) (trace : List Traced) (new : World) →
        SoundRun cores script events trace new →
        (u n : NodeId) → new.network.joined (direction kinds.Ldp u n) ≡ true → LabelsInStep new u n }
{}

/// In such a run each `out` line names a datagram that was accepted, with its octets, and an interface whose VRF admits the sender's.
pub fn no_datagram_leaves_its_vpn()
    ensures { (cores : Cores) (script : Script) (events : List Timed) (trace : List Traced) (new : World) →
        SoundRun cores script events trace new →
        AllByRecursion (λ (step : Traced). AllByRecursion (IsAdmittedLine script.scenario new.datagrams) step.happened.lines) trace }
{}
