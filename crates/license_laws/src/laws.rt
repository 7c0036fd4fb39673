//! Laws of what nodes put and took in a run.
ghost use Rattle.std.specs.Prelude.{List, length, ◌++◌};
ghost use Rattle.mv_base.specs.declared.ids.NodeId.{NodeId};
ghost use Rattle.scenario_defs.specs.declared.event.Script.{Script};
ghost use Rattle.scenario_defs.specs.declared.event.Timed.{Timed};
ghost use Rattle.mvpn_model.specs.Report.{Entry};
ghost use Rattle.network_defs.specs.Costs.{Cores};
ghost use Rattle.network_defs.specs.Local.{TakesWhatWasPut, Local};
ghost use Rattle.network_defs.specs.Run.{Traced, traced};
ghost use Rattle.network_defs.specs.World.{World};
ghost use Rattle.network_laws.specs.SoundRun.{SoundRun};
ghost use Rattle.rule_laws.specs.SoundHalt.{SoundHalt};
ghost use Rattle.license_laws.specs.Enters.{EntersMay};
ghost use Rattle.license_laws.specs.Hops.{HopsMay};
ghost use Rattle.license_laws.specs.Lands.{LandsMay};

/// At each moment of a run of a sound scenario, by its cores and by sound events, what a node has taken over a session from a neighbour
/// since the session was last raised is a first part of what that neighbour has put there.
pub fn takes_what_was_put()
    ensures { (cores : Cores) (script : Script) (events : List Timed) (trace : List Traced) (new : World) →
        SoundRun cores script events trace new → TakesWhatWasPut trace }
{}

/// In such a run a copy goes on a branch only where the neighbour has mapped the branch's label to a tree, and not withdrawn it, in
/// what the node took from it since the last raise, and the node's end is up.
pub fn hops_are_mapped()
    ensures { (cores : Cores) (script : Script) (events : List Timed) (trace : List Traced) (new : World) →
        SoundRun cores script events trace new → HopsMay trace }
{}

/// In such a run a datagram that enters at a VRF goes only on branches of a tunnel of that VRF, and another edge has joined its flow
/// there, in what the VRF's edge took from that edge.
pub fn entries_are_joined()
    ensures { (cores : Cores) (script : Script) (events : List Timed) (trace : List Traced) (new : World) →
        SoundRun cores script events trace new → EntersMay script.scenario new.datagrams trace }
{}

/// In such a run a copy that lands and goes on does so for one tree, to which its label is mapped in what the node put to the neighbour:
/// on branches that the neighbours have mapped to it, and at interfaces of VRFs whose edge has taken a route of that tunnel, with a
/// Route Target of the VRF, from the edge at its root.
pub fn landings_are_learned()
    ensures { (cores : Cores) (script : Script) (events : List Timed) (trace : List Traced) (new : World) →
        SoundRun cores script events trace new → LandsMay script.scenario trace }
{}

/// In such a run each hop is licensed by what its node and the neighbour have put and taken, by the octets of the report's own lines.
pub fn runs_are_local()
    ensures { (cores : Cores) (script : Script) (events : List Timed) (trace : List Traced) (new : World) →
        SoundRun cores script events trace new → Local new trace }
{}

/// In a run of a sound scenario, by its cores and by sound events, that halts for want of a label, the same holds up to the halt: of
/// the events before, and of the acts of the event that lacks a label, as far as they went.
pub fn halting_runs_are_local()
    ensures { (cores : Cores) (script : Script) (report : List Entry) (node : NodeId) →
        (run : SoundHalt cores script report node) →
        Local run.halt.world (run.halt.trace ++ traced (length run.halt.before) run.halt.acts) }
{}
