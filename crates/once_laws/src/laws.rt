//! Laws of a network of which `state` tells of zeros alone, of the datagrams that are sent then, and of what leaves in any run.
ghost use Rattle.std.specs.Prelude.{◌≡◌, ◌↔◌, ◌<◌, List, length, Some, slice_get};
ghost use Rattle.mv_base.specs.declared.addr.Addr.{Addr};
ghost use Rattle.mv_base.specs.declared.ids.NodeId.{NodeId};
ghost use Rattle.mv_base.specs.declared.ids.SiteId.{SiteId};
ghost use Rattle.mv_base.specs.declared.ids.VrfId.{VrfId};
ghost use Rattle.mldp.specs.declared.mldp_fec.fec.Fec.{Fec};
ghost use Rattle.scenario_defs.specs.Home.{home};
ghost use Rattle.scenario_defs.specs.Rules.{Rules, Rises};
ghost use Rattle.scenario_defs.specs.declared.event.Script.{Script};
ghost use Rattle.scenario_defs.specs.declared.event.Timed.{Timed};
ghost use Rattle.scenario_defs.specs.declared.report.ReportLine.TheVariants as lines;
ghost use Rattle.scenario_defs.specs.declared.scenario.Scenario.{Scenario};
ghost use Rattle.scenario_defs.specs.declared.scenario.Vrf.{Vrf};
ghost use Rattle.mvpn_model.specs.Once.{Once};
ghost use Rattle.mvpn_model.specs.Report.{Entry, refused_lines};
ghost use Rattle.mvpn_model.specs.Safe.{Safe};
ghost use Rattle.edge_defs.specs.Place.{OwnVrf, addr_of};
ghost use Rattle.network_defs.specs.Costs.{Cores};
ghost use Rattle.edge_defs.specs.Edge.{EdgeData};
ghost use Rattle.network_defs.specs.Counts.{state_line};
ghost use Rattle.network_defs.specs.Nodes.{Edge, place_of};
ghost use Rattle.network_defs.specs.Run.{Traced, Run, report_of};
ghost use Rattle.network_defs.specs.World.{World, Datagram, scenario_of};
ghost use Rattle.network_laws.specs.Sound.{SoundScenario};
ghost use Rattle.network_laws.specs.SoundRun.{SoundRun};
ghost use Rattle.rule_laws.specs.SoundHalt.{SoundHalt};
ghost use Rattle.delivery_laws.specs.Calm.{CalmTree};
ghost use Rattle.delivery_laws.specs.Choice.{CalmChoice, sends_on};
ghost use Rattle.delivery_laws.specs.Labels.{CalmLabels};
ghost use Rattle.delivery_laws.specs.Once.{past_of, receives_datagram};
ghost use Rattle.once_laws.specs.Chooses.{ChoosesByTheRule};
ghost use Rattle.once_laws.specs.Families.{IsSiteOfLongest, EntriesAreOfOneFamily};
ghost use Rattle.once_laws.specs.Run.{CalmRun};
ghost use Rattle.once_laws.specs.Told.{AsksAreTold, NotesAreTold, EntriesAreTold};
ghost use Rattle.once_laws.specs.Zeros.{Zeros};

/// Where `state` tells of zeros alone, no octet is in transit, no timer is due, and each session is ready.
pub fn zeros_are_calm()
    ensures { (world : World) → state_line world ≡ lines.State 0 0 0 0 0 → Zeros world }
{}

/// After a run of a sound scenario, by its cores and by sound events, and where `state` tells of zeros alone: the labels of each tree
/// that has a node of the scenario as its root are calm.
pub fn labels_are_calm()
    ensures { (cores : Cores) (script : Script) (events : List Timed) (trace : List Traced) (world : World) →
        CalmRun cores script events trace world → (root : NodeId) → root.0 < length (scenario_of world).nodes →
        (fec : Fec) → fec.root ≡ addr_of (scenario_of world) root → CalmLabels world.network fec root }
{}

/// There each tunnel on which a datagram goes, as it enters at a VRF, is a tree.
pub fn tunnels_are_trees()
    ensures { (cores : Cores) (script : Script) (events : List Timed) (trace : List Traced) (world : World) →
        CalmRun cores script events trace world → (datagram : Datagram) (id : VrfId) (vrf : Vrf) (fec : Fec) →
        slice_get (scenario_of world).vrfs id.0 ≡ Some vrf →
        sends_on world.network datagram (record { id = id; vrf = vrf }) (world.network.state.node vrf.edge) ≡ Some fec →
        CalmTree world.network fec vrf.edge }
{}

/// After every run the entries of interfaces that count are those that the events tell.
pub fn entries_are_told()
    ensures { (cores : Cores) (script : Script) (events : List Timed) (trace : List Traced) (world : World) →
        Rules script.scenario → Rises 0 events → Run cores script events trace world →
        EntriesAreTold (past_of script.scenario events trace) world }
{}

/// After every run of a sound scenario, by its cores and by sound events, an entry that counts by the events has a source and a group
/// of one family.
pub fn entries_are_of_one_family()
    ensures { (cores : Cores) (script : Script) (events : List Timed) (trace : List Traced) (world : World) →
        SoundRun cores script events trace world → Rises 0 events →
        EntriesAreOfOneFamily (past_of script.scenario events trace) world }
{}

/// After every run a source is noted at an interface by the events exactly where the interface's edge has noted it there: by each
/// `active` that was accepted, up to an `idle` of the same flow there or a restart of the edge.
pub fn notes_are_told()
    ensures { (cores : Cores) (script : Script) (events : List Timed) (trace : List Traced) (world : World) →
        Rules script.scenario → Rises 0 events → Run cores script events trace world →
        NotesAreTold (past_of script.scenario events trace) world }
{}

/// After every run an interface asks for a flow by its events exactly where it asks by the entries of its edge, given whether the
/// events note the source in its VPN.
pub fn asks_are_told()
    ensures { (cores : Cores) (script : Script) (events : List Timed) (trace : List Traced) (world : World) →
        Rules script.scenario → Rises 0 events → Run cores script events trace world →
        AsksAreTold (past_of script.scenario events trace) world }
{}

/// The home of a source is the site of the longest prefix of the source's family that covers it, of all prefixes of the sites of the VPN.
pub fn homes_are_longest()
    ensures { (scenario : Scenario) (vrf : VrfId) (source : Addr) (site : SiteId) → SoundScenario scenario →
        (home scenario vrf source ≡ Some site) ↔ IsSiteOfLongest scenario vrf source site }
{}

/// After a run as that of `labels_are_calm` each receiver of a datagram is served by one of the VRFs at which it enters, each other
/// interface by none, and the tunnels are trees.
pub fn choices_are_calm()
    ensures { (cores : Cores) (script : Script) (events : List Timed) (trace : List Traced) (world : World) →
        CalmRun cores script events trace world → (datagram : Datagram) →
        CalmChoice world.network (receives_datagram (past_of script.scenario events trace) datagram) datagram }
{}

/// After every run of a sound scenario, by its cores and by sound events, each VRF of an edge chooses by its rule over all routes that
/// the edge knows.
pub fn each_choice_is_by_the_rule()
    ensures { (cores : Cores) (script : Script) (events : List Timed) (trace : List Traced) (world : World) →
        SoundRun cores script events trace world → (n : NodeId) (edge : EdgeData) → world.network.state.node n ≡ Edge edge →
        (own : OwnVrf) → ChoosesByTheRule (place_of world.network.state n) edge.control own }
{}

/// In every run of a sound scenario, by its cores and by sound events: each datagram that is accepted in a window leaves once at each
/// interface that receives it, and nowhere else, over the whole report.
pub fn runs_deliver_once()
    ensures { (cores : Cores) (script : Script) (events : List Timed) (trace : List Traced) (new : World) →
        SoundRun cores script events trace new → Rises 0 events →
        Once script.scenario events (refused_lines (report_of trace)) (report_of trace) }
{}

/// In every run of a sound scenario, by its cores and by sound events: each `out` line names a datagram that was accepted by then, with
/// its octets, and an interface whose VRF admits the sender's.
pub fn each_run_is_safe()
    ensures { (cores : Cores) (script : Script) (events : List Timed) (trace : List Traced) (new : World) →
        SoundRun cores script events trace new → Rises 0 events →
        Safe script.scenario events (refused_lines (report_of trace)) (report_of trace) }
{}

/// Where a run of a sound scenario, by its cores and by sound events, halts for want of a label: each datagram that is accepted in a
/// window of the events before leaves once at each interface that receives it, and nowhere else, over the report of those events.
pub fn halting_runs_deliver_once()
    ensures { (cores : Cores) (script : Script) (report : List Entry) (node : NodeId) →
        (run : SoundHalt cores script report node) → Rises 0 script.events →
        Once script.scenario run.halt.before (refused_lines (report_of run.halt.trace)) (report_of run.halt.trace) }
{}

/// In such a report, the acts of the event that lacks a label included, each `out` line names a datagram that was accepted by then,
/// with its octets, and an interface whose VRF admits the sender's.
pub fn halting_runs_are_safe()
    ensures { (cores : Cores) (script : Script) (report : List Entry) (node : NodeId) →
        SoundHalt cores script report node → Rises 0 script.events →
        Safe script.scenario script.events (refused_lines report) report }
{}
