//! Laws of the copies on the links of a network.
ghost use Rattle.std.specs.Prelude.{◌≡◌, ◌≤◌, ℕ, Bool, List, if◌then◌else◌};
ghost use Rattle.mv_base.specs.declared.addr.Addr.{Addr};
ghost use Rattle.mv_base.specs.declared.ids.IfaceId.{IfaceId};
ghost use Rattle.mv_base.specs.declared.ids.NodeId.{NodeId};
ghost use Rattle.mv_base.specs.declared.ids.SiteId.{SiteId};
ghost use Rattle.mldp.specs.declared.mldp_fec.fec.Fec.{Fec};
ghost use Rattle.scenario_defs.specs.Rules.{Rules};
ghost use Rattle.scenario_defs.specs.declared.event.Script.{Script};
ghost use Rattle.scenario_defs.specs.declared.event.Timed.{Timed};
ghost use Rattle.network_defs.specs.session_defs.Octets.{OctetNetwork};
ghost use Rattle.edge_defs.specs.Datagrams.{outs_of, entering_fate};
ghost use Rattle.edge_defs.specs.Edge.{EdgeData};
ghost use Rattle.edge_defs.specs.Place.{EdgePlace, OwnVrf};
ghost use Rattle.network_defs.specs.Costs.{Cores};
ghost use Rattle.network_defs.specs.Nodes.{Nodes};
ghost use Rattle.network_defs.specs.Run.{Traced, Run};
ghost use Rattle.network_defs.specs.World.{World, Datagram};
ghost use Rattle.delivery_laws.specs.Calm.{is_among, CalmFlow, CalmTree};
ghost use Rattle.delivery_laws.specs.Flood.{OnLinks, AreSound, times_at, written_of};
ghost use Rattle.delivery_laws.specs.Labels.{CalmLabels};
ghost use Rattle.delivery_laws.specs.Leaving.{leaves_arriving, leaves_entering};
ghost use Rattle.delivery_laws.specs.Window.{WindowRun, AreDeliveredOnce};

/// Where the flow of a datagram is calm, the datagram and all copies that come of it are to be written once at each interface that
/// receives it, and nowhere else.
pub fn calm_flows_are_written_once()
    ensures { (network : OctetNetwork Nodes) (receives : IfaceId → Bool) (datagram : Datagram) → CalmFlow network receives datagram →
        (iface : IfaceId) → written_of network datagram iface ≡ (if receives iface then 1 else 0) }
{}

/// From a calm network on, and through a window in which datagrams are sent and copies land, and after which no copy is on a link: each
/// datagram that is sent in the window leaves once at each interface that receives it, and nowhere else, over the whole report.
pub fn windows_deliver_once()
    ensures { (receives : SiteId → Addr → Addr → IfaceId → Bool) (cores : Cores) (script : Script) (before within after : List Timed) →
        (trace : List Traced) (calm last new : World) →
        WindowRun receives cores script before within after trace calm last new → AreDeliveredOnce receives trace calm last }
{}

/// In every run of a scenario that meets its rules branches lead along links, and each copy is on a direction of a link, is one of a
/// datagram that was accepted, and has a TTL of 1 to 255.
pub fn copies_are_sound()
    ensures { (cores : Cores) (script : Script) (events : List Timed) (trace : List Traced) (new : World) →
        Rules script.scenario → Run cores script events trace new → OnLinks new.network × AreSound script.scenario new }
{}

/// Where the labels of a tree are calm, its branches are a tree from the root.
pub fn calm_labels_are_a_tree()
    ensures { (network : OctetNetwork Nodes) (fec : Fec) (root : NodeId) → CalmLabels network fec root → CalmTree network fec root }
{}

/// A copy on a tunnel leaves an edge at an interface where the edge is a leaf of the tunnel, the interface's VRF imports a route of it
/// from the edge that it chooses for the source, and the interface asks; a datagram that enters leaves where the VRF chooses the site,
/// and the interface, of another site, asks. A copy leaves there at most once.
pub fn what_leaves_an_edge()
    ensures arriving { (place : EdgePlace) (now : ℕ) (edge : EdgeData) (source group : Addr) (iface : IfaceId) (fec : Fec) →
        is_among iface (outs_of place now edge fec source group) ≡ leaves_arriving place now edge fec source group iface }
    ensures entering { (place : EdgePlace) (now : ℕ) (edge : EdgeData) (source group : Addr) (iface : IfaceId) (own : OwnVrf) →
        (site : SiteId) → is_among iface (entering_fate place now edge own site source group).outs ≡
        leaves_entering place now edge own site source group iface }
    ensures once { (place : EdgePlace) (now : ℕ) (edge : EdgeData) (fec : Fec) (source group : Addr) (iface : IfaceId) →
        times_at iface (outs_of place now edge fec source group) ≤ 1 }
{}
