//! Two edges with a core node between them, each with one VRF of one VPN.
ghost use Rattle.std.specs.Prelude.{◌≡◌, ◌==◌, true, length, IfOk, IfSome};
ghost use Rattle.std.specs.List.{list_any};
ghost use Rattle.mv_base.specs.Lists.{Among};
ghost use Rattle.mv_base.specs.core_walks.Topology.{IsTopology};
ghost use Rattle.scenario_defs.specs.Rules.{IsEdge, Rules};
ghost use Rattle.bgp_messages.specs.bgp_update.Written.{afi_of};
ghost use Rattle.bgp_values.specs.mvpn_nlri.Spelling.{IsAnyOr, IsGroup};
ghost use Rattle.edge_defs.specs.Originated.{afi_by, is_iface_of};
ghost use Rattle.edge_routes.specs.edge_home.Home.{home_of as home_in, peers_of};
ghost use Rattle.edge_control.specs.Places.{is_own_iface, is_own_vrf};
ghost use Rattle.edge_core.specs.State.{home_of};
ghost use Rattle.session_rows.specs.Roles.{IsRole};

use core_paths::Core;
use edge_core::{CustomerCall, Edge, EdgeCall, EdgeFault, Fate};
use edge_routes::edge_home::{EdgeHome, OwnVrf, shared_copy};
use label_forwarding::Datagram;
use mldp::mldp_fec::Fec;
use mv_base::{Addr, Bytes, IfaceId, NoMemory, NodeId, Pattern, SiteId, VrfId};
use scenario_defs::{Kind, Scenario};
use scenario_text::read;
use std::alloc::Global;
use std::marker::Model;
use std::process::Abort;

/// E1 has the VRF V1 with the interface X1 to the site X, and E2 the VRF V2 with the interface Y1 to the site Y.
const TEXT: &[u8] = b"edge E1 192.0.2.1\n\
    edge E2 192.0.2.2\n\
    core C 192.0.2.9\n\
    link E1 C 1\n\
    link E2 C 1\n\
    vrf V1 E1 1 65000:1 65000:1 highest\n\
    vrf V2 E2 1 65000:1 65000:1 highest\n\
    site X 10.1.0.0/24\n\
    site Y 10.2.0.0/24\n\
    iface X1 V1 X 10.1.0.1\n\
    iface Y1 V2 Y 10.2.0.1\n\
    events\n\
    ";

pub(crate) const E2: NodeId = NodeId(1);

pub(crate) const C: NodeId = NodeId(2);

/// The clock when an end of an LDP session comes up, and that of all other calls, by which its hold is over.
const RAISED: u64 = 5;

const NOW: u64 = 8;

/// Which of the two an edge is, the other one, its VRF, and the interface of that VRF with the site there.
#[derive(Clone, Copy)]
struct Role {
    me: NodeId,
    peer: NodeId,
    vrf: VrfId,
    iface: IfaceId,
    site: SiteId,
}

const FIRST: Role = Role {
    me: NodeId(0),
    peer: E2,
    vrf: VrfId(0),
    iface: IfaceId(0),
    site: SiteId(0),
};

const SECOND: Role = Role {
    me: E2,
    peer: NodeId(0),
    vrf: VrfId(1),
    iface: IfaceId(1),
    site: SiteId(1),
};

/// Whether the node is an edge.
fn is_edge(scenario: &Scenario, node: NodeId) -> bool
    ensures { result ≡ true → IsEdge scenario.now node }
{
    match scenario.nodes.as_slice().get(usize::from(node.0)) {
        None => false,
        Some(found) => found.edge,
    }
}

/// Whether the interface is one of the VRF.
fn is_iface_of(scenario: &Scenario, vrf: VrfId, iface: IfaceId) -> bool
    ensures { result ≡ is_iface_of scenario.now vrf iface }
{
    match scenario.ifaces.as_slice().get(usize::from(iface.0)) {
        None => false,
        Some(found) => found.vrf.0 == vrf.0,
    }
}

/// Whether the interface is one of these VRFs.
fn is_iface_of_any(scenario: &Scenario, vrfs: &[OwnVrf], iface: IfaceId) -> bool
    ensures { result ≡ list_any (λ own. is_iface_of scenario.now own.id iface) vrfs.now }
{
    vrfs.iter().any(|own| is_iface_of(scenario, own.id, iface))
}

/// Whether the interface is one of a VRF of the edge.
fn has_iface(home: &EdgeHome, iface: IfaceId) -> bool
    ensures { result ≡ is_own_iface home.now iface }
{
    is_iface_of_any(home.scenario(), home.vrfs(), iface)
}

/// Whether the VRF is one of these.
fn is_one_of(vrfs: &[OwnVrf], vrf: VrfId) -> bool
    ensures { result ≡ list_any (λ own. own.id.0 == vrf.0) vrfs.now }
{
    vrfs.iter().any(|own| own.id.0 == vrf.0)
}

/// Whether the VRF is one of the edge.
fn has_vrf(home: &EdgeHome, vrf: VrfId) -> bool
    ensures { result ≡ is_own_vrf home.now vrf }
{
    is_one_of(home.vrfs(), vrf)
}

/// Whether the peer is one of these.
fn is_among(peers: &[NodeId], peer: NodeId) -> bool
    ensures { result ≡ list_any (λ own. own.0 == peer.0) peers.now }
{
    peers.iter().any(|own| own.0 == peer.0)
}

/// Whether the peer is another edge.
fn has_peer(alloc: Global, home: &EdgeHome, peer: NodeId) -> bool
    ensures { result ≡ true → Among peer (peers_of home.now) }
{
    match home.peers(alloc) {
        Err(_) => false,
        Ok(peers) => is_among(&peers, peer),
    }
}

/// Whether the edge has the other one as a peer, the VRF and the interface.
fn has_role(alloc: Global, home: &EdgeHome, role: Role) -> bool
    ensures { result ≡ true → IsRole home.now role.peer role.vrf role.iface }
{
    let peer = has_peer(alloc, home, role.peer);
    let vrf = has_vrf(home, role.vrf);
    let iface = has_iface(home, role.iface);
    peer && vrf && iface
}

/// Whether the scenario's edge has them.
fn is_role(alloc: Global, scenario: &Scenario, role: Role) -> bool
    requires rules { Rules scenario.now }
    requires edge { IsEdge scenario.now role.me }
    ensures { result ≡ true → IsRole (home_in scenario.now role.me) role.peer role.vrf role.iface }
{
    let Ok(shared) = shared_copy(alloc, scenario) else {
        return false;
    };
    match EdgeHome::of(alloc, &shared, role.me) {
        Err(_) => false,
        Ok(home) => has_role(alloc, &home, role),
    }
}

/// The core of the scenario.
fn core_of(alloc: Global, scenario: &Scenario) -> Option<Core>
    requires { IsTopology (length scenario.now.nodes) scenario.now.links }
    ensures { IfSome result (λ core. core.nodes ≡ length scenario.now.nodes) }
{
    let nodes = scenario.nodes.len() as u16;
    Core::of(alloc, nodes, scenario.links.as_slice()).ok()
}

/// The edge of that number, before anything has happened, or memory runs out.
fn first_of(alloc: Global, scenario: &Scenario, me: NodeId) -> Result<Edge, NoMemory>
    requires rules { Rules scenario.now }
    requires edge { IsEdge scenario.now me }
    ensures { IfOk result (λ edge. home_of edge ≡ home_in scenario.now me) }
{
    let shared = shared_copy(alloc, scenario)?;
    Edge::of(alloc, &shared, me)
}

/// The edge of that number, before anything has happened.
fn new_edge(alloc: Global, scenario: &Scenario, me: NodeId) -> Option<Edge>
    requires rules { Rules scenario.now }
    requires edge { IsEdge scenario.now me }
    ensures { IfSome result (λ edge. home_of edge ≡ home_in scenario.now me) }
{
    match first_of(alloc, scenario, me) {
        Err(_) => None,
        Ok(edge) => Some(edge),
    }
}

/// One of the two edges, with the core that it knows. It must be closed.
pub(crate) struct EdgeInCore {
    edge: Edge,
    core: Core,
    role: Role,
}

impl Model for EdgeInCore {
    ghost use Rattle.edge_core.specs.State.{home_of};
    ghost use Rattle.edge_core.specs.View.{EdgeView, view_code};
    ghost use Rattle.session_rows.specs.Roles.{IsEdgeInCore};

    ghost Value = { EdgeView };

    ghost coded = { view_code };

    ghost view = { λ e. e.edge };

    ghost invariant = { λ e. IsEdgeInCore (home_of e.edge) e.core.nodes e.role.peer e.role.vrf e.role.iface };
}

impl EdgeInCore {
    /// The edge of the scenario, where it has that role and there is memory.
    fn of(alloc: Global, scenario: &Scenario, role: Role) -> Option<EdgeInCore>
        requires { Rules scenario.now }
    {
        if !is_edge(scenario, role.me) {
            return None;
        }
        if !is_role(alloc, scenario, role) {
            return None;
        }
        let core = core_of(alloc, scenario)?;
        let edge = new_edge(alloc, scenario, role.me)?;
        Some(EdgeInCore { edge, core, role })
    }

    /// The end of the BGP session comes up, where it is down.
    pub(crate) fn raise(&mut self) -> bool {
        let peer = self.role.peer;
        let kind = Kind::Bgp;
        !self.edge.is_up(kind, peer)
            && self
                .edge
                .call(EdgeCall::Raised { kind, peer }, NOW, &self.core)
                .is_ok()
    }

    /// The end of the BGP session notices its loss.
    pub(crate) fn notice(&mut self) -> bool {
        let kind = Kind::Bgp;
        let peer = self.role.peer;
        self.edge
            .call(EdgeCall::Noticed { kind, peer }, NOW, &self.core)
            .is_ok()
    }

    /// Octets come from the BGP peer, where the session is up.
    pub(crate) fn take(&mut self, octets: &[u8]) -> Option<Result<(), EdgeFault>> {
        let peer = self.role.peer;
        if self.edge.is_up(Kind::Bgp, peer) {
            Some(self.edge.take_bgp(peer, octets, NOW, &self.core))
        } else {
            None
        }
    }

    /// The octets that wait for the BGP peer.
    pub(crate) fn take_out(&mut self) -> Bytes {
        self.edge.take_out(Kind::Bgp, self.role.peer)
    }

    /// Octets of a PIM message come to the interface.
    pub(crate) fn take_pim(&mut self, octets: &[u8]) -> bool {
        self.edge
            .take_pim(self.role.iface, octets, NOW, &self.core)
            .is_ok()
    }

    /// The end of the LDP session with C comes up, where it is down.
    pub(crate) fn raise_ldp(&mut self) -> bool {
        let kind = Kind::Ldp;
        let peer = C;
        !self.edge.is_up(kind, peer)
            && self
                .edge
                .call(EdgeCall::Raised { kind, peer }, RAISED, &self.core)
                .is_ok()
    }

    /// Whether the end of that session waits for its hold.
    pub(crate) fn holds(&self) -> bool {
        self.edge.holding(C)
    }

    /// The timers that are due run.
    pub(crate) fn run_timers(&mut self) -> bool {
        self.edge.call(EdgeCall::Timers, NOW, &self.core).is_ok()
    }

    /// How many timers are due at the clock.
    pub(crate) fn due(&self, now: u64) -> u64 {
        self.edge.due(now)
    }

    /// Whether the pattern is selected, and how many are.
    pub(crate) fn selected(&self, pattern: Pattern) -> (bool, u32) {
        let selected = self.edge.is_selected(self.role.vrf, pattern);
        (selected, self.edge.selections())
    }

    /// Where a datagram of the customers goes.
    pub(crate) fn enter(&self, alloc: Global, datagram: &Datagram<'_>) -> Option<Fate> {
        let role = self.role;
        self.edge
            .enter(alloc, role.vrf, role.site, datagram, NOW, &self.core)
            .ok()
    }

    /// Selects the pattern, where it is not selected.
    pub(crate) fn select(&mut self, pattern: Pattern) -> bool
        requires { IsAnyOr (IsGroup (afi_by pattern.source pattern.group)) pattern.group }
    {
        let vrf = self.role.vrf;
        let call = EdgeCall::Customer(CustomerCall::Select { vrf, pattern });
        !self.edge.is_selected(vrf, pattern) && self.edge.call(call, NOW, &self.core).is_ok()
    }

    /// The pattern is selected no more.
    pub(crate) fn unselect(&mut self, pattern: Pattern) -> bool
        requires { IsAnyOr (IsGroup (afi_by pattern.source pattern.group)) pattern.group }
    {
        let vrf = self.role.vrf;
        let call = EdgeCall::Customer(CustomerCall::Unselect { vrf, pattern });
        self.edge.call(call, NOW, &self.core).is_ok()
    }

    /// Octets come from C over LDP, where the session is up.
    pub(crate) fn take_ldp(&mut self, octets: &[u8]) -> Option<Result<(), EdgeFault>> {
        if self.edge.is_up(Kind::Ldp, C) {
            Some(self.edge.take_ldp(C, octets, NOW, &self.core))
        } else {
            None
        }
    }

    /// Notes that the source sends to the group at the interface.
    pub(crate) fn active(&mut self, source: Addr, group: Addr) -> bool
        requires { IsGroup (afi_of source) group }
    {
        let iface = self.role.iface;
        self.edge
            .active(iface, source, group, NOW, &self.core)
            .is_ok()
    }

    /// The note is there no more.
    pub(crate) fn idle(&mut self, source: Addr, group: Addr) -> bool
        requires { IsGroup (afi_of source) group }
    {
        let iface = self.role.iface;
        self.edge
            .idle(iface, source, group, NOW, &self.core)
            .is_ok()
    }

    /// How many entries and notes of customers the VRF has.
    pub(crate) fn held(&self) -> (u32, u32) {
        let tree = self.edge.tree(self.role.vrf);
        (tree.pim_entries(), tree.notes())
    }

    /// The edge knows the core by its costs from now on.
    pub(crate) fn reroute(&mut self) -> bool {
        self.edge.call(EdgeCall::Rerouted, NOW, &self.core).is_ok()
    }

    /// Whether the VRF imports the tunnel from the peer, whether the edge is to be a leaf of it, and whether it is one.
    pub(crate) fn imports(&self, fec: &Fec) -> (bool, bool, bool) {
        let imports = self.edge.imports_tunnel(self.role.vrf, self.role.peer, fec);
        let wants = self.edge.wants_tunnel(fec);
        (imports, wants, self.edge.label_node().fib().is_leaf(fec))
    }

    /// Where a copy goes that came from C under the label.
    pub(crate) fn arrive(
        &self,
        alloc: Global,
        label: u32,
        datagram: &Datagram<'_>,
    ) -> Option<Fate> {
        self.edge
            .arrive(alloc, C, label, datagram, NOW, &self.core)
            .ok()
    }

    pub(crate) fn close(self) {
        let EdgeInCore {
            edge,
            core: _,
            role: _,
        } = self;
        edge.close();
    }
}

/// The edge of that role, before anything has happened.
fn edge_in_role(rt: &impl Abort, alloc: Global, role: Role) -> EdgeInCore {
    match read(alloc, TEXT) {
        Err(_) => panic!(rt; "the text has a fault"),
        Ok(script) => match EdgeInCore::of(alloc, &script.scenario, role) {
            None => panic!(rt; "the scenario has no such edge"),
            Some(edge) => edge,
        },
    }
}

/// E1, before anything has happened.
pub(crate) fn first_edge(rt: &impl Abort, alloc: Global) -> EdgeInCore {
    edge_in_role(rt, alloc, FIRST)
}

/// E2, before anything has happened.
pub(crate) fn second_edge(rt: &impl Abort, alloc: Global) -> EdgeInCore {
    edge_in_role(rt, alloc, SECOND)
}

/// The octets that wait at one edge are taken by the other, where there are some.
pub(crate) fn carry(from: &mut EdgeInCore, to: &mut EdgeInCore) -> bool {
    let octets = from.take_out();
    octets.is_empty() || to.take(octets.as_slice()) == Some(Ok(()))
}

/// Both ends come up, and what each edge sends at once is taken.
pub(crate) fn meet(first: &mut EdgeInCore, second: &mut EdgeInCore) -> bool {
    first.raise() && second.raise() && carry(first, second) && carry(second, first)
}
