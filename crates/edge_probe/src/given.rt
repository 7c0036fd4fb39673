//! An edge is given the lines of a probe.
ghost use Rattle.std.specs.Prelude.{◌≡◌, ◌++◌, ◌∷◌, [], List, IfOk, IsSome, OnOk};
ghost use Rattle.scenario_defs.specs.declared.event.Kind.TheVariants as kinds;
ghost use Rattle.edge_core.specs.State.{IsPeer, home_of};
ghost use Rattle.edge_core.specs.declared.fault.EdgeFault.TheVariants as faults;
ghost use Rattle.probe_defs.specs.declared.probe.ProbeLine.{ProbeLine as Line};
ghost use Rattle.probe_defs.specs.declared.probe.ProbeLine.TheVariants as lines;
ghost use Rattle.edge_probe.specs.Behind.{AreLinesAt, IsFresh, IsGiven, IsPeerFault, IsTold, MayGive, MayJoin, stream_fault};

use bgp_messages::bgp_attributes::StreamFault;
use core_paths::Core;
use edge_core::of_edge_streams::SessionReason;
use edge_core::{Edge, EdgeCall, EdgeFault};
use edge_routes::route_order::are_octets;
use mv_base::{Addr, IfaceId, NoMemory, NodeId};
use network_defs::of_mvpn_model::own_addr;
use pim_defs::join_of;
use pim_joinprune::encode;
use probe_defs::{ProbeLine, ProbeLines};
use scenario_defs::{JoinEntry, Kind, Scenario};
use std::alloc::Global;

/// At most how many octets the edge is given at a time: few messages, so that what they take of memory is free again for the next ones.
const PIECE_LEN: usize = 256;

/// The first fault of octets that came from a peer, with its place, if they have one.
pub(crate) type PeerFault = Option<(u64, StreamFault)>;

/// The edge is out of memory, as its fault says.
fn memory(_fault: EdgeFault) -> NoMemory
    requires { _fault ≡ faults.NoMemory }
{
    NoMemory
}

/// The first fault of the peer's octets, as the edge answers it, unless it is out of memory.
fn first_fault(fault: EdgeFault) -> Result<PeerFault, NoMemory>
    requires { IsPeerFault fault }
    ensures first { IfOk result (λ first. first ≡ stream_fault fault) }
    ensures some { IfOk result IsSome }
{
    match fault {
        EdgeFault::Session {
            place,
            reason: SessionReason::Bgp(first),
            ..
        } => Ok(Some((place, first))),
        _ => Err(NoMemory),
    }
}

/// The session with the peer comes up. No label is needed.
pub(crate) fn raise(own: &mut Edge, peer: NodeId, core: &Core) -> Result<(), NoMemory>
    requires fresh { IsFresh core.now own.old }
    requires peer { IsPeer own.old kinds.Bgp peer }
    ensures given { OnOk result (IsGiven core.now peer [] own.new) }
    ensures home { home_of own.new ≡ home_of own.old }
{
    let kind = Kind::Bgp;
    match own.call(EdgeCall::Raised { kind, peer }, 0, core) {
        Ok(()) => Ok(()),
        Err(fault) => Err(memory(fault)),
    }
}

/// A customer router at the interface joins (S,G): the message that says so comes there. No label is needed.
pub(crate) fn join(
    own: &mut Edge,
    alloc: Global,
    scenario: &Scenario,
    iface: IfaceId,
    source: Addr,
    group: Addr,
    core: &Core,
) -> Result<(), NoMemory>
    requires home { (home_of own.old).scenario ≡ scenario.now }
    requires may { (peer : NodeId) × (done : List Line) × IsGiven core.now peer done own.old × MayJoin done iface source group own.old }
    ensures given { (peer : NodeId) (done : List Line) → IsGiven core.now peer done own.old →
        OnOk result (IsGiven core.now peer (done ++ lines.Join iface source group ∷ []) own.new) }
    ensures home { home_of own.new ≡ home_of own.old }
{
    let entry = JoinEntry::Source { source, group };
    let message = join_of(alloc, own_addr(scenario, iface), &entry)?;
    let octets = encode(alloc, &message)?;
    match own.take_pim(iface, octets.as_slice(), 0, core) {
        Ok(()) => Ok(()),
        Err(fault) => Err(memory(fault)),
    }
}

/// Octets come from the peer. What is answered is the first fault of all that came. No label is needed.
pub(crate) fn take(
    own: &mut Edge,
    peer: NodeId,
    octets: &[u8],
    core: &Core,
) -> Result<PeerFault, NoMemory>
    requires given { (done : List Line) × IsGiven core.now peer done own.old }
    ensures told { (done : List Line) → IsGiven core.now peer done own.old →
        IfOk result (λ fault. IsTold core.now peer (done ++ lines.Piece octets.now ∷ []) fault own.new) }
    ensures home { home_of own.new ≡ home_of own.old }
{
    are_octets(octets);
    match own.take_bgp(peer, octets, 0, core) {
        Ok(()) => Ok(None),
        Err(fault) => first_fault(fault),
    }
}

/// The same, piece by piece. What is answered is the first fault of all octets that came, which was `fault` before these.
fn take_all(
    own: &mut Edge,
    peer: NodeId,
    octets: &[u8],
    fault: PeerFault,
    core: &Core,
) -> Result<PeerFault, NoMemory>
    requires given { (done : List Line) × IsTold core.now peer done fault own.old }
    ensures told { (done : List Line) → IsTold core.now peer done fault own.old →
        IfOk result (λ next. IsTold core.now peer (done ++ lines.Piece octets.now ∷ []) next own.new) }
    ensures home { home_of own.new ≡ home_of own.old }
{
    let mut fault = fault;
    let mut rest = octets;
    while !rest.is_empty() {
        let (front, more) = rest.split_at(rest.len().min(PIECE_LEN));
        fault = take(own, peer, front, core)?;
        rest = more;
    }
    Ok(fault)
}

/// The edge is given a line. What is answered is the first fault of all octets that came, which was `fault` before it.
fn give(
    own: &mut Edge,
    alloc: Global,
    scenario: &Scenario,
    peer: NodeId,
    line: &ProbeLine,
    fault: PeerFault,
    core: &Core,
) -> Result<PeerFault, NoMemory>
    requires home { (home_of own.old).scenario ≡ scenario.now }
    requires may { (done : List Line) × IsTold core.now peer done fault own.old × MayGive done line.now own.old }
    ensures told { (done : List Line) → IsTold core.now peer done fault own.old →
        IfOk result (λ next. IsTold core.now peer (done ++ line.now ∷ []) next own.new) }
    ensures home { home_of own.new ≡ home_of own.old }
{
    match line {
        ProbeLine::Join {
            iface,
            source,
            group,
        } => {
            join(own, alloc, scenario, *iface, *source, *group, core)?;
            Ok(fault)
        }
        ProbeLine::Piece(octets) => take_all(own, peer, octets.as_slice(), fault, core),
    }
}

/// The edge is given all lines, in order. What is answered is the first fault of the peer's octets.
pub(crate) fn give_all(
    own: &mut Edge,
    alloc: Global,
    scenario: &Scenario,
    peer: NodeId,
    lines: &ProbeLines,
    core: &Core,
) -> Result<PeerFault, NoMemory>
    requires home { (home_of own.old).scenario ≡ scenario.now }
    requires lines { AreLinesAt (home_of own.old) lines.now }
    requires given { IsGiven core.now peer [] own.old }
    ensures told { IfOk result (λ fault. IsTold core.now peer lines.now fault own.new) }
    ensures home { home_of own.new ≡ home_of own.old }
{
    let all = lines.as_slice();
    let mut fault = None;
    for line in all {
        fault = give(own, alloc, scenario, peer, line, fault, core)?;
    }
    Ok(fault)
}
