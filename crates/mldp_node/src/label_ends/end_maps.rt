//! Maps by neighbour.
ghost use Rattle.std.specs.Prelude.{◌≡◌, ◌<◌, ◌++◌, None, Some, OnOk, count_by, if◌then◌else◌};
ghost use Rattle.indexmap.specs.IndexMap.{get, spare, IsUnique};
ghost use Rattle.mv_base.specs.declared.ids.NodeId.{NodeId};
ghost use Rattle.label_defs.specs.LabelData.{is_hold_due};
ghost use Rattle.label_defs.specs.Node.{one_more};
ghost use Rattle.label_defs.specs.Steps.{next_id, told};
ghost use Rattle.mldp_node.specs.label_ends.Maps.{is_node, octets_at, raises_at};

use indexmap::IndexMap;
use label_defs::End;
use mv_base::{Bytes, NoMemory, NodeId};
use std::alloc::Global;

/// The ends that are up.
pub(crate) type UpEnds = IndexMap<NodeId, End>;

/// How often the end of each session came up.
pub(crate) type Raises = IndexMap<NodeId, u64>;

/// The octets that wait for each neighbour.
pub(crate) type Waiting = IndexMap<NodeId, Bytes>;

/// One raise more; the greatest count stays.
pub(crate) fn one_more(count: u64) -> u64
    ensures { result ≡ one_more count }
{
    if count == u64::MAX { count } else { count + 1 }
}

/// The id after that of a message.
fn next_id(id: u32) -> u32
    ensures { result ≡ next_id id }
{
    if id == u32::MAX { 1 } else { id + 1 }
}

/// The end after one message more.
pub(crate) fn told(end: End) -> End
    ensures { result ≡ told end }
{
    End {
        next: next_id(end.next),
        ..end
    }
}

/// Whether the hold of the end is due.
pub(crate) fn is_hold_due(life: u64, now: u64, end: &End) -> bool
    ensures { result ≡ is_hold_due life now end.now }
{
    !end.held && now > life && end.raised < now - life
}

/// Changes the end that is there.
pub(crate) fn change(up: &mut UpEnds, peer: NodeId, end: End)
    requires { get is_node up.old peer ≡ None → 0 < spare up.old }
    ensures each { (other : NodeId) → get is_node up.new other ≡ (if is_node peer other then Some end else get is_node up.old other) }
    ensures unique { IsUnique is_node up.new }
{
    up.insert(peer, end).unwrap();
}

/// Forgets the end.
pub(crate) fn forget(up: &mut UpEnds, peer: NodeId)
    ensures each { (other : NodeId) → get is_node up.new other ≡ (if is_node peer other then None else get is_node up.old other) }
    ensures unique { IsUnique is_node up.new }
{
    up.swap_remove(&peer);
}

/// How often the end came up.
pub(crate) fn count_at(raises: &Raises, peer: NodeId) -> u64
    ensures { result ≡ raises_at raises.now peer }
{
    match raises.get(&peer) {
        None => 0,
        Some(count) => *count,
    }
}

/// Takes out what waits for the neighbour.
pub(crate) fn take(waiting: &mut Waiting, alloc: Global, peer: NodeId) -> Bytes
    ensures value { result ≡ octets_at waiting.old peer }
    ensures each { (other : NodeId) → get is_node waiting.new other ≡ (if is_node peer other then None else get is_node waiting.old other) }
{
    if waiting.is_empty() {
        return Bytes::new(alloc);
    }
    waiting.swap_remove(&peer).unwrap_or(Bytes::new(alloc))
}

/// The octets wait for the neighbour, for which nothing waited.
fn start(waiting: &mut Waiting, alloc: Global, peer: NodeId, octets: &[u8]) -> Result<(), NoMemory>
    ensures { OnOk result ((other : NodeId) →
        get is_node waiting.new other ≡ (if is_node peer other then Some octets.now else get is_node waiting.old other)) }
{
    let mut own = Bytes::new(alloc);
    own.extend(octets)?;
    waiting.insert(peer, own)?;
    Ok(())
}

/// Appends the octets to what waits for the neighbour.
pub(crate) fn append(
    waiting: &mut Waiting,
    alloc: Global,
    peer: NodeId,
    octets: &[u8],
) -> Result<(), NoMemory>
    ensures { OnOk result ((other : NodeId) →
        get is_node waiting.new other ≡
        (if is_node peer other then Some (octets_at waiting.old peer ++ octets.now) else get is_node waiting.old other)) }
{
    match waiting.get_mut(&peer) {
        Some(own) => own.extend(octets),
        None => start(waiting, alloc, peer, octets),
    }
}

/// How many of the holds are due.
pub(crate) fn count_due(ends: &[End], life: u64, now: u64) -> u64
    ensures { result ≡ count_by (is_hold_due life now) ends.now }
{
    ends.iter()
        .filter(|end| is_hold_due(life, now, end))
        .count() as u64
}
