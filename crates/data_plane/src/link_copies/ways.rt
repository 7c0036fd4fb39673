//! The copies on all links, by way.
ghost use Rattle.std.specs.Prelude.{◌≡◌, [], ◌∷◌, ◌++◌, Some, length, slice_get, if◌then◌else◌, OnOk, OnErr};
ghost use Rattle.std.specs.List.{remove};
ghost use Rattle.std.specs.Option.{option_map};
ghost use Rattle.mv_base.specs.declared.ids.NodeId.{NodeId};
ghost use Rattle.indexmap.specs.IndexMap.{get, IsUnique};
ghost use Rattle.data_plane.specs.link_copies.Kept.{is_way, copies_on};

use crate::link_copies::kept::Kept;
use crate::link_copies::queue::Queue;
use indexmap::IndexMap;
use mv_base::{NoMemory, NodeId};
use std::alloc::Global;

/// The copies by the node that sent them and the node that they go to.
pub(crate) type Ways = IndexMap<(NodeId, NodeId), Queue>;

/// How many copies are on the way.
pub(crate) fn count_on(ways: &Ways, way: (NodeId, NodeId)) -> usize
    ensures { result ≡ length (copies_on ways.now way) }
{
    match ways.get(&way) {
        None => 0,
        Some(queue) => queue.len(),
    }
}

/// The copy at that place of the way, counted from 0.
pub(crate) fn copy_at(ways: &Ways, way: (NodeId, NodeId), place: usize) -> Option<Kept>
    ensures { result ≡ slice_get (copies_on ways.now way) place }
{
    match ways.get(&way) {
        None => None,
        Some(queue) => queue.at(place),
    }
}

/// Takes the copy at that place of the way out, where there is one.
pub(crate) fn take_out(ways: &mut Ways, way: (NodeId, NodeId), place: usize)
    requires { IsUnique is_way ways.old }
    ensures taken { (w : NodeId × NodeId) → get is_way ways.new w ≡
        (if is_way way w then option_map (λ copies. remove copies place) (get is_way ways.old w) else get is_way ways.old w) }
    ensures unique { IsUnique is_way ways.new }
{
    match ways.get_mut(&way) {
        None => {}
        Some(queue) => queue.take_out(place),
    }
}

/// Puts a copy after the others of the way.
pub(crate) fn put(
    ways: &mut Ways,
    alloc: Global,
    way: (NodeId, NodeId),
    kept: Kept,
) -> Result<(), NoMemory>
    requires { IsUnique is_way ways.old }
    ensures put { OnOk result ((w : NodeId × NodeId) → get is_way ways.new w ≡
        (if is_way way w then Some (copies_on ways.old way ++ kept ∷ []) else get is_way ways.old w)) }
    ensures same { OnErr result ((w : NodeId × NodeId) → get is_way ways.new w ≡ get is_way ways.old w) }
    ensures unique { IsUnique is_way ways.new }
{
    if !ways.contains_key(&way) {
        let mut queue = Queue::new(alloc);
        queue.copies.push_back(kept)?;
        ways.insert(way, queue)?;
        return Ok(());
    }
    match ways.get_mut(&way) {
        None => unreachable!(),
        Some(queue) => match queue.copies.push_back(kept) {
            Ok(()) => Ok(()),
            Err(_) => Err(NoMemory),
        },
    }
}
