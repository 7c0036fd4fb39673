//! Calls of a label node, one after another.
ghost use Rattle.std.specs.Prelude.{◌≡◌, ◌<◌, ◌^◌, [], ◌∷◌, length, map, All, None};
ghost use Rattle.edge_labels.specs.Calls.{IsWantable, MayMake, AnswersAll, leaf_call, calls_of, own_call, own_calls};

use crate::changes::LeafChange;
use crate::own_call::OwnCall;
use core_paths::Core;
use mldp_node::{LdpNode, NodeFault};

/// The label step of the call itself, if it has one.
fn make(node: &mut LdpNode, own: &OwnCall, now: u64, core: &Core) -> Result<(), NodeFault>
    requires nodes { core.now.nodes ≡ length node.old.place.addrs }
    requires now { now < 2 ^ 63 }
    requires may { MayMake node.old own.now }
    requires unspent { node.old.node.spent ≡ None }
    ensures answers { AnswersAll core.now now (own_calls own.now) node.old node.new result }
    ensures none { own_call own.now ≡ None → node.new ≡ node.old }
{
    match own {
        OwnCall::None => Ok(()),
        OwnCall::Take(from, message) => node.take(*from, *message, now, core),
        OwnCall::Raise(peer) => node.raised(*peer, now, core),
        OwnCall::Notice(peer) => node.noticed(*peer, now, core),
        OwnCall::Timers => node.timers(now, core),
        OwnCall::Reroute => node.rerouted(now, core),
    }
}

/// The node becomes or stops being a leaf of one tree.
fn change_one(
    node: &mut LdpNode,
    change: &LeafChange,
    now: u64,
    core: &Core,
) -> Result<(), NodeFault>
    requires nodes { core.now.nodes ≡ length node.old.place.addrs }
    requires tree { IsWantable node.old.place change.now }
    ensures { AnswersAll core.now now (leaf_call change.now ∷ []) node.old node.new result }
{
    if change.wanted {
        node.want(change.fec, now, core)
    } else {
        node.unwant(change.fec, now, core)
    }
}

/// The node becomes or stops being a leaf of each tree, one after another.
fn change_all(
    node: &mut LdpNode,
    changes: &[LeafChange],
    now: u64,
    core: &Core,
) -> Result<(), NodeFault>
    requires nodes { core.now.nodes ≡ length node.old.place.addrs }
    requires trees { All (IsWantable node.old.place) changes.now }
    requires unspent { node.old.node.spent ≡ None }
    ensures { AnswersAll core.now now (map leaf_call changes.now) node.old node.new result }
{
    for change in changes {
        if let Err(fault) = change_one(node, change, now, core) {
            return Err(fault);
        }
    }
    Ok(())
}

/// The label step of the call itself, if it has one, and then one for each tree.
pub(crate) fn make_all(
    node: &mut LdpNode,
    own: &OwnCall,
    changes: &[LeafChange],
    now: u64,
    core: &Core,
) -> Result<(), NodeFault>
    requires nodes { core.now.nodes ≡ length node.old.place.addrs }
    requires now { now < 2 ^ 63 }
    requires may { MayMake node.old own.now }
    requires trees { All (IsWantable node.old.place) changes.now }
    requires unspent { node.old.node.spent ≡ None }
    ensures { AnswersAll core.now now (calls_of own.now changes.now) node.old node.new result }
{
    match make(node, own, now, core) {
        Ok(()) => change_all(node, changes, now, core),
        Err(fault) => Err(fault),
    }
}
