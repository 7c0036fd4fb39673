//! The octets in transit over the sessions that are joined, by direction.
ghost use Rattle.std.specs.Prelude.{◌≡◌, ◌+◌, ◌<◌, ◌≤◌, ◌||◌, ◌++◌, [], None, Some, take};
ghost use Rattle.std.specs.Prelude.{drop, length, not, min, sum_by, option_map, if◌then◌else◌, IfOk, OnOk, OnErr};
ghost use Rattle.indexmap.specs.IndexMap.{get, spare, IsUnique};
ghost use Rattle.net_sessions.specs.declared.session_transit.sessions.Key.{Key};
ghost use Rattle.net_sessions.specs.session_transit.TransitData.{direction};
ghost use Rattle.net_sessions.specs.session_transit.Kept.{is_key, key_of, is_key_at, kept_at, held};

use crate::session_transit::octets::Octets;
use indexmap::IndexMap;
use mv_base::{Bytes, NoMemory, NodeId};
use scenario_defs::Kind;
use std::alloc::Global;

/// A direction of a session of LDP or of BGP.
#[derive(Clone, Copy, PartialEq, Eq, Hash)]
pub(crate) struct Key {
    is_ldp: bool,
    from: NodeId,
    to: NodeId,
}

/// The octets in transit over each direction whose session is joined.
pub(crate) type Sessions = IndexMap<Key, Octets>;

pub(crate) fn key_of(kind: Kind, from: NodeId, to: NodeId) -> Key
    ensures { result ≡ key_of (direction kind from to) }
{
    match kind {
        Kind::Bgp => Key {
            is_ldp: false,
            from,
            to,
        },
        Kind::Ldp => Key {
            is_ldp: true,
            from,
            to,
        },
    }
}

/// Whether the direction is one of the node.
fn is_key_at(node: NodeId, key: &Key) -> bool
    ensures { result ≡ is_key_at node key.now }
{
    key.from == node || key.to == node
}

/// How many octets are in transit over the direction.
pub(crate) fn waiting(sessions: &Sessions, over: Key) -> usize
    ensures { result ≡ length (kept_at sessions.now over) }
{
    match sessions.get(&over) {
        None => 0,
        Some(octets) => octets.len(),
    }
}

/// The direction is there, with nothing in transit. There is room for it.
fn open(sessions: &mut Sessions, total: &mut u64, alloc: Global, over: Key)
    requires unique { IsUnique is_key sessions.old }
    requires counted { total.old ≡ held sessions.old }
    requires room { 0 < spare sessions.old }
    ensures opened { (k : Key) → get is_key sessions.new k ≡ (if is_key over k then Some [] else get is_key sessions.old k) }
    ensures counted { total.new ≡ held sessions.new }
    ensures room { spare sessions.old ≤ spare sessions.new + 1 }
    ensures unique { IsUnique is_key sessions.new }
{
    *total -= waiting(sessions, over) as u64;
    sessions.insert(over, Octets::new(alloc)).unwrap();
}

/// The direction is not there.
fn close(sessions: &mut Sessions, total: &mut u64, over: Key)
    requires unique { IsUnique is_key sessions.old }
    requires counted { total.old ≡ held sessions.old }
    ensures closed { (k : Key) → get is_key sessions.new k ≡ (if is_key over k then None else get is_key sessions.old k) }
    ensures counted { total.new ≡ held sessions.new }
    ensures unique { IsUnique is_key sessions.new }
{
    *total -= waiting(sessions, over) as u64;
    sessions.swap_remove(&over);
}

/// Both directions are there, with nothing in transit.
pub(crate) fn join(
    sessions: &mut Sessions,
    total: &mut u64,
    alloc: Global,
    one: Key,
    other: Key,
) -> Result<(), NoMemory>
    requires unique { IsUnique is_key sessions.old }
    requires counted { total.old ≡ held sessions.old }
    ensures joined { OnOk result ((k : Key) → get is_key sessions.new k ≡
        (if is_key one k || is_key other k then Some [] else get is_key sessions.old k)) }
    ensures same { OnErr result ((k : Key) → get is_key sessions.new k ≡ get is_key sessions.old k) }
    ensures counted { total.new ≡ held sessions.new }
    ensures unique { IsUnique is_key sessions.new }
{
    sessions.reserve(2)?;
    open(sessions, total, alloc, one);
    open(sessions, total, alloc, other);
    Ok(())
}

/// Neither direction is there.
pub(crate) fn lose(sessions: &mut Sessions, total: &mut u64, one: Key, other: Key)
    requires unique { IsUnique is_key sessions.old }
    requires counted { total.old ≡ held sessions.old }
    ensures lost { (k : Key) → get is_key sessions.new k ≡
        (if is_key one k || is_key other k then None else get is_key sessions.old k) }
    ensures counted { total.new ≡ held sessions.new }
    ensures unique { IsUnique is_key sessions.new }
{
    close(sessions, total, one);
    close(sessions, total, other);
}

/// How many octets these are together, or the greatest number of 64 bits where there are more.
#[tactic(auto, using(crate::proofs::session_transit::Totals::count_more))]
fn count_in(all: &[Octets]) -> u64
    ensures { result ≡ min (sum_by (λ octets. length octets) all.now) 18446744073709551615 }
{
    let mut count: u64 = 0;
    for octets in all {
        count = count.saturating_add(octets.len() as u64);
    }
    count
}

/// No direction of the node is there. What is left is counted anew.
pub(crate) fn lose_all(sessions: &mut Sessions, total: &mut u64, node: NodeId)
    requires unique { IsUnique is_key sessions.old }
    requires counted { total.old ≡ held sessions.old }
    ensures lost { (k : Key) → get is_key sessions.new k ≡ (if is_key_at node k then None else get is_key sessions.old k) }
    ensures counted { total.new ≡ held sessions.new }
    ensures unique { IsUnique is_key sessions.new }
{
    // The total so far fits 64 bits, and so does what is left of it.
    let _before = *total;
    sessions.retain(
        |key: &Key, octets: &mut Octets| -> bool
            ensures { (result ≡ not (is_key_at node key.now)) × (octets.new ≡ octets.old) }
        { !is_key_at(node, key) },
    );
    *total = count_in(sessions.values().as_slice());
}

/// Puts the octets after those in transit, where the direction is there.
fn put_after(sessions: &mut Sessions, over: Key, octets: &[u8]) -> Result<(), NoMemory>
    requires { IsUnique is_key sessions.old }
    ensures put { OnOk result ((k : Key) → get is_key sessions.new k ≡
        (if is_key over k then option_map (λ d. d ++ octets.now) (get is_key sessions.old k) else get is_key sessions.old k)) }
    ensures same { OnErr result ((k : Key) → get is_key sessions.new k ≡ get is_key sessions.old k) }
    ensures unique { IsUnique is_key sessions.new }
{
    match sessions.get_mut(&over) {
        None => Ok(()),
        Some(transit) => transit.put(octets),
    }
}

/// Puts the octets after those in transit, where the direction is there. Where all octets together would be more than
/// 64 bits can count, there is no memory for them.
pub(crate) fn put(
    sessions: &mut Sessions,
    total: &mut u64,
    over: Key,
    octets: &[u8],
) -> Result<(), NoMemory>
    requires unique { IsUnique is_key sessions.old }
    requires counted { total.old ≡ held sessions.old }
    ensures put { OnOk result ((k : Key) → get is_key sessions.new k ≡
        (if is_key over k then option_map (λ d. d ++ octets.now) (get is_key sessions.old k) else get is_key sessions.old k)) }
    ensures same { OnErr result ((k : Key) → get is_key sessions.new k ≡ get is_key sessions.old k) }
    ensures counted { total.new ≡ held sessions.new }
    ensures unique { IsUnique is_key sessions.new }
{
    if !sessions.contains_key(&over) {
        return Ok(());
    }
    let more = total.checked_add(octets.len() as u64).ok_or(NoMemory)?;
    put_after(sessions, over, octets)?;
    *total = more;
    Ok(())
}

/// Takes the first so many octets in transit, or all where there are fewer.
fn take_front(
    sessions: &mut Sessions,
    alloc: Global,
    over: Key,
    count: usize,
) -> Result<Bytes, NoMemory>
    requires { IsUnique is_key sessions.old }
    ensures taken { IfOk result (λ bytes. bytes ≡ take count (kept_at sessions.old over)) }
    ensures rest { OnOk result ((k : Key) → get is_key sessions.new k ≡
        (if is_key over k then option_map (λ d. drop count d) (get is_key sessions.old k) else get is_key sessions.old k)) }
    ensures same { OnErr result ((k : Key) → get is_key sessions.new k ≡ get is_key sessions.old k) }
    ensures unique { IsUnique is_key sessions.new }
{
    match sessions.get_mut(&over) {
        None => Ok(Bytes::new(alloc)),
        Some(transit) => transit.take(alloc, count),
    }
}

/// Takes the first so many octets in transit, or all where there are fewer.
pub(crate) fn take(
    sessions: &mut Sessions,
    total: &mut u64,
    alloc: Global,
    over: Key,
    count: usize,
) -> Result<Bytes, NoMemory>
    requires unique { IsUnique is_key sessions.old }
    requires counted { total.old ≡ held sessions.old }
    ensures taken { IfOk result (λ bytes. bytes ≡ take count (kept_at sessions.old over)) }
    ensures rest { OnOk result ((k : Key) → get is_key sessions.new k ≡
        (if is_key over k then option_map (λ d. drop count d) (get is_key sessions.old k) else get is_key sessions.old k)) }
    ensures same { OnErr result ((k : Key) → get is_key sessions.new k ≡ get is_key sessions.old k) }
    ensures counted { total.new ≡ held sessions.new }
    ensures unique { IsUnique is_key sessions.new }
{
    let bytes = take_front(sessions, alloc, over, count)?;
    *total -= bytes.len() as u64;
    Ok(bytes)
}
