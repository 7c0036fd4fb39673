//! Copies of a new datagram, and the buffer that counts them.
ghost use Rattle.std.specs.Prelude.{◌≡◌, ℕ, ◌+◌, ◌≤◌, ◌==◌, length, take, if◌then◌else◌, IfOk};
ghost use Rattle.indexmap.specs.IndexMap.{IsUnique};
ghost use Rattle.data_plane.specs.link_copies.CopiesData.{count_of};
ghost use Rattle.data_plane.specs.link_copies.Fading.{Fades};
ghost use Rattle.data_plane.specs.link_copies.Kept.{ArePut, is_way};

use crate::link_copies::hop::Hop;
use crate::link_copies::kept::{Handled, Kept};
use crate::link_copies::ways::{self, Ways};
use buf_pool::{Buf, Pool};
use mv_base::NoMemory;
use std::alloc::Global;

/// How many hops there are, where 32 bits hold it.
pub(crate) fn count(hops: &[Hop]) -> Result<u32, NoMemory>
    ensures { IfOk result (λ count. count ≡ length hops.now) }
{
    u32::try_from(hops.len()).map_err(|_| NoMemory)
}

/// Puts a copy of the datagram on each hop, in order, as long as there is memory. Answers on how many.
pub(crate) fn put_on_each(
    ways: &mut Ways,
    alloc: Global,
    datagram: &Handled,
    ttl: u8,
    now: u64,
    hops: &[Hop],
) -> usize
    requires { IsUnique is_way ways.old }
    ensures most { result ≤ length hops.now }
    ensures put { ArePut ttl now datagram.now (take result hops.now) ways.old ways.new }
{
    for place in 0..hops.len() {
        let hop = hops[place];
        let kept = Kept::on(datagram, hop.branch, ttl, now);
        let Ok(()) = ways::put(ways, alloc, (hop.from, hop.branch.node), kept) else {
            return place;
        };
    }
    hops.len()
}

/// So many fewer hold the buffer.
pub(crate) fn give_back_rest(pool: &mut Pool, buffer: &Buf, rest: usize)
    requires { rest ≤ count_of pool.old buffer.now }
    ensures counted { (name : ℕ) → count_of pool.new name + (if buffer.now == name then rest else 0) ≡ count_of pool.old name }
    ensures fades { Fades pool.old pool.new }
{
    for _holder in 0..rest {
        pool.give_back(buffer);
    }
}
