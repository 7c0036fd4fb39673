//! Copies that have been on their link for longer than they may.
ghost use Rattle.std.specs.Prelude.{◌≡◌, ℕ, ◌+◌, ◌≤◌, ◌==◌, ◌&&◌, not, length, if◌then◌else◌};
ghost use Rattle.indexmap.specs.IndexMap.{index_map_len, IsUnique};
ghost use Rattle.data_plane.specs.link_copies.CopiesData.{count_of, is_recent};
ghost use Rattle.data_plane.specs.link_copies.Kept.{is_way, sum_over, with_buffer, gone, recent, aged_to, aged_at};
ghost use Rattle.data_plane.specs.link_copies.Fading.{Fades};

use crate::link_copies::kept::Kept;
use crate::link_copies::queue::Queue;
use crate::link_copies::ways::Ways;
use buf_pool::Pool;

/// Gives the buffer of the copy back, where the copy has been on its link for longer than it may.
fn give_back_of(pool: &mut Pool, kept: &Kept, now: u64, life: u64)
    requires held { (if is_recent now life kept.now then 0 else 1) ≤ count_of pool.old kept.now.buffer }
    ensures counted { (name : ℕ) → count_of pool.new name
        + (if not (is_recent now life kept.now) && (kept.now.buffer == name) then 1 else 0) ≡ count_of pool.old name }
    ensures fades { Fades pool.old pool.new }
{
    if !kept.is_recent(now, life) {
        pool.give_back(kept.buffer());
    }
}

/// Gives the buffers of those copies back that have been on their link for longer than they may.
fn give_back_old(queue: &Queue, pool: &mut Pool, now: u64, life: u64)
    requires held { (name : ℕ) → gone now life name queue.now ≤ count_of pool.old name }
    ensures counted { (name : ℕ) → count_of pool.new name + gone now life name queue.now ≡ count_of pool.old name }
    ensures fades { Fades pool.old pool.new }
{
    for place in 0..queue.len() {
        if let Some(kept) = queue.at(place) {
            give_back_of(pool, &kept, now, life);
        }
    }
}

/// Drops those copies that have been on their link for longer than they may, and counts them.
fn age_queue(queue: &mut Queue, pool: &mut Pool, now: u64, life: u64) -> usize
    requires held { (name : ℕ) → gone now life name queue.old ≤ count_of pool.old name }
    ensures recent { queue.new ≡ recent now life queue.old }
    ensures dropped { result + length queue.new ≡ length queue.old }
    ensures counted { (name : ℕ) → count_of pool.new name + gone now life name queue.old ≡ count_of pool.old name }
    ensures fades { Fades pool.old pool.new }
{
    let before = queue.len();
    give_back_old(queue, pool, now, life);
    queue.drop_old(now, life);
    before - queue.len()
}

/// The same on the way of that index. `count` is how many copies are on all ways.
fn age_at(ways: &mut Ways, pool: &mut Pool, count: &mut u64, index: usize, now: u64, life: u64)
    requires counted { count.old ≡ sum_over length ways.old }
    requires held { (name : ℕ) → sum_over (with_buffer name) ways.old ≤ count_of pool.old name }
    ensures aged { ways.new.entries ≡ aged_at now life index ways.old.entries }
    ensures counted { count.new ≡ sum_over length ways.new }
    ensures held { (name : ℕ) → count_of pool.new name + sum_over (with_buffer name) ways.old
        ≡ count_of pool.old name + sum_over (with_buffer name) ways.new }
    ensures fades { Fades pool.old pool.new }
{
    match ways.get_index_mut(index) {
        None => {}
        Some(queue) => *count -= age_queue(queue, pool, now, life) as u64,
    }
}

/// The same on all ways.
pub(crate) fn age(ways: &mut Ways, pool: &mut Pool, count: &mut u64, now: u64, life: u64)
    requires counted { count.old ≡ sum_over length ways.old }
    requires held { (name : ℕ) → sum_over (with_buffer name) ways.old ≤ count_of pool.old name }
    ensures aged { ways.new.entries ≡ aged_to now life (index_map_len ways.old) ways.old.entries }
    ensures counted { count.new ≡ sum_over length ways.new }
    ensures held { (name : ℕ) → count_of pool.new name + sum_over (with_buffer name) ways.old
        ≡ count_of pool.old name + sum_over (with_buffer name) ways.new }
    ensures fades { Fades pool.old pool.new }
    ensures unique { IsUnique is_way ways.new }
{
    for index in 0..ways.len() {
        age_at(ways, pool, count, index, now, life);
    }
}
