//! The copies of datagrams on the links of a network.
ghost use Rattle.std.specs.Prelude.{◌≡◌, ◌<◌, ◌-◌, ◌++◌, [], ◌∷◌, None, length, map, slice_get, if◌then◌else◌, IfSome, OnOk, OnErr};
ghost use Rattle.std.specs.List.{filter, remove};
ghost use Rattle.std.specs.Option.{option_map};
ghost use Rattle.std.specs.FinMap as maps;
ghost use Rattle.mv_base.specs.declared.ids.NodeId.{NodeId};
ghost use Rattle.data_plane.specs.link_copies.CopiesData.{no_copies, kept_at, all_kept, LacksNumber, is_at, is_recent, current_of, hop_of, sent};
ghost use Rattle.data_plane.specs.link_copies.CopiesData.{current_octets, IsSent, IsShared, KeepsBuffers, KeepsOctets};
ghost use Rattle.data_plane.specs.link_copies.Kept.{landed_of};

use crate::link_copies::hop::Hop;
use crate::link_copies::kept::{Handled, Kept, Landed};
use crate::link_copies::ways::Ways;
use crate::link_copies::{aging, sending, ways};
use buf_pool::Pool;
use indexmap::IndexMap;
use label_defs::Branch as TreeBranch;
use label_forwarding::Branch;
use mv_base::{NoMemory, NodeId};
use std::alloc::Global;
use std::marker::Model;

/// The most copies that there may be, so that 32 bits count those who hold a buffer.
const COPY_LIMIT: u64 = 4_294_967_294;

/// The copies of datagrams on the links of a network, and the datagram that is being handled since a copy of it has landed, if
/// any. Each datagram's octets stand once, in a buffer that counts its copies. Contracts see it as a `CopiesData`.
#[derive(Drop)]
pub struct LinkCopies {
    alloc: Global,
    pool: Pool,
    ways: Ways,
    current: Option<Handled>,
    /// How many copies there are.
    count: u64,
}

impl Model for LinkCopies {
    ghost use Rattle.std.specs.Prelude.{◌≡◌, length};
    ghost use Rattle.indexmap.specs.IndexMap.{IsUnique};
    ghost use Rattle.data_plane.specs.link_copies.CopiesData.{CopiesData, copies_code};

    ghost Value = { CopiesData };

    ghost coded = { copies_code };

    ghost use Rattle.data_plane.specs.link_copies.CopiesData.{all_kept, IsShared};
    ghost use Rattle.data_plane.specs.link_copies.Kept.{data_of, is_way};

    ghost view = { λ c. data_of c.ways c.current c.pool };

    ghost invariant = { λ c. IsUnique is_way c.ways × (c.count ≡ length (all_kept (data_of c.ways c.current c.pool)))
        × IsShared (data_of c.ways c.current c.pool) };
}

impl LinkCopies {
    /// No copies. It takes no memory.
    pub fn of(alloc: Global) -> LinkCopies
        ensures { result ≡ no_copies }
    {
        LinkCopies {
            alloc,
            pool: Pool::of(alloc),
            ways: IndexMap::new(alloc),
            current: None,
            count: 0,
        }
    }

    /// A new datagram goes out: its octets are put into one buffer, which counts its copies, and a copy goes on each hop, in order. There
    /// is a hop. Where memory ends, the first copies may have been put, and their buffer counts these.
    pub fn send(
        &mut self,
        number: u64,
        octets: &[u8],
        ttl: u8,
        now: u64,
        hops: &[Hop],
    ) -> Result<(), NoMemory>
        requires current { self.old.current ≡ None }
        requires fresh { LacksNumber self.old number }
        requires some { 0 < length hops.now }
        ensures sent { OnOk result (IsSent number octets.now ttl now hops.now self.old self.new) }
        ensures current { self.new.current ≡ None }
    {
        if self.count >= COPY_LIMIT {
            return Err(NoMemory);
        }
        let copies = sending::count(hops)?;
        let buffer = self.pool.put(octets, copies)?;
        let datagram = Handled::of(number, buffer);
        let put = sending::put_on_each(&mut self.ways, self.alloc, &datagram, ttl, now, hops);
        self.count += put as u64;
        if put < hops.len() {
            sending::give_back_rest(&mut self.pool, &buffer, hops.len() - put);
            return Err(NoMemory);
        }
        Ok(())
    }

    /// The copy at that place of the way lands, counted from 1, where there is one: it leaves its link, and its datagram is the one
    /// that is being handled. Place 0 names the first one too.
    pub fn land(&mut self, from: NodeId, to: NodeId, place: usize) -> Option<Landed>
        requires { self.old.current ≡ None }
        ensures landed { result ≡ option_map landed_of (slice_get (kept_at self.old from to) (place - 1)) }
        ensures ways { (u n : NodeId) → kept_at self.new u n ≡
            (if is_at from to u n then remove (kept_at self.old from to) (place - 1) else kept_at self.old u n) }
        ensures current { self.new.current ≡ option_map current_of (slice_get (kept_at self.old from to) (place - 1)) }
        ensures buffers { self.new.buffers ≡ self.old.buffers }
        ensures octets { KeepsOctets self.old self.new }
        ensures unchanged { result ≡ None → self.new ≡ self.old }
    {
        let place = place.saturating_sub(1);
        let kept = ways::copy_at(&self.ways, (from, to), place)?;
        ways::take_out(&mut self.ways, (from, to), place);
        self.count -= 1;
        self.current = Some(kept.handled());
        Some(kept.landed())
    }

    /// A copy of the datagram that is being handled is put on the branch, where there is one.
    fn put_copy(&mut self, from: NodeId, ttl: u8, now: u64, branch: Branch) -> Result<(), NoMemory>
        ensures sent { OnOk result ((u n : NodeId) → kept_at self.new u n ≡
            kept_at self.old u n ++ sent self.old.current from ttl now (branch ∷ []) u n) }
        ensures current { self.new.current ≡ self.old.current }
        ensures buffers { KeepsBuffers self.old.buffers self.new.buffers }
        ensures octets { KeepsOctets self.old self.new }
    {
        let Some(handled) = self.current else {
            return Ok(());
        };
        if self.count >= COPY_LIMIT {
            return Err(NoMemory);
        }
        let kept = Kept::on(&handled, branch, ttl, now);
        ways::put(&mut self.ways, self.alloc, (from, branch.node), kept)?;
        self.pool.share(handled.buffer(), 1);
        self.count += 1;
        Ok(())
    }

    /// The node puts a copy of the datagram that is being handled on each branch of its trees, in order. Where memory ends, the first
    /// ones may have been put.
    pub fn forward(
        &mut self,
        from: NodeId,
        ttl: u8,
        now: u64,
        branches: &[TreeBranch],
    ) -> Result<(), NoMemory>
        ensures sent { OnOk result ((u n : NodeId) → kept_at self.new u n ≡
            kept_at self.old u n ++ sent self.old.current from ttl now (map hop_of branches.now) u n) }
        ensures current { self.new.current ≡ self.old.current }
        ensures buffers { KeepsBuffers self.old.buffers self.new.buffers }
        ensures octets { KeepsOctets self.old self.new }
    {
        for branch in branches {
            let hop = Branch {
                node: branch.node,
                label: branch.label,
            };
            self.put_copy(from, ttl, now, hop)?;
        }
        Ok(())
    }

    /// The datagram is no longer handled. Its buffer ends where no copy has it.
    pub fn finish(&mut self)
        ensures current { self.new.current ≡ None }
        ensures ways { self.new.ways ≡ self.old.ways }
        ensures octets { KeepsOctets self.old self.new }
        ensures unchanged { self.old.current ≡ None → self.new ≡ self.old }
    {
        let Some(handled) = self.current else {
            return;
        };
        self.pool.give_back(handled.buffer());
        self.current = None;
    }

    /// The copy at that place of the way leaves its link, where there is one. The place is counted as in `land`.
    pub fn drop_copy(&mut self, from: NodeId, to: NodeId, place: usize)
        requires { self.old.current ≡ None }
        ensures ways { (u n : NodeId) → kept_at self.new u n ≡
            (if is_at from to u n then remove (kept_at self.old from to) (place - 1) else kept_at self.old u n) }
        ensures current { self.new.current ≡ None }
        ensures octets { KeepsOctets self.old self.new }
    {
        self.land(from, to, place);
        self.finish();
    }

    /// The copies that have been on their link for longer than `life` are dropped.
    pub fn age(&mut self, now: u64, life: u64)
        ensures ways { (u n : NodeId) → kept_at self.new u n ≡ filter (is_recent now life) (kept_at self.old u n) }
        ensures current { self.new.current ≡ self.old.current }
        ensures octets { KeepsOctets self.old self.new }
    {
        aging::age(&mut self.ways, &mut self.pool, &mut self.count, now, life);
    }

    /// The octets of the datagram that is being handled.
    pub fn current_octets(&self) -> &[u8]
        ensures { IfSome (current_octets self.now) (λ octets. result.now ≡ octets) }
    {
        match &self.current {
            None => &[],
            Some(handled) => self.pool.get(handled.buffer()),
        }
    }

    /// How many copies there are.
    pub fn count(&self) -> u64
        ensures { result ≡ length (all_kept self.now) }
    {
        self.count
    }

    /// How many copies are on the way.
    pub fn count_on(&self, from: NodeId, to: NodeId) -> usize
        ensures { result ≡ length (kept_at self.now from to) }
    {
        ways::count_on(&self.ways, (from, to))
    }

    /// How many buffers are live.
    pub fn live(&self) -> usize
        ensures { result ≡ maps.len self.now.buffers }
    {
        self.pool.live()
    }

    /// The buffers.
    pub fn pool(&self) -> &Pool
        ensures now { result.now ≡ self.now.buffers }
        ensures shared { IsShared self.now }
    {
        &self.pool
    }
}
