//! The datagrams on the links of a network, and the one that is being sent or handled.
ghost use Rattle.std.specs.Prelude.{◌≡◌, ◌<◌, ◌+◌, ◌-◌, ◌++◌, ◌^◌, ℕ, None, length, map, slice_get, IfOk, IfSome, OnOk, OnErr};
ghost use Rattle.scenario_defs.specs.declared.scenario.Scenario.{Scenario};
ghost use Rattle.scenario_defs.specs.declared.report.ReportLine.TheVariants as told;
ghost use Rattle.network_defs.specs.Acts.{aged, hop_line, with_branches, without_copy};
ghost use Rattle.network_defs.specs.Costs.{Cores};
ghost use Rattle.network_defs.specs.Counts.{all_copies, datagrams_with_copy};
ghost use Rattle.network_defs.specs.World.{Datagram, World, clock_of, scenario_of, start};
ghost use Rattle.data_plane.specs.link_copies.CopiesData.{IsShared};
ghost use Rattle.data_plane.specs.datagram_acts.Stored.{AreLinked, Handles, HasLanded, IsHandling, IsIdle, IsSending, IsSomeSending, with_datagram};

use crate::datagram_acts::leaving;
use crate::link_copies::{Hop, Landed, LinkCopies};
use buf_pool::Pool;
use label_defs::Branch;
use label_forwarding::Branch as LabelBranch;
use mv_base::{IfaceId, NoMemory, NodeId};
use scenario_defs::Lines;
use std::alloc::Global;
use std::marker::Model;

/// The TTL of a datagram's copies where it enters.
const FIRST_TTL: u8 = 255;

/// The copies of datagrams on the links of a network, and the datagram that is being sent, or handled since a copy of it has landed, if
/// any. Accepted datagrams are numbered from 1. Contracts see it as a `DatagramsView`.
#[derive(Drop)]
pub struct Datagrams {
    copies: LinkCopies,
    /// How many were accepted.
    count: u64,
    /// The number of the one that is being handled since a copy of it has landed, while there is one.
    number: u64,
    /// The hops on which the one that is being sent is still to go.
    hops: Vec<Hop>,
}

impl Model for Datagrams {
    ghost use Rattle.data_plane.specs.datagram_acts.DatagramsView.{DatagramsView, view_code};
    ghost use Rattle.data_plane.specs.datagram_acts.Stored.{IsNumber};

    ghost Value = { DatagramsView };

    ghost coded = { view_code };

    ghost view = { λ d. record { copies = d.copies; count = d.count; hops = d.hops.items } };

    ghost invariant = { λ d. IsNumber d.number d.copies.current };
}

/// Each buffer counts the copies that have it. It does nothing: the pool is asked for, since that is known of it.
fn buffers_count_copies(copies: &LinkCopies)
    ensures { IsShared copies.now }
{
    copies.pool();
}

impl Datagrams {
    /// No datagrams. It takes no memory.
    pub fn of(alloc: Global) -> Datagrams
        ensures { (scenario : Scenario) (cores : Cores) → IsIdle (start scenario cores) result }
    {
        Datagrams {
            copies: LinkCopies::of(alloc),
            count: 0,
            number: 0,
            hops: Vec::new(alloc),
        }
    }

    /// A datagram is accepted, and is the one that is being sent. Answers its number. It gets no buffer yet.
    pub fn accept(&mut self) -> u64
        requires room { self.old.count + 1 < 2 ^ 64 }
        ensures number { result ≡ self.old.count + 1 }
        ensures accepted { (world : World) (datagram : Datagram) → IsIdle world self.old →
            IsSending (with_datagram datagram world) (self.old.count + 1) datagram self.new }
    {
        self.count += 1;
        self.hops.clear();
        self.count
    }

    /// The datagram that is being sent, of these octets, leaves the node at the interfaces, and a copy of it is to go on each branch, each
    /// told in a line. At want of memory some first ones of the lines stand.
    pub fn enter(
        &mut self,
        node: NodeId,
        octets: &[u8],
        outs: &[IfaceId],
        branches: &[Branch],
        lines: &mut Lines,
    ) -> Result<(), NoMemory>
        ensures left { OnOk result ((world : World) (number : ℕ) (datagram : Datagram) → IsSending world number datagram self.old →
            IsSending (with_branches node 255 number branches.now world) number datagram self.new) }
        ensures lines { OnOk result ((world : World) (number : ℕ) (datagram : Datagram) → IsSending world number datagram self.old →
            lines.new ≡ lines.old
            ++ (map (λ iface. told.Out number iface octets.now) outs.now ++ map (hop_line node 255 number) branches.now)) }
    {
        leaving::leave_at(self.count, outs, octets, lines)?;
        leaving::tell_hops(node, FIRST_TTL, self.count, branches, lines)?;
        for branch in branches {
            self.hops.push(Hop {
                from: node,
                branch: LabelBranch {
                    node: branch.node,
                    label: branch.label,
                },
            })?;
        }
        Ok(())
    }

    /// The datagram that was being sent, of these octets, goes on its hops, over one buffer that counts its copies. Without a hop it
    /// gets no buffer. At want of memory some first ones of the copies may be on links.
    pub fn send(&mut self, now: u64, octets: &[u8]) -> Result<(), NoMemory>
        requires sending { IsSomeSending self.old }
        ensures sent { OnOk result ((world : World) (number : ℕ) (datagram : Datagram) → IsSending world number datagram self.old →
            clock_of world ≡ now → octets.now ≡ datagram.octets → IsIdle world self.new) }
        ensures none { length self.old.hops ≡ 0 → self.new.copies ≡ self.old.copies }
    {
        if self.hops.is_empty() {
            return Ok(());
        }
        self.copies
            .send(self.count, octets, FIRST_TTL, now, self.hops.as_slice())
    }

    /// The datagram that is being handled leaves the node at the interfaces, and a copy of it goes on each branch, each told in a line.
    /// At want of memory some first ones of the copies and lines stand.
    pub fn leave(
        &mut self,
        node: NodeId,
        ttl: u8,
        now: u64,
        outs: &[IfaceId],
        branches: &[Branch],
        lines: &mut Lines,
    ) -> Result<(), NoMemory>
        requires handling { IsHandling self.old }
        ensures left { OnOk result ((world : World) (number : ℕ) (datagram : Datagram) →
            Handles world number datagram self.old → clock_of world ≡ now →
            Handles (with_branches node ttl number branches.now world) number datagram self.new) }
        ensures lines { OnOk result ((world : World) (number : ℕ) (datagram : Datagram) → Handles world number datagram self.old →
            lines.new ≡ lines.old
            ++ (map (λ iface. told.Out number iface datagram.octets) outs.now ++ map (hop_line node ttl number) branches.now)) }
    {
        leaving::leave_at(self.number, outs, self.octets(), lines)?;
        leaving::tell_hops(node, ttl, self.number, branches, lines)?;
        self.copies.forward(node, ttl, now, branches)
    }

    /// The copy at that place of the way lands, counted from 1, where there is one: it leaves its link, and its datagram is the one
    /// that is being handled. Place 0 names the first one too.
    pub fn land(&mut self, from: NodeId, to: NodeId, place: usize) -> Option<Landed>
        requires idle { (world : World) × IsIdle world self.old }
        ensures landed { IfSome result (λ landed. (world : World) → IsIdle world self.old → HasLanded world from to place landed self.new) }
        ensures none { result ≡ None → (world : World) → IsIdle world self.old → slice_get (world.copies from to) (place - 1) ≡ None }
        ensures unchanged { result ≡ None → self.new ≡ self.old }
    {
        let landed = self.copies.land(from, to, place)?;
        self.number = landed.number;
        Some(landed)
    }

    /// The octets of the datagram that is being handled.
    pub fn octets(&self) -> &[u8]
        ensures { (world : World) (number : ℕ) (datagram : Datagram) → Handles world number datagram self.now →
            result.now ≡ datagram.octets }
    {
        self.copies.current_octets()
    }

    /// The datagram is no longer handled.
    pub fn finish(&mut self)
        ensures { (world : World) (number : ℕ) (datagram : Datagram) → Handles world number datagram self.old → IsIdle world self.new }
    {
        self.copies.finish();
        buffers_count_copies(&self.copies);
    }

    /// The copy at that place of the way leaves its link, where there is one. The place is counted as in `land`.
    pub fn drop_copy(&mut self, from: NodeId, to: NodeId, place: usize)
        requires idle { (world : World) × IsIdle world self.old }
        ensures { (world : World) → IsIdle world self.old → IsIdle (without_copy world from to place) self.new }
    {
        self.copies.drop_copy(from, to, place);
        buffers_count_copies(&self.copies);
    }

    /// The copies that have been on their link for longer than `life` are dropped.
    pub fn age(&mut self, now: u64, life: u64)
        ensures { (world : World) → IsIdle world self.old → clock_of world ≡ now → (scenario_of world).life ≡ life →
            IsIdle (aged world) self.new }
    {
        self.copies.age(now, life);
        buffers_count_copies(&self.copies);
    }

    /// How many copies are on the way.
    pub fn count_on(&self, from: NodeId, to: NodeId) -> usize
        ensures { (world : World) → IsIdle world self.now → result ≡ length (world.copies from to) }
    {
        self.copies.count_on(from, to)
    }

    /// How many copies are on links.
    pub fn copies(&self) -> u64
        ensures { (world : World) → IsIdle world self.now → AreLinked world → result ≡ length (all_copies world) }
    {
        self.copies.count()
    }

    /// How many datagrams have a copy on a link.
    pub fn live(&self) -> usize
        ensures { (world : World) → IsIdle world self.now → AreLinked world →
            result ≡ datagrams_with_copy (all_copies world) (length world.datagrams) }
    {
        buffers_count_copies(&self.copies);
        self.copies.live()
    }

    /// How many datagrams were accepted.
    pub fn count(&self) -> u64
        ensures { result ≡ self.now.count }
    {
        self.count
    }

    /// The buffers of the copies and of the datagram that is being handled.
    pub fn pool(&self) -> &Pool
        ensures now { result.now ≡ self.now.copies.buffers }
        ensures shared { IsShared self.now.copies }
    {
        self.copies.pool()
    }
}
