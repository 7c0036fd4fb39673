//! Datagrams: they enter at VRFs, and their copies land (RFC 6513 sections 9.1.1 and 12, RFC 3032).
ghost use Rattle.std.specs.Prelude.{ℕ, IfOk, OnOk, length};
ghost use Rattle.edge_defs.specs.Datagrams as fates;
ghost use Rattle.network_defs.specs.Acts as acts;
ghost use Rattle.network_defs.specs.World as worlds;
ghost use Rattle.network_acts.specs.control_plane.Queries.{IsEdgeOf, IsFate};
ghost use Rattle.network_acts.specs.Acting.{Made};
ghost use Rattle.network_acts.specs.Handling.{Enters, HasLanded, IsHandling, IsSentBy};
ghost use Rattle.network_acts.specs.Handling.{IsSomeHandling, IsSomeLanded, Lands, MayLand, landing_fate};
ghost use Rattle.network_acts.specs.Instant.{Instant, IsSome, IsWorld, OfPlane, standing_of};

use crate::control_plane::Fate;
use crate::network::Network;
use data_plane::link_copies::Landed;
use label_forwarding::{Datagram, read_packet};
use mv_base::{NoMemory, NodeId, Seq, SiteId, VrfId};
use scenario_defs::{Lines, ReportLine};
use std::alloc::Global;

/// Where the copies of a datagram go on whose TTL is this where they land: nowhere, where it is 1.
fn with_ttl(alloc: Global, ttl: u8, fate: Fate) -> Fate
    ensures { (own : fates.Fate) → IsFate own fate → IsFate (acts.with_ttl ttl own) result }
{
    if ttl <= 1 {
        Fate {
            outs: fate.outs,
            branches: Seq::new(alloc),
        }
    } else {
        fate
    }
}

impl Network {
    /// The datagram that was accepted last, and is being sent, enters at the VRF, whose edge is node n. Its copies are on links from
    /// `Datagrams::send` on, when the branches at all VRFs are known.
    pub fn enter(
        &mut self,
        n: NodeId,
        vrf: VrfId,
        site: SiteId,
        datagram: &Datagram<'_>,
        lines: &mut Lines,
    ) -> Result<(), NoMemory>
        requires network { IsSomeHandling (OfPlane (IsEdgeOf vrf n)) self.old }
        ensures { OnOk result ((at : Instant) (own : worlds.Datagram) → IsEdgeOf vrf n (standing_of at) → IsSentBy site datagram.now own →
            IsHandling at (length at.world.datagrams) own self.old → Enters at vrf own lines.old lines.new self.new) }
    {
        let alloc = lines.alloc();
        let plane = &self.plane;
        let node = plane.node(n);
        let fate = node.enter(alloc, vrf, site, datagram, plane.clock, &plane.core)?;
        self.datagrams.enter(
            n,
            datagram.bytes(),
            fate.outs.as_slice(),
            fate.branches.as_slice(),
            lines,
        )
    }

    /// Where the copy goes that landed.
    fn landing(
        &self,
        alloc: Global,
        from: NodeId,
        to: NodeId,
        landed: Landed,
    ) -> Result<Fate, NoMemory>
        requires network { IsSomeLanded from to landed self.now }
        ensures { (at : Instant) (place : ℕ) → MayLand to at → (own : HasLanded at from to place landed self.now) →
            IfOk result (IsFate (landing_fate at from to place own.left.copy own.left.datagram)) }
    {
        match read_packet(self.datagrams.octets()) {
            Ok(packet) => {
                let plane = &self.plane;
                let node = plane.node(to);
                let fate = node.arrive(
                    alloc,
                    from,
                    landed.label,
                    &packet,
                    plane.clock,
                    &plane.core,
                )?;
                Ok(with_ttl(alloc, landed.ttl, fate))
            }
            Err(_) => unreachable!(),
        }
    }

    /// The copy that landed goes on: it leaves at interfaces, and copies of it go on branches where its TTL lets them.
    fn arrive(
        &mut self,
        from: NodeId,
        to: NodeId,
        landed: Landed,
        lines: &mut Lines,
    ) -> Result<(), NoMemory>
        requires network { IsSomeLanded from to landed self.old }
        ensures { OnOk result ((at : Instant) (place : ℕ) → MayLand to at → HasLanded at from to place landed self.old →
            Lands at from to place lines.old lines.new self.new) }
    {
        let fate = self.landing(lines.alloc(), from, to, landed)?;
        lines.push(ReportLine::Land {
            from,
            to,
            label: landed.label,
            number: landed.number,
        })?;
        let ttl = landed.ttl.saturating_sub(1);
        let now = self.clock();
        self.datagrams.leave(
            to,
            ttl,
            now,
            fate.outs.as_slice(),
            fate.branches.as_slice(),
            lines,
        )
    }

    /// The copy at that place of the way lands, counted from 1, where there is one: it leaves at interfaces, and copies of it
    /// go on branches where its TTL lets them.
    pub fn hop(
        &mut self,
        from: NodeId,
        to: NodeId,
        place: usize,
        lines: &mut Lines,
    ) -> Result<(), NoMemory>
        requires network { IsSome (MayLand to) self.old }
        ensures { OnOk result ((at : Instant) → MayLand to at → IsWorld at self.old →
            Made at at.moment (acts.Land from to place) lines.old lines.new self.new) }
    {
        match self.datagrams.land(from, to, place) {
            None => Ok(()),
            Some(landed) => {
                self.arrive(from, to, landed, lines)?;
                self.datagrams.finish();
                Ok(())
            }
        }
    }
}
