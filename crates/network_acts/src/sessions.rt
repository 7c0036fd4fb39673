//! Acts on sessions: octets are moved, a session is lost, its loss is noticed, and its ends come up (RFC 4271 sections 4 and 8, RFC 5036
//! sections 2.5 and 3.1).
ghost use Rattle.network_defs.specs.Acts as acts;
ghost use Rattle.network_defs.specs.Counts.{direction};
ghost use Rattle.network_acts.specs.control_plane.Acted.{same_moment};
ghost use Rattle.network_acts.specs.control_plane.Moving.{IsMovable};
ghost use Rattle.network_acts.specs.control_plane.Sessions.{IsDown, IsHalfUp, IsLost, none_rising, with_rising};
ghost use Rattle.network_acts.specs.Acting.{ActsAs, Passes};
ghost use Rattle.network_acts.specs.Instant.{Instant, IsSome, IsWorld, OfPlane};

use crate::control_plane::ActAnswer;
use crate::network::Network;
use mv_base::NodeId;
use network_defs::session_defs::Direction;
use scenario_defs::{Kind, Lines};

impl Network {
    /// The first so many octets in transit over the direction, or all where there are fewer, go to the receiver, and the messages that are
    /// whole then are taken.
    pub fn move_octets(&mut self, over: Direction, count: usize, lines: &mut Lines) -> ActAnswer
        requires network { IsSome (OfPlane (IsMovable over)) self.old }
        ensures { ActsAs (OfPlane (IsMovable over)) same_moment (acts.Move over.kind over.from over.to count) over.to
            self.old self.new lines.old lines.new result }
    {
        let plane = &mut self.plane;
        let bytes = plane.transit.take(over, count)?;
        let answer = plane.nodes[usize::from(over.to.0)].take(
            over.kind,
            over.from,
            bytes.as_slice(),
            plane.clock,
            &plane.core,
        );
        plane.settle_taken(over, bytes, answer, lines)
    }

    /// The session is lost, and what was in transit there is gone. It takes no memory.
    pub fn lose(&mut self, kind: Kind, a: NodeId, b: NodeId)
        ensures { (at : Instant) → IsWorld at self.old → Passes at at.moment (acts.Lose kind a b) self.new }
    {
        let plane = &mut self.plane;
        plane.transit.lose(kind, a, b);
    }

    /// The end of node a of its session with b notices the loss: what it holds back of the session's stream is forgotten.
    pub fn notice(&mut self, kind: Kind, a: NodeId, b: NodeId, lines: &mut Lines) -> ActAnswer
        requires network { IsSome (OfPlane (IsLost kind a b)) self.old }
        ensures { ActsAs (OfPlane (IsLost kind a b)) same_moment (acts.Notice kind a b) a self.old self.new lines.old lines.new result }
    {
        let plane = &mut self.plane;
        let answer = plane.nodes[usize::from(a.0)].noticed(kind, b, plane.clock, &plane.core);
        plane.settle(a, answer, lines)
    }

    /// The session of a and b is joined, with nothing in transit there, and the end of a comes up.
    pub fn raise_first(&mut self, kind: Kind, a: NodeId, b: NodeId, lines: &mut Lines) -> ActAnswer
        requires network { IsSome (OfPlane (IsDown kind a b)) self.old }
        ensures { ActsAs (OfPlane (IsDown kind a b)) (with_rising kind a b) (acts.RaiseFirst kind a b) a
            self.old self.new lines.old lines.new result }
    {
        let plane = &mut self.plane;
        plane.transit.join(kind, a, b)?;
        let answer = plane.nodes[usize::from(a.0)].raised(kind, b, plane.clock, &plane.core);
        plane.settle(a, answer, lines)
    }

    /// The end of b of its session with a, which is joined, comes up too.
    pub fn raise_second(&mut self, kind: Kind, a: NodeId, b: NodeId, lines: &mut Lines) -> ActAnswer
        requires network { IsSome (OfPlane (IsHalfUp kind a b)) self.old }
        ensures { ActsAs (OfPlane (IsHalfUp kind a b)) none_rising (acts.RaiseSecond kind a b) b
            self.old self.new lines.old lines.new result }
    {
        let plane = &mut self.plane;
        let answer = plane.nodes[usize::from(b.0)].raised(kind, a, plane.clock, &plane.core);
        plane.settle(b, answer, lines)
    }
}
