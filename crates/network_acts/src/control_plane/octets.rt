//! Octets that are moved over a session, from what is in transit to the node at its end (RFC 4271 section 4, RFC 5036 section 3.1).
ghost use Rattle.std.specs.Prelude.{◌++◌, [], ◌∷◌, OnOk};
ghost use Rattle.network_nodes.specs.Edges.{IsOneOf};
ghost use Rattle.network_acts.specs.control_plane.Acted.{HandsOutAt, IsSomeMidway};
ghost use Rattle.network_acts.specs.control_plane.Moving.{SettlesTaken, line_of};
ghost use Rattle.network_acts.specs.control_plane.Plane.{KeepsPlaces};

use crate::control_plane::plane::{ActAnswer, ControlPlane, halt_of};
use mldp_node::NodeFault;
use mv_base::{Bytes, NoMemory};
use network_defs::session_defs::Direction;
use network_nodes::EdgeFault;
use scenario_defs::{Lines, ReportLine};

impl ControlPlane {
    /// Tells the octets that the receiver took, and what it puts then is handed out.
    fn tell_taken(
        &mut self,
        over: Direction,
        bytes: Bytes,
        lines: &mut Lines,
    ) -> Result<(), NoMemory>
        requires { IsSomeMidway over.to self.old }
        ensures acts { HandsOutAt over.to self.old self.new (lines.old ++ line_of over bytes ∷ []) lines.new result }
        ensures places { KeepsPlaces self.old self.new }
    {
        lines.push(ReportLine::Take {
            kind: over.kind,
            from: over.from,
            to: over.to,
            bytes,
        })?;
        self.hand_out(over.to, lines)
    }

    /// What comes of a move by what the receiver answered.
    pub(crate) fn settle_taken(
        &mut self,
        over: Direction,
        bytes: Bytes,
        answer: Result<(), EdgeFault>,
        lines: &mut Lines,
    ) -> ActAnswer
        requires midway { OnOk answer (IsSomeMidway over.to self.old) }
        requires spends { IsOneOf [] answer }
        ensures acts { SettlesTaken over bytes answer self.old self.new lines.old lines.new result }
        ensures places { KeepsPlaces self.old self.new }
    {
        match answer {
            Ok(()) => match self.tell_taken(over, bytes, lines) {
                Ok(()) => Ok(()),
                Err(_) => Err(NodeFault::NoMemory),
            },
            Err(fault) => Err(halt_of(fault)),
        }
    }
}
