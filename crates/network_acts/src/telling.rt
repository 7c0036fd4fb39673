//! The state of a network is reported.
ghost use Rattle.std.specs.Prelude.{◌≡◌, ◌<◌, IfOk, OnOk};
ghost use Rattle.mvpn_model.specs.Sessions as models;
ghost use Rattle.network_defs.specs.Acts.{Tell};
ghost use Rattle.data_plane.specs.datagram_acts.Stored.{AreLinked};
ghost use Rattle.network_acts.specs.Acting.{Made};
ghost use Rattle.network_acts.specs.Instant.{Any, Instant, IsSome, IsWorld};

use crate::network::Network;
use mv_base::NoMemory;
use mvpn_model::Session;
use scenario_defs::{Lines, ReportLine};

/// The count, if 64 bits hold it: what is counted up to their greatest number is more than any memory holds.
fn counted(count: u64) -> Result<u64, NoMemory>
    ensures { IfOk result (λ told. (told ≡ count) × (told < 18446744073709551615)) }
{
    if count == u64::MAX {
        return Err(NoMemory);
    }
    Ok(count)
}

impl Network {
    /// Tells the octets in transit, the copies on links, the datagrams that have a copy, the timers that are due, and how many of the
    /// sessions, which are those of the scenario, are not ready.
    pub fn tell(&self, sessions: &[Session], lines: &mut Lines) -> Result<(), NoMemory>
        requires network { IsSome Any self.now }
        requires sessions { sessions.now ≡ models.sessions self.now.scenario }
        ensures { OnOk result ((at : Instant) → IsWorld at self.now → AreLinked at.world →
            Made at at.moment Tell lines.old lines.new self.now) }
    {
        let due = counted(self.plane.due())?;
        let unready = counted(self.plane.unready(sessions))?;
        lines.push(ReportLine::State {
            bytes: self.total(),
            copies: self.datagrams.copies(),
            buffers: self.datagrams.live() as u64,
            due,
            unready,
        })
    }
}
