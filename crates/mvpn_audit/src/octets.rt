//! The octets of datagrams.
ghost use Rattle.std.specs.Prelude.{◌≡◌, nat_eq, IfOk};
ghost use Rattle.std.specs.Cmp.Lexicographic.{pointwise};
ghost use Rattle.mvpn_audit.specs.Judging.{IsShort, octets_sent};

use audit_events::of_audit_defs::of_mvpn_model::packet;
use audit_events::of_mv_base::NoMemory;
use audit_events::of_scenario_defs::Event;
use std::alloc::Global;

fn is_same(own: &[u8], other: &[u8]) -> bool
    ensures { result ≡ pointwise nat_eq own.now other.now }
{
    own == other
}

/// Whether these are the octets of the datagram that the event sends.
pub(crate) fn has_octets(alloc: Global, event: &Event, bytes: &[u8]) -> Result<bool, NoMemory>
    requires { IsShort event.now }
    ensures { IfOk result (λ answer. answer ≡ pointwise nat_eq bytes.now (octets_sent event.now)) }
{
    match event {
        Event::Send {
            site: _,
            source,
            group,
            payload,
        } => {
            let sent = packet(alloc, *source, *group, payload.as_slice())?;
            Ok(is_same(bytes, sent.as_slice()))
        }
        Event::Packet {
            site: _,
            bytes: sent,
        } => Ok(is_same(bytes, sent.as_slice())),
        _ => Ok(is_same(bytes, &[])),
    }
}
