//! Packets that were read.
ghost use Rattle.std.specs.Prelude.{◌≡◌};

use mv_base::Addr;
use std::marker::Model;

/// A packet, its source and the group that it is sent to. Contracts see it as a `Packet`.
#[derive(Drop)]
pub struct Datagram<'a> {
    source: Addr,
    group: Addr,
    bytes: &'a [u8],
}

impl<'a> Model for Datagram<'a> {
    ghost use Rattle.label_forwarding.specs.Spelling.{Packet};

    ghost Value = { Packet };

    ghost view = { λ d. record { source = d.source; group = d.group; octets = d.bytes.now } };
}

impl<'a> Datagram<'a> {
    pub(crate) fn of(source: Addr, group: Addr, bytes: &'a [u8]) -> Datagram<'a>
        ensures { result ≡ record { source = source; group = group; octets = bytes.now } }
    {
        Datagram {
            source,
            group,
            bytes,
        }
    }

    /// Who sent the packet.
    pub fn source(&self) -> Addr
        ensures { result ≡ self.now.source }
    {
        self.source
    }

    /// The multicast group that the packet is sent to.
    pub fn group(&self) -> Addr
        ensures { result ≡ self.now.group }
    {
        self.group
    }

    /// The octets of the whole packet.
    pub fn bytes(&self) -> &'a [u8]
        ensures { result.now ≡ self.now.octets }
    {
        self.bytes
    }
}
