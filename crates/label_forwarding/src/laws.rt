//! Laws of packets.
ghost use Rattle.std.specs.Prelude.{◌≡◌, ℕ, List, Ok};
ghost use Rattle.mv_base.specs.declared.addr.Addr.{Addr};
ghost use Rattle.label_forwarding.specs.Spelling.{IsPacket};
ghost use Rattle.label_forwarding.specs.Reading.{packet_of};
ghost use Rattle.label_forwarding.specs.Written.{written, MayBeSent};

/// Octets are a packet of at most one flow.
pub fn one_flow()
    ensures { (source group other to : Addr) (octets : List ℕ) → IsPacket source group octets → IsPacket other to octets →
        (source ≡ other) × (group ≡ to) }
{}

/// The packet that a send makes is spelled, so reading it gives its flow back.
pub fn written_is_read()
    ensures spelled { (source group : Addr) (payload : List ℕ) → MayBeSent source group payload →
        IsPacket source group (written source group payload) }
    ensures read { (source group : Addr) (payload : List ℕ) → MayBeSent source group payload →
        packet_of (written source group payload) ≡ Ok (record { source = source; group = group; octets = written source group payload }) }
{}
