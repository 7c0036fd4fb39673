//! The shape of an opaque value (RFC 6388 section 2.3).
ghost use Rattle.std.specs.Prelude.{◌≡◌, ◌<◌, ◌≤◌, length, IfSome};
ghost use Rattle.mv_base.specs.framing.Walk.{walk};
ghost use Rattle.mldp.specs.mldp_fec.Shape.{tlv_len};

/// The type of the Generic LSP Identifier (RFC 6388 section 2.3.1).
const GENERIC_LSP: u8 = 1;

/// The type of a TLV that has an extended type (RFC 6388 section 2.3).
const EXTENDED: u8 = 255;

/// The number of octets of the TLV at the front, where one stands there.
#[tactic(auto, unfolding(crate::specs::mldp_fec::Shape::tlv_len))]
fn len_of_tlv(octets: &[u8]) -> Option<usize>
    requires { 0 < length octets.now }
    ensures value { result ≡ tlv_len octets.now }
    ensures within { IfSome result (λ len. (0 < len) × (len ≤ length octets.now)) }
{
    let header = if octets[0] == EXTENDED { 5 } else { 3 };
    if octets.len() < header {
        return None;
    }
    let value = u16::from_be_bytes([octets[header - 2], octets[header - 1]]) as usize;
    if octets.len() < header + value || octets[0] == GENERIC_LSP && value != 4 {
        return None;
    }
    Some(header + value)
}

/// The place of the first octet after whole TLVs where none begins, if there is one.
pub(crate) fn first_misshapen(octets: &[u8]) -> Option<usize>
    ensures value { result ≡ walk tlv_len 0 0 octets.now }
    ensures within { IfSome result (λ place. place < length octets.now) }
{
    let mut place = 0;
    while place < octets.len() {
        let Some(len) = len_of_tlv(&octets[place..]) else {
            return Some(place);
        };
        place += len;
    }
    None
}
