//! Addresses of IPv4 and IPv6.
ghost use Rattle.std.specs.Prelude.{◌≡◌, option_map};
ghost use Rattle.mv_base.specs.Address.{same_addr, addr_octets};
ghost use Rattle.mv_base.specs.Dotted.{octet_of, octet_front_of, dotted_of, front_texts};

use crate::alike::same_four;
use crate::number::{cut_at, read_number};
use std::hash::{Hash, Hasher};

/// An address, its octets in the order of the wire.
#[derive(Clone, Copy, Debug)]
pub enum Addr {
    V4([u8; 4]),
    V6([u8; 16]),
}

impl PartialEq for Addr {
    ghost use Rattle.std.specs.Cmp.{partial_equiv_from_equiv};
    ghost use Rattle.mv_base.specs.Address.{same_addr, same_addr_equiv};

    ghost eq = { same_addr };

    ghost laws = { partial_equiv_from_equiv same_addr_equiv };

    fn eq(&self, other: &Addr) -> bool {
        self.same(*other)
    }
}

impl Eq for Addr {
    ghost use Rattle.mv_base.specs.Address.{same_addr_equiv};

    ghost laws = { same_addr_equiv };
}

impl Hash for Addr {
    ghost use Rattle.std.specs.Prelude.{[], ◌∷◌};
    ghost use Rattle.mv_base.specs.Address.{addr_octets, addr_alike};

    // Its octets in one write: octet by octet takes several times as long.
    ghost hash_input = { λ a. addr_octets a ∷ [] };

    ghost respects_eq = { addr_alike };

    fn hash<H: Hasher>(&self, state: &mut H) {
        state.write(self.octets());
    }
}

impl Addr {
    /// Whether both are one address.
    pub fn same(self, other: Addr) -> bool
        ensures { result ≡ same_addr self other }
    {
        match (self, other) {
            (Addr::V4(own), Addr::V4(others)) => same_four(own, others),
            (Addr::V6(own), Addr::V6(others)) => own == others,
            _ => false,
        }
    }

    /// The octets, in the order of the wire.
    pub fn octets(&self) -> &[u8]
        ensures { result.now ≡ addr_octets self.now }
    {
        match self {
            Addr::V4(octets) => octets,
            Addr::V6(octets) => octets,
        }
    }

    /// The address that the dotted text writes, of IPv4.
    pub fn read_dotted(text: &[u8]) -> Option<Addr>
        ensures { result ≡ option_map (λ octets. Addr.V4 octets) (dotted_of text.now) }
    {
        read_dotted(text).map(Addr::V4)
    }
}

/// One octet in decimal.
#[tactic(auto, unfolding(crate::specs::Dotted::octet_of))]
fn read_octet(text: &[u8]) -> Option<u8>
    ensures { result ≡ octet_of text.now }
{
    let number = read_number(text)?;
    if number < 256 {
        Some(number as u8)
    } else {
        None
    }
}

/// One octet in decimal that a point follows, and the text after the point.
#[tactic(auto, unfolding(crate::specs::Dotted::octet_front_of))]
fn read_octet_front(text: &[u8]) -> Option<(u8, &[u8])>
    ensures { option_map front_texts result ≡ octet_front_of text.now }
{
    let (front, rest) = cut_at(text, b'.')?;
    let octet = read_octet(front)?;
    Some((octet, rest))
}

/// The four octets of a dotted IPv4 address.
#[tactic(auto, unfolding(crate::specs::Dotted::dotted_of))]
pub(crate) fn read_dotted(text: &[u8]) -> Option<[u8; 4]>
    ensures { result ≡ dotted_of text.now }
{
    let (a, rest) = read_octet_front(text)?;
    let (b, rest) = read_octet_front(rest)?;
    let (c, rest) = read_octet_front(rest)?;
    let d = read_octet(rest)?;
    Some([a, b, c, d])
}
