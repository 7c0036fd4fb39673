//! What an extended community says, by its type and sub-type.
ghost use Rattle.std.specs.Prelude.{◌≡◌, ◌↔◌, IfSome, IsTrue, List, [], ◌∷◌, ℕ, drop, None, Some};
ghost use Rattle.mv_base.specs.declared.addr.Addr.TheVariants.{V4};
ghost use Rattle.mv_base.specs.route_targets.Communities.{IsImport, IsSourceAs, IsRouteTarget, import_octets, source_as_octets};

use crate::Addr;
use crate::route_targets::{ExtComm, Target};

/// The address of an edge and the number of a VRF there, where the community is a VRF Route Import (RFC 6514 section 7).
pub fn vrf_import(community: ExtComm) -> Option<(Addr, u16)>
    ensures read { IfSome result (λ import. (address : List ℕ) × (import.0 ≡ V4 address) × (community.0 ≡ import_octets address import.1)) }
    ensures none { (result ≡ None) ↔ (¬ (IsImport community)) }
{
    match community.0 {
        [0x01, 0x0b, a, b, c, d, high, low] => {
            Some((Addr::V4([a, b, c, d]), u16::from_be_bytes([high, low])))
        }
        _ => None,
    }
}

fn ends_in_zeros(community: ExtComm) -> bool
    ensures { IsTrue result ↔ (drop 4 community.0 ≡ 0 ∷ 0 ∷ 0 ∷ 0 ∷ []) }
{
    let [_, _, _, _, a, b, c, d] = community.0;
    a == 0 && b == 0 && c == 0 && d == 0
}

/// The AS number, where the community is a Source AS (RFC 6514 section 6).
pub fn source_as(community: ExtComm) -> Option<u16>
    ensures read { IfSome result (λ number. community.0 ≡ source_as_octets number) }
    ensures none { (result ≡ None) ↔ (¬ (IsSourceAs community)) }
{
    match community.0 {
        [0x00, 0x09, high, low, ..] if ends_in_zeros(community) => {
            Some(u16::from_be_bytes([high, low]))
        }
        _ => None,
    }
}

/// The Route Target that the community is (RFC 4360 section 4, RFC 5668 section 2).
pub fn target(community: ExtComm) -> Option<Target>
    ensures read { IfSome result (λ target. target ≡ record { 0 = community }) }
    ensures none { (result ≡ None) ↔ (¬ (IsRouteTarget community)) }
{
    match community.0 {
        [0x00 | 0x01 | 0x02, 0x02, ..] => Some(Target(community)),
        _ => None,
    }
}
