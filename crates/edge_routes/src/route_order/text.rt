//! The octets that spell routes.
ghost use Rattle.std.specs.Prelude.{◌≡◌, ◌≤◌, take};
ghost use Rattle.bgp_values.specs.declared.mvpn_nlri.route.Afi.{Afi};
ghost use Rattle.bgp_values.specs.mvpn_nlri.Spelling as routes;

use bgp_values::mvpn_nlri::Route;

/// The octets that spell a route, in front, and how many they are.
pub(crate) fn spelled(route: &Route) -> ([u8; 257], usize)
    requires { (afi : Afi) × routes.Spells afi route.now (routes.written route.now) }
    ensures octets { take result.1 result.0 ≡ routes.written route.now }
    ensures within { result.1 ≤ 257 }
{
    let mut octets = [0; 257];
    let len = bgp_values::mvpn_nlri::encode(route, &mut octets);
    (octets, len)
}
