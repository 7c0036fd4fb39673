//! Laws of an edge.
ghost use Rattle.std.specs.Prelude.{◌≡◌, ◌≢◌, ℕ, List, [], Some};
ghost use Rattle.std.specs.Ordering.{nat_cmp};
ghost use Rattle.std.specs.Cmp.Lexicographic.{slice_cmp};
ghost use Rattle.std.specs.declared.cmp.Ordering.TheVariants.{Less, Equal};
ghost use Rattle.std.specs.FinMap.{IsAntisymmetric};
ghost use Rattle.mv_base.specs.declared.addr.Addr.TheVariants.{V4, V6};
ghost use Rattle.mv_base.specs.declared.core_link.Link.{Link};
ghost use Rattle.mv_base.specs.declared.prefix.Prefix.{Prefix};
ghost use Rattle.mv_base.specs.declared.rd.Rd.{Rd};
ghost use Rattle.bgp_messages.specs.bgp_values.declared.mvpn_nlri.route.Afi.{Afi};
ghost use Rattle.bgp_messages.specs.bgp_values.declared.mvpn_nlri.route.Afi.TheVariants.{Ipv4, Ipv6};
ghost use Rattle.bgp_messages.specs.bgp_values.declared.mvpn_nlri.route.Route.{Route};
ghost use Rattle.bgp_messages.specs.bgp_values.mvpn_nlri.Spelling.{written};
ghost use Rattle.bgp_messages.specs.declared.bgp_attributes.key.Key.TheVariants.{Mcast, Unicast};
ghost use Rattle.bgp_messages.specs.bgp_update.Written.{vpn_text, afi_of};
ghost use Rattle.table_laws.specs.Words.{IsExact};
ghost use Rattle.edge_defs.specs.Edge.{EdgeData, flow_cmp, fresh, note_cmp, pattern_cmp};
ghost use Rattle.edge_defs.specs.Example.{Worked};
ghost use Rattle.edge_defs.specs.Keys.{key_cmp, same_value};
ghost use Rattle.edge_defs.specs.Place.{EdgePlace};
ghost use Rattle.mv_base.specs.core_walks.Core.{Core, IsCoreOf};
ghost use Rattle.edge_defs.specs.Steps.{Call, EdgeStepped, edge_step};
ghost use Rattle.edge_defs.specs.Tunnels.{leaves};

/// Keys, notes, patterns and flows that tie are equal, and so are values that compare as equal.
pub fn keys_are_told()
    ensures keys { IsAntisymmetric key_cmp }
    ensures notes { IsAntisymmetric note_cmp }
    ensures patterns { IsAntisymmetric pattern_cmp }
    ensures flows { IsAntisymmetric flow_cmp }
    ensures exact { IsExact same_value }
{}

/// Unicast keys stand before multicast keys, in each kind those of AFI 1 before those of AFI 2, and two keys of one kind and AFI in
/// the order of the octets that spell them, the label aside.
pub fn keys_are_in_order()
    ensures unicast { (rd : Rd) (prefix : Prefix) (afi : Afi) (route : Route) → key_cmp (Unicast rd prefix) (Mcast afi route) ≡ Less }
    ensures families { (own other : Route) → key_cmp (Mcast Ipv4 own) (Mcast Ipv6 other) ≡ Less }
    ensures prefix_families { (rd other_rd : Rd) (prefix other : Prefix) (octets other_octets : List ℕ) → prefix.addr ≡ V4 octets →
        other.addr ≡ V6 other_octets → key_cmp (Unicast rd prefix) (Unicast other_rd other) ≡ Less }
    ensures routes { (afi : Afi) (own other : Route) → slice_cmp nat_cmp (written own) (written other) ≢ Equal →
        key_cmp (Mcast afi own) (Mcast afi other) ≡ slice_cmp nat_cmp (written own) (written other) }
    ensures prefixes { (rd other_rd : Rd) (prefix other : Prefix) → afi_of prefix.addr ≡ afi_of other.addr →
        slice_cmp nat_cmp (vpn_text [] rd prefix) (vpn_text [] other_rd other) ≢ Equal →
        key_cmp (Unicast rd prefix) (Unicast other_rd other) ≡ slice_cmp nat_cmp (vpn_text [] rd prefix) (vpn_text [] other_rd other) }
{}

/// A worked network of two edges: what one originates, and what the other makes of it.
pub fn worked_edges()
    ensures { Worked }
{}

/// The trees of which the label part of an edge is a leaf are those that the edge wants by what it keeps of customers and of BGP: so
/// it is in a fresh edge, and each step keeps it.
pub fn leaves_are_those_wanted()
    ensures fresh { (place : EdgePlace) (count : ℕ) → (fresh count).part.leaves ≡ leaves place (fresh count).control }
    ensures step { (place : EdgePlace) (now : ℕ) (old : EdgeData) (call : Call) (new : EdgeStepped) →
        old.part.leaves ≡ leaves place old.control → edge_step place now old call ≡ Some new →
        new.edge.part.leaves ≡ leaves place new.edge.control }
{}

/// The links of so many nodes tell their core.
pub fn links_have_one_core()
    ensures { (count : ℕ) (links : List Link) (core other : Core) → IsCoreOf count links core → IsCoreOf count links other →
        core ≡ other }
{}
