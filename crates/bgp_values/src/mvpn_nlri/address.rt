//! Reading sources, groups and originators.
ghost use Rattle.std.specs.Prelude.{◌≡◌};
ghost use Rattle.bgp_values.specs.mvpn_nlri.Reading.{Gives, is_part, plain_at, any_or_addr_at, addr_at, originator_at, flow_at};
ghost use Rattle.bgp_values.specs.mvpn_nlri.FirstFault.{bits, wrong_len};

use crate::mvpn_nlri::bounded::Fields;
use crate::mvpn_nlri::fault::{RouteFault, RouteReason};
use crate::mvpn_nlri::route::Afi;
use mv_base::Addr;

/// Which of a flow's two addresses.
#[derive(Clone, Copy, PartialEq, Eq)]
pub(crate) enum Role {
    Source,
    Group,
}

fn bits_of(afi: Afi) -> u8
    ensures { result ≡ bits afi }
{
    match afi {
        Afi::Ipv4 => 32,
        Afi::Ipv6 => 128,
    }
}

fn wrong_len(role: Role) -> RouteReason
    ensures { result ≡ wrong_len role }
{
    match role {
        Role::Source => RouteReason::SourceLength,
        Role::Group => RouteReason::GroupLength,
    }
}

/// Whether the address may have the role.
fn may_be(role: Role, addr: Addr) -> bool
    ensures { result ≡ is_part role addr }
{
    match (role, addr) {
        (Role::Source, _) => true,
        (Role::Group, Addr::V4(octets)) => octets[0] >= 224 && octets[0] <= 239,
        (Role::Group, Addr::V6(octets)) => octets[0] == 255,
    }
}

#[tactic(auto, unfolding(crate::specs::mvpn_nlri::Reading::plain_at))]
fn read_plain(fields: &mut Fields<'_>, afi: Afi, role: Role) -> Result<Addr, RouteFault>
    ensures { Gives (λ addr. addr) result fields.new (plain_at afi role fields.old) }
{
    let place = fields.place();
    let addr = match afi {
        Afi::Ipv4 => Addr::V4(fields.array()?),
        Afi::Ipv6 => Addr::V6(fields.array()?),
    };
    if !may_be(role, addr) {
        return Err(RouteFault {
            place,
            reason: RouteReason::GroupNotMulticast,
        });
    }
    Ok(addr)
}

/// Reads a source or group, or the wildcard.
#[tactic(auto, unfolding(crate::specs::mvpn_nlri::Reading::any_or_addr_at))]
pub(crate) fn read_addr_or_any(
    fields: &mut Fields<'_>,
    afi: Afi,
    role: Role,
) -> Result<Option<Addr>, RouteFault>
    ensures { Gives (λ addr. addr) result fields.new (any_or_addr_at afi role fields.old) }
{
    let place = fields.place();
    let bits = fields.octet()?;
    if bits == 0 {
        return Ok(None);
    }
    if bits != bits_of(afi) {
        return Err(RouteFault {
            place,
            reason: wrong_len(role),
        });
    }
    Ok(Some(read_plain(fields, afi, role)?))
}

/// Reads a source or group where no wildcard may stand.
#[tactic(auto, unfolding(crate::specs::mvpn_nlri::Reading::addr_at))]
fn read_addr(fields: &mut Fields<'_>, afi: Afi, role: Role) -> Result<Addr, RouteFault>
    ensures { Gives (λ addr. addr) result fields.new (addr_at afi role fields.old) }
{
    let place = fields.place();
    match read_addr_or_any(fields, afi, role)? {
        Some(addr) => Ok(addr),
        None => Err(RouteFault {
            place,
            reason: RouteReason::Wildcard,
        }),
    }
}

/// Reads a source and a group, after which nothing stands.
#[tactic(auto, unfolding(crate::specs::mvpn_nlri::Reading::flow_at))]
pub(crate) fn read_flow(fields: &mut Fields<'_>, afi: Afi) -> Result<(Addr, Addr), RouteFault>
    ensures { Gives (λ flow. flow) result fields.new (flow_at afi fields.old) }
{
    let source = read_addr(fields, afi, Role::Source)?;
    let group = read_addr(fields, afi, Role::Group)?;
    fields.end()?;
    Ok((source, group))
}

/// Reads the originator, which is all that the length leaves.
#[tactic(auto, unfolding(crate::specs::mvpn_nlri::Reading::originator_at))]
pub(crate) fn read_originator(fields: &mut Fields<'_>) -> Result<Addr, RouteFault>
    ensures { Gives (λ addr. addr) result fields.new (originator_at fields.old) }
{
    let place = fields.place();
    match fields.within() {
        4 => Ok(Addr::V4(fields.array()?)),
        16 => Ok(Addr::V6(fields.array()?)),
        other => {
            fields.take(other)?;
            Err(RouteFault {
                place,
                reason: RouteReason::OriginatorLength,
            })
        }
    }
}
