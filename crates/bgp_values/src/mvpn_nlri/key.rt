//! Reading the routes that can be the key of a leaf.
ghost use Rattle.std.specs.Prelude.{◌≡◌, ◌≤◌, IfOk};
ghost use Rattle.bgp_values.specs.mvpn_nlri.Reading.{Gives, inter_at, selective_at, key_kind_at, key_len_at, key_at};

use crate::mvpn_nlri::address::{Role, read_addr_or_any, read_originator};
use crate::mvpn_nlri::bounded::Fields;
use crate::mvpn_nlri::fault::{RouteFault, RouteReason};
use crate::mvpn_nlri::route::{Afi, LeafKey};

/// Reads the fields of an Inter-AS I-PMSI A-D route.
#[tactic(auto, unfolding(crate::specs::mvpn_nlri::Reading::inter_at))]
pub(crate) fn read_inter(fields: &mut Fields<'_>) -> Result<LeafKey, RouteFault>
    ensures { Gives (λ key. key) result fields.new (inter_at fields.old) }
{
    let rd = fields.rd()?;
    let source_as = fields.source_as()?;
    fields.end()?;
    Ok(LeafKey::Inter { rd, source_as })
}

/// Reads the fields of an S-PMSI A-D route.
#[tactic(auto, unfolding(crate::specs::mvpn_nlri::Reading::selective_at))]
pub(crate) fn read_selective(fields: &mut Fields<'_>, afi: Afi) -> Result<LeafKey, RouteFault>
    ensures { Gives (λ key. key) result fields.new (selective_at afi fields.old) }
{
    let rd = fields.rd()?;
    let source = read_addr_or_any(fields, afi, Role::Source)?;
    let group = read_addr_or_any(fields, afi, Role::Group)?;
    let originator = read_originator(fields)?;
    Ok(LeafKey::Selective {
        rd,
        source,
        group,
        originator,
    })
}

#[tactic(auto, unfolding(crate::specs::mvpn_nlri::Reading::key_kind_at))]
fn read_key_kind(fields: &mut Fields<'_>) -> Result<u8, RouteFault>
    ensures { Gives (λ kind. kind) result fields.new (key_kind_at fields.old) }
{
    let place = fields.place();
    let kind = fields.octet()?;
    if kind != 2 && kind != 3 {
        return Err(RouteFault {
            place,
            reason: RouteReason::KeyType,
        });
    }
    Ok(kind)
}

/// Reads the length of a key, which the enclosing length has to leave.
#[tactic(auto, unfolding(crate::specs::mvpn_nlri::Reading::key_len_at))]
fn read_key_len(fields: &mut Fields<'_>) -> Result<usize, RouteFault>
    ensures value { Gives (λ len. len) result fields.new (key_len_at fields.old) }
    ensures within { IfOk result (λ len. len ≤ fields.new.within) }
{
    let place = fields.place();
    let len = fields.octet()? as usize;
    if len > fields.within() {
        return Err(RouteFault {
            place,
            reason: RouteReason::LengthTooSmall,
        });
    }
    Ok(len)
}

/// Reads a key.
#[tactic(auto, unfolding(crate::specs::mvpn_nlri::Reading::key_at))]
pub(crate) fn read_key(fields: &mut Fields<'_>, afi: Afi) -> Result<LeafKey, RouteFault>
    ensures { Gives (λ key. key) result fields.new (key_at afi fields.old) }
{
    let kind = read_key_kind(fields)?;
    let len = read_key_len(fields)?;
    let thereafter = fields.within() - len;
    fields.bound(len);
    let key = if kind == 2 {
        read_inter(fields)?
    } else {
        read_selective(fields, afi)?
    };
    fields.bound(thereafter);
    Ok(key)
}
