//! The attributes that were read of a list, by their types.
ghost use Rattle.std.specs.Prelude.{◌≡◌, IfOk, map};
ghost use Rattle.bgp_messages.specs.bgp_attributes.Reading.{has, with_attribute, nothing, update_in, advert_of};

use crate::bgp_attributes::attribute::{Attribute, Reachable};
use crate::bgp_attributes::key::Keys;
use crate::bgp_attributes::update::{Advert, Adverts, Comms, Update};
use crate::bgp_attributes::value::{
    EXTENDED_COMMUNITIES, MP_REACH_NLRI, MP_UNREACH_NLRI, PMSI_TUNNEL,
};
use bgp_values::pmsi_attr::Pmsi;
use mv_base::NoMemory;
use std::alloc::Global;

/// The attributes that were read of a list, at most one of each type.
#[derive(Drop)]
pub(crate) struct Found {
    reach: Option<Option<Reachable>>,
    unreach: Option<Option<Keys>>,
    communities: Option<Comms>,
    tunnel: Option<Pmsi>,
}

impl Found {
    pub(crate) fn nothing() -> Found
        ensures { result ≡ nothing }
    {
        Found {
            reach: None,
            unreach: None,
            communities: None,
            tunnel: None,
        }
    }

    /// Whether an attribute of that type was read.
    pub(crate) fn has(&self, kind: u8) -> bool
        ensures { result ≡ has self.now kind }
    {
        match kind {
            MP_REACH_NLRI => self.reach.is_some(),
            MP_UNREACH_NLRI => self.unreach.is_some(),
            EXTENDED_COMMUNITIES => self.communities.is_some(),
            PMSI_TUNNEL => self.tunnel.is_some(),
            _ => false,
        }
    }

    pub(crate) fn add(&mut self, attribute: Attribute)
        ensures { self.new ≡ with_attribute self.old attribute }
    {
        match attribute {
            Attribute::Reach(reachable) => self.reach = Some(reachable),
            Attribute::Unreach(keys) => self.unreach = Some(keys),
            Attribute::Communities(comms) => self.communities = Some(comms),
            Attribute::Tunnel(pmsi) => self.tunnel = Some(pmsi),
            Attribute::Passed(_) => {}
        }
    }

    /// What the attributes say together.
    pub(crate) fn into_update(self, alloc: Global) -> Result<Update, NoMemory>
        ensures { IfOk result (λ update. update ≡ update_in self) }
    {
        let Found {
            reach,
            unreach,
            communities,
            tunnel,
        } = self;
        let comms = communities.unwrap_or(Comms::new(alloc));
        let reach = match reach {
            Some(Some(reachable)) => adverts_of(alloc, &reachable, &comms, tunnel)?,
            _ => Adverts::new(alloc),
        };
        let unreach = match unreach {
            Some(Some(keys)) => keys,
            _ => Keys::new(alloc),
        };
        Ok(Update { reach, unreach })
    }
}

fn copy_of(alloc: Global, comms: &Comms) -> Result<Comms, NoMemory>
    ensures { IfOk result (λ copy. copy ≡ comms.now) }
{
    Ok(Comms::from_vec(Vec::from_slice(alloc, comms.as_slice())?))
}

/// An advert for each key, each with its own copy of the communities.
fn adverts_of(
    alloc: Global,
    reachable: &Reachable,
    comms: &Comms,
    pmsi: Option<Pmsi>,
) -> Result<Adverts, NoMemory>
    ensures { IfOk result (λ adverts. adverts ≡ map (advert_of comms.now pmsi reachable.now.next_hop) reachable.now.keys) }
{
    let keys = reachable.keys.as_slice();
    let mut adverts = Adverts::with_room(alloc, keys.len())?;
    for key in keys {
        adverts.push(Advert {
            key: *key,
            next_hop: reachable.next_hop,
            comms: copy_of(alloc, comms)?,
            pmsi,
        })?;
    }
    Ok(adverts)
}
