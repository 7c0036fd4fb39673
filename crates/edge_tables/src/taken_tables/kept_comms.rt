//! The extended communities of routes that were taken, as a table keeps them.
ghost use Rattle.std.specs.Prelude.{◌≡◌, IfOk, IfSome};
ghost use Rattle.edge_tables.specs.taken_tables.Routes.{comms_of};

use bgp_messages::bgp_attributes::Comms;
use edge_routes::Shared;
use mv_base::NoMemory;
use mv_base::route_targets::ExtComm;
use std::alloc::Global;
use std::marker::Model;

/// Communities, whole.
#[derive(Drop)]
pub(super) struct Whole {
    comms: Comms,
}

impl Model for Whole {
    ghost use Rattle.std.specs.Prelude.{List};
    ghost use Rattle.mv_base.specs.declared.route_targets.communities.ExtComm.{ExtComm};

    ghost Value = { List ExtComm };

    ghost view = { λ w. w.comms };
}

/// Extended communities in order. Most routes have one or two, a target and perhaps an import, and take no memory for them; more are in
/// memory beside, once for all routes of a message.
#[derive(Drop)]
pub(crate) enum KeptComms {
    One([ExtComm; 1]),
    Two([ExtComm; 2]),
    Any(Shared<Whole>),
}

fn whole_of(alloc: Global, comms: &[ExtComm]) -> Result<Whole, NoMemory>
    ensures { IfOk result (λ whole. whole ≡ comms.now) }
{
    let comms = Comms::from_vec(Vec::from_slice(alloc, comms)?);
    Ok(Whole { comms })
}

/// What is kept of one community or of two.
fn few_of(comms: &[ExtComm]) -> Option<KeptComms>
    ensures { IfSome result (λ kept. comms_of kept ≡ comms.now) }
{
    match comms {
        [one] => Some(KeptComms::One([*one])),
        [one, other] => Some(KeptComms::Two([*one, *other])),
        _ => None,
    }
}

impl KeptComms {
    /// These communities, as a table keeps them.
    pub fn of(alloc: Global, comms: &[ExtComm]) -> Result<KeptComms, NoMemory>
        ensures { IfOk result (λ kept. comms_of kept ≡ comms.now) }
    {
        match few_of(comms) {
            Some(kept) => Ok(kept),
            None => Ok(KeptComms::Any(Shared::of(alloc, whole_of(alloc, comms)?)?)),
        }
    }

    /// The same communities, for one more.
    pub fn share(&self) -> Result<KeptComms, NoMemory>
        ensures { IfOk result (λ kept. comms_of kept ≡ comms_of self.now) }
    {
        match self {
            KeptComms::One(own) => Ok(KeptComms::One(*own)),
            KeptComms::Two(own) => Ok(KeptComms::Two(*own)),
            KeptComms::Any(own) => Ok(KeptComms::Any(own.share()?)),
        }
    }

    /// The communities.
    pub fn as_slice(&self) -> &[ExtComm]
        ensures { result.now ≡ comms_of self.now }
    {
        match self {
            KeptComms::One(own) => own.as_slice(),
            KeptComms::Two(own) => own.as_slice(),
            KeptComms::Any(own) => own.lent().comms.as_slice(),
        }
    }
}
