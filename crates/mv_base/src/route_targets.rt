//! Route Targets (RFC 4360 section 4): which VRFs admit each other's routes.

mod communities;
mod reading;
mod targets;

pub use communities::{ExtComm, Target};
pub use reading::{source_as, target, vrf_import};
pub use targets::{TARGET_LIMIT, Targets, TargetsFault, same, same_members, shares};
