//! Routes that a VRF knows.
use crate::Origin;
use scenario_defs::of_mv_base::Prefix;

/// A route that a VRF knows: a local one, or one imported from another edge.
#[derive(Clone, Copy, PartialEq, Eq)]
pub struct KnownRoute {
    pub prefix: Prefix,
    pub origin: Origin,
}
