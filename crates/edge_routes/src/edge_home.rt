//! An edge of a scenario: what it knows of the network besides the costs of links.

mod copying;
mod home;
mod octets;
mod own_vrf;
mod shared;

pub use copying::copied_scenario;
pub use home::EdgeHome;
pub use octets::sites_have_octets;
pub use own_vrf::OwnVrf;
pub use shared::{SharedScenario, shared_copy};
