//! What the lines of a text so far declare, and the words that declare or name a thing.

mod draft;
mod line;
mod naming;
mod setting;

pub use draft::Draft;
pub use line::Line;
pub use naming::{
    are_joined, edge_at, iface_at, is_of_iface, new_name, node_addr_at, node_at, other_end_at,
    rd_at, site_at, vrf_at, vrf_number_at,
};
pub use setting::{Given, Setting};
