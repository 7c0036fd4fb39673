//! Keys and values of routes as a table keeps them: in the order in which a peer is sent them. Those of routes that an edge originates
//! have no memory of their own; the key of a route that was taken is kept by the numbers by which keys are compared first, which spell
//! most keys of multicast routes whole (`kept_key.rt`). `specs/route_order/Kept.antt` says which key such numbers spell.

mod front;
mod kept_key;
mod key;
mod octets;
mod route_type;
mod routes;
mod taken_key;
mod text;
mod value;

pub use kept_key::KeptKey;
pub use key::TableKey;
pub use octets::are_octets;
pub use route_type::RouteType;
pub use taken_key::TakenKey;
pub use value::{COMM_LIMIT, TableValue, same_attribute, same_comms, same_hop};
