//! Where the datagrams of an edge's customers leave, and the tunnels on which they are transmitted (RFC 6513 sections 9.1.1 and 12).

mod egress;
mod fate;
mod imported;
mod ingress;
mod nodes;

pub use egress::leaving;
pub use fate::Entering;
pub use imported::imports;
pub use ingress::entering;
pub use nodes::root_of;
