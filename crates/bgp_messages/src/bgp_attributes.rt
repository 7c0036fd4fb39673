//! The values of BGP UPDATE messages (RFC 4271 section 4.3), and the path attributes that carry them.

mod attribute;
mod family;
mod fault;
mod found;
mod key;
mod nlri;
mod reading;
mod update;
mod value;
mod vpn;

pub use attribute::{Attribute, Reachable};
pub use family::Family;
pub use fault::{AttributesFault, StreamFault};
pub use key::{Key, Keys};
pub use reading::read_update;
pub use update::{Advert, Adverts, Change, Comms, Message, Update};
