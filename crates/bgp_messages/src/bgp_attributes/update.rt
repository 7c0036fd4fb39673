//! What UPDATE messages say.
use crate::bgp_attributes::key::{Key, Keys};
use bgp_values::pmsi_attr::Pmsi;
use mv_base::route_targets::ExtComm;
use mv_base::{Addr, Seq};

/// Extended communities in the order of the wire (RFC 4360).
pub type Comms = Seq<ExtComm>;

/// A route that is announced, with what its path attributes say of it.
#[derive(Drop)]
pub struct Advert {
    pub key: Key,
    pub next_hop: Addr,
    pub comms: Comms,
    /// The value of the PMSI Tunnel attribute (RFC 6514 section 5), where there is one.
    pub pmsi: Option<Pmsi>,
}

/// Adverts in the order of the wire.
pub type Adverts = Seq<Advert>;

/// What an UPDATE message announces and withdraws, of the address families that are read.
#[derive(Drop)]
pub struct Update {
    pub reach: Adverts,
    pub unreach: Keys,
}

/// A message of a stream.
#[derive(Drop)]
pub enum Message {
    Update(Update),
    /// A message that is passed over unread, by its type: 1 OPEN, 3 NOTIFICATION, 4 KEEPALIVE, 5 ROUTE-REFRESH.
    Other(u8),
}

/// One change that an UPDATE message makes.
#[derive(Drop)]
pub enum Change {
    Reach(Advert),
    Unreach(Key),
}
