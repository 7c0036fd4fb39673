//! FEC elements.
use mv_base::{Addr, Inline};

/// What a multipoint FEC element stands for.
#[derive(Clone, Copy, PartialEq, Eq, Hash)]
pub enum FecKind {
    /// A point-to-multipoint LSP (RFC 6388 section 2.2).
    P2mp,
    /// A multipoint-to-multipoint LSP, towards its root (RFC 6388 section 3.2).
    Up,
    /// A multipoint-to-multipoint LSP, away from its root (RFC 6388 section 3.2).
    Down,
}

/// An opaque value. 64 octets are this project's limit.
pub type Opaque = Inline<64>;

/// A multipoint FEC element.
#[derive(Clone, Copy, PartialEq, Eq, Hash)]
pub struct Fec {
    pub kind: FecKind,
    pub root: Addr,
    pub opaque: Opaque,
}
