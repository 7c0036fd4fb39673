//! Ends of sessions.

/// The end of an LDP session that is up.
#[derive(Clone, Copy, PartialEq, Eq)]
pub struct End {
    /// The clock at which it came up.
    pub raised: u64,
    /// Whether its hold was run: no copy that was put before the raise is on the link any more.
    pub held: bool,
    /// The id of the next message to the neighbour (RFC 5036 section 3.5).
    pub next: u32,
}
