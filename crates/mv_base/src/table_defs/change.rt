//! A change of a table of routes.

/// A change of a table that holds at most one route for each key (RFC 4271 section 3.1).
#[derive(Clone, Copy, Debug, PartialEq, Eq, Drop)]
pub enum Change<K, V> {
    /// An advertisement: the key's route has this value, in place of whatever route it had.
    Reach(K, V),
    /// A withdrawal: the key has no route.
    Unreach(K),
}
