//! Whether octets are the same. Those of a fixed number are compared as numbers: octet by octet takes several times as long.
ghost use Rattle.std.specs.Prelude.{◌≡◌, nat_eq};
ghost use Rattle.std.specs.Cmp.Lexicographic.{pointwise};

/// Whether both are the same four octets.
pub(crate) fn same_four(own: [u8; 4], other: [u8; 4]) -> bool
    ensures { result ≡ pointwise nat_eq own other }
{
    u32::from_be_bytes(own) == u32::from_be_bytes(other)
}

/// Whether both are the same eight octets.
pub(crate) fn same_eight(own: [u8; 8], other: [u8; 8]) -> bool
    ensures { result ≡ pointwise nat_eq own other }
{
    u64::from_be_bytes(own) == u64::from_be_bytes(other)
}

/// Whether both are the same octets.
pub(crate) fn same_octets(own: &[u8], other: &[u8]) -> bool
    ensures { result ≡ pointwise nat_eq own.now other.now }
{
    let mut own = own;
    let mut other = other;
    while let ([first, rest @ ..], [other_first, other_rest @ ..]) = (own, other) {
        if first != other_first {
            return false;
        }
        own = rest;
        other = other_rest;
    }
    own.is_empty() && other.is_empty()
}
