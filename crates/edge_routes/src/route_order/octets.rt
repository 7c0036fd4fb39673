//! Octets are octets.
ghost use Rattle.mv_base.specs.Octets.{IsOctets};

/// Shows that these are octets. It does nothing.
pub fn are_octets(octets: &[u8])
    ensures { IsOctets octets.now }
{}
