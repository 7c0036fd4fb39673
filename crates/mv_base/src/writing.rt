//! Writing octets into a slice.
ghost use Rattle.std.specs.Prelude.{◌≡◌, ◌≤◌, ◌+◌, length};
ghost use Rattle.mv_base.specs.Writing.{put_at};

/// Writes octets at a place, and answers the place after them.
#[tactic(auto, unfolding(crate::specs::Writing::put_at))]
pub fn put(out: &mut [u8], place: usize, octets: &[u8]) -> usize
    requires { place + length octets.now ≤ length out.old }
    ensures place { result ≡ place + length octets.now }
    ensures octets { out.new ≡ put_at out.old place octets.now }
{
    let end = place + octets.len();
    out[place..end].copy_from_slice(octets);
    end
}
