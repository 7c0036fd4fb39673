//! The octets that sources and sinks in memory hold.
ghost use Rattle.std.specs.Prelude.{◌≡◌, ◌≤◌, ◌+◌, ◌++◌, ◌↔◌, ⊤, Ok, length, take, min, vec_capacity, vec_len, MatchBool, IsTrue};
ghost use Rattle.std.specs.Io.{ReadsAtMost};
ghost use Rattle.std.specs.Io.KnownBytes.{ReadConsumes};
ghost use Rattle.mv_io.specs.Kinds.{left_after};

/// Copies as much as fits of the rest into the buffer, and answers how much that was.
fn copy_front(rest: &[u8], buf: &mut [u8]) -> usize
    ensures count { result ≡ min (length rest.now) (length buf.old) }
    ensures octets { take result buf.new ≡ take result rest.now }
{
    let count = rest.len().min(buf.len());
    buf[..count].copy_from_slice(&rest[..count]);
    count
}

/// Copies as much as fits of what stands after the place into the buffer, and answers how much that was.
pub(crate) fn give(octets: &[u8], at: usize, buf: &mut [u8]) -> usize
    requires { at ≤ length octets.now }
    ensures bound { ReadsAtMost {E = ⊤} (Ok result) buf.new }
    ensures within { at + result ≤ length octets.now }
    ensures octets { ReadConsumes {E = ⊤} (left_after octets.now at) (left_after octets.now (at + result)) (Ok result) buf.new }
{
    copy_front(&octets[at..], buf)
}

/// Appends the piece where it fits into the room that was made, and answers whether it did.
pub(crate) fn keep(held: &mut Vec<u8>, room: usize, piece: &[u8]) -> bool
    requires holds { vec_len held.old ≤ room }
    requires made { room ≤ vec_capacity held.old }
    ensures holds { vec_len held.new ≤ room }
    ensures made { room ≤ vec_capacity held.new }
    ensures kept { IsTrue result ↔ (vec_len held.old + length piece.now ≤ room) }
    ensures octets { MatchBool result (held.new.items ≡ held.old.items ++ piece.now) (held.new.items ≡ held.old.items) }
{
    if piece.len() > room - held.len() {
        return false;
    }
    held.extend_from_slice(piece).unwrap();
    true
}
