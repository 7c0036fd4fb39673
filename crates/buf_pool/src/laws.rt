//! What each change of the buffers leaves of each one.
ghost use Rattle.std.specs.Prelude.{◌≡◌, ◌≢◌, ◌<◌, ◌+◌, ◌-◌, ℕ, None, Some};
ghost use Rattle.std.specs.FinMap.{get};
ghost use Rattle.buf_pool.specs.Held.{Held, held, Buffers, shared, given_back};

/// `share` and `give_back` change the count of one buffer. It ends exactly where its count was 1, and every other one is as
/// before.
pub fn each_buffer()
    ensures shared { (m : Buffers) (name more : ℕ) (h : Held) → get m name ≡ Some h →
        get (shared m name more) name ≡ Some (held h.octets (h.count + more)) }
    ensures fewer { (m : Buffers) (name : ℕ) (h : Held) → get m name ≡ Some h → 1 < h.count →
        get (given_back m name) name ≡ Some (held h.octets (h.count - 1)) }
    ensures ended { (m : Buffers) (name : ℕ) (h : Held) → get m name ≡ Some h → h.count ≡ 1 → get (given_back m name) name ≡ None }
    ensures others_shared { (m : Buffers) (name more other : ℕ) → other ≢ name → get (shared m name more) other ≡ get m other }
    ensures others_given_back { (m : Buffers) (name other : ℕ) → other ≢ name → get (given_back m name) other ≡ get m other }
{}
