//! Laws of messages and of what is written.
ghost use Rattle.std.specs.Prelude.{◌≡◌, ◌≤◌, [], ◌∷◌, ◌++◌, ℕ, List, length, None};
ghost use Rattle.std.specs.List.{flat_map};
ghost use Rattle.mv_base.specs.Octets.{IsOctets};
ghost use Rattle.mv_base.specs.framing.Feed.{fed, fed_all, unfed};
ghost use Rattle.bgp_messages.specs.bgp_update.Reading.{message_front};
ghost use Rattle.bgp_messages.specs.bgp_update.Spelling.{SpellsMessage};
ghost use Rattle.bgp_messages.specs.bgp_update.Table.{key_of};
ghost use Rattle.bgp_messages.specs.bgp_update.Written.{written, update_of, IsWritable, HasOctets};

use crate::bgp_attributes::{Change, Message};

/// However the octets are cut into pieces, the messages are the same, and so are the fault and what is held back.
pub fn any_cut()
    ensures { (ps qs : List (List ℕ)) →
        IsOctets (flat_map (λ p. p) ps) → flat_map (λ p. p) ps ≡ flat_map (λ p. p) qs →
        fed_all message_front unfed ps ≡ fed_all message_front unfed qs }
{}

/// No spelling of a message begins another's.
pub fn one_spelling()
    ensures { (ms ns : List Message) (text other x y : List ℕ) →
        SpellsMessage ms text → SpellsMessage ns other → text ++ x ≡ other ++ y →
        (text ≡ other) × (ms ≡ ns) }
{}

/// A change that is written spells the UPDATE that makes it, and a fresh stream that is fed it has just that message.
pub fn reads_back()
    ensures spelled { (change : Change) → IsWritable change → HasOctets (key_of change) → length (written change) ≤ 4096 →
        SpellsMessage (Message.Update (update_of change) ∷ []) (written change) }
    ensures fed { (change : Change) → IsWritable change → HasOctets (key_of change) → length (written change) ≤ 4096 →
        fed message_front unfed (written change) ≡ record {
          waiting = Message.Update (update_of change) ∷ [];
          held = [];
          before = length (written change);
          fault = None;
        } }
{}
