//! Laws of the format.
ghost use Rattle.std.specs.Prelude.{◌≡◌, ◌<◌, ◌^◌, ◌++◌, List, [], ◌∷◌, ℕ, None, length};
ghost use Rattle.std.specs.List.{flat_map};
ghost use Rattle.mv_base.specs.framing.Feed.{fed, fed_all, unfed};
ghost use Rattle.mv_base.specs.Octets.{IsOctets};
ghost use Rattle.mv_base.specs.declared.addr.Addr.{Addr};
ghost use Rattle.mldp.specs.mldp_msgs.Reading.{pdu_front};
ghost use Rattle.mldp.specs.mldp_msgs.Spelling.{SpellsPdu, IsWritable, IsRouter, written};
ghost use Rattle.mldp.specs.declared.mldp_msgs.message.LabelMessage.{LabelMessage};

/// However the octets are cut into pieces, the messages are the same, and so are the fault and what is held back.
pub fn any_cut()
    ensures { (ps qs : List (List ℕ)) →
        IsOctets (flat_map (λ p. p) ps) → flat_map (λ p. p) ps ≡ flat_map (λ p. p) qs →
        fed_all pdu_front unfed ps ≡ fed_all pdu_front unfed qs }
{}

/// No spelling of a PDU begins another, and each is that of one list of messages.
pub fn one_spelling()
    ensures { (ms ns : List LabelMessage) (text other x y : List ℕ) →
        SpellsPdu ms text → SpellsPdu ns other → text ++ x ≡ other ++ y →
        (text ≡ other) × (ms ≡ ns) }
{}

/// What is written spells a PDU with the message alone, and a fresh stream that is fed it has just this message waiting.
pub fn reads_back()
    ensures spelled { (me : Addr) (id : ℕ) (m : LabelMessage) → IsWritable m → IsRouter me → SpellsPdu (m ∷ []) (written me id m) }
    ensures waits { (me : Addr) (id : ℕ) (m : LabelMessage) → IsWritable m → IsRouter me →
        fed pdu_front unfed (written me id m) ≡ record {
          waiting = m ∷ [];
          held = [];
          before = length (written me id m);
          fault = None;
        } }
{}
