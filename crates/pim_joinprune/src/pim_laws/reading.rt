//! What reading gives, in the words of the format.
ghost use Rattle.std.specs.Prelude.{◌≡◌, ℕ, List, Ok, Err};
ghost use Rattle.mv_base.specs.Octets.{IsOctets};
ghost use Rattle.pim_joinprune.specs.declared.fault.PimFault.{PimFault};
ghost use Rattle.pim_joinprune.specs.declared.message.JoinPrune.{JoinPrune};
ghost use Rattle.pim_joinprune.specs.Reading.{decoded};
ghost use Rattle.pim_joinprune.specs.Spelling.{Spells};
ghost use Rattle.pim_joinprune.specs.FirstFault.{FirstFault};

/// Reading octets gives exactly the message that they spell, or exactly their first fault (RFC 7761 section 4.9.5). So what
/// is said of a message that was read is said of the one that the octets spell.
pub fn decoding()
    ensures read { (octets : List ℕ) (message : JoinPrune) → IsOctets octets → decoded octets ≡ Ok message → Spells message octets }
    ensures spelled { (octets : List ℕ) (message : JoinPrune) → Spells message octets → decoded octets ≡ Ok message }
    ensures fault { (octets : List ℕ) (place : ℕ) (fault : PimFault) → IsOctets octets →
        decoded octets ≡ Err (place, fault) → FirstFault octets place fault }
    ensures first { (octets : List ℕ) (place : ℕ) (fault : PimFault) → IsOctets octets →
        FirstFault octets place fault → decoded octets ≡ Err (place, fault) }
{}
