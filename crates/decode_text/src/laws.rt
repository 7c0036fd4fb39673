//! What a text in hexadecimal writes, and what its first fault is, with no order of reading.
ghost use Rattle.std.specs.Prelude.{◌≡◌, ◌↔◌, List, ℕ, Ok, Err};
ghost use Rattle.line_words.specs.declared.fault.TextFault.{TextFault};
ghost use Rattle.decode_text.specs.HexText.{octets_of};
ghost use Rattle.decode_text.specs.HexLaws.{IsHexText, Writes, FirstFault};

/// A text of digits and white space that is not too long and has an even number of digits writes octets, two digits
/// for each. Any other text has a first fault, and that one is told.
pub fn octets_written()
    ensures even { (text : List ℕ) → IsHexText text → (octets : List ℕ) × Writes text octets }
    ensures octets { (text octets : List ℕ) → octets_of text ≡ Ok octets ↔ Writes text octets }
    ensures fault { (text : List ℕ) (fault : TextFault) → octets_of text ≡ Err fault ↔ FirstFault text fault }
{}
