//! Words of a line that stand for one of a few things.
ghost use Rattle.std.specs.Prelude.{◌≡◌};
ghost use Rattle.report_text.specs.report_lines.Words.{line_word, kind_of, packet_word_of, fault_word_of, bare_refusal};

use scenario_defs::{FaultWord, Kind, Refusal};

/// What the first word of a line begins.
#[derive(Clone, Copy)]
pub enum LineWord {
    Out,
    Refused,
    State,
    Halt,
    Put,
    Take,
    Hop,
    Land,
}

#[tactic(auto, unfolding(crate::specs::report_lines::Words::line_word))]
pub fn line_word(text: &[u8]) -> Option<LineWord>
    ensures { result ≡ line_word text.now }
{
    if text == b"out".as_slice() {
        Some(LineWord::Out)
    } else if text == b"refused".as_slice() {
        Some(LineWord::Refused)
    } else if text == b"state".as_slice() {
        Some(LineWord::State)
    } else if text == b"halt".as_slice() {
        Some(LineWord::Halt)
    } else if text == b"put".as_slice() {
        Some(LineWord::Put)
    } else if text == b"take".as_slice() {
        Some(LineWord::Take)
    } else if text == b"hop".as_slice() {
        Some(LineWord::Hop)
    } else if text == b"land".as_slice() {
        Some(LineWord::Land)
    } else {
        None
    }
}

#[tactic(auto, unfolding(crate::specs::report_lines::Words::kind_of))]
pub fn kind_of(text: &[u8]) -> Option<Kind>
    ensures { result ≡ kind_of text.now }
{
    if text == b"bgp".as_slice() {
        Some(Kind::Bgp)
    } else if text == b"ldp".as_slice() {
        Some(Kind::Ldp)
    } else {
        None
    }
}

/// A fault that a packet may have, and no Join/Prune message.
#[tactic(auto, unfolding(crate::specs::report_lines::Words::packet_word_of))]
fn packet_word_of(text: &[u8]) -> Option<FaultWord>
    ensures { result ≡ packet_word_of text.now }
{
    if text == b"header-length".as_slice() {
        Some(FaultWord::HeaderLength)
    } else if text == b"total-length".as_slice() {
        Some(FaultWord::TotalLength)
    } else if text == b"link-local".as_slice() {
        Some(FaultWord::LinkLocal)
    } else {
        None
    }
}

#[tactic(auto, unfolding(crate::specs::report_lines::Words::fault_word_of))]
pub fn fault_word_of(text: &[u8]) -> Option<FaultWord>
    ensures { result ≡ fault_word_of text.now }
{
    if text == b"short".as_slice() {
        Some(FaultWord::Short)
    } else if text == b"version".as_slice() {
        Some(FaultWord::Version)
    } else if text == b"pim-type".as_slice() {
        Some(FaultWord::PimType)
    } else if text == b"checksum".as_slice() {
        Some(FaultWord::Checksum)
    } else if text == b"family".as_slice() {
        Some(FaultWord::Family)
    } else if text == b"encoding".as_slice() {
        Some(FaultWord::Encoding)
    } else if text == b"mask-length".as_slice() {
        Some(FaultWord::MaskLength)
    } else if text == b"flags".as_slice() {
        Some(FaultWord::Flags)
    } else if text == b"not-multicast".as_slice() {
        Some(FaultWord::NotMulticast)
    } else if text == b"trailing".as_slice() {
        Some(FaultWord::Trailing)
    } else {
        packet_word_of(text)
    }
}

/// The reason that is one word.
#[tactic(auto, unfolding(crate::specs::report_lines::Words::bare_refusal))]
pub fn bare_refusal(text: &[u8]) -> Option<Refusal>
    ensures { result ≡ bare_refusal text.now }
{
    if text == b"empty".as_slice() {
        Some(Refusal::Empty)
    } else if text == b"state".as_slice() {
        Some(Refusal::State)
    } else if text == b"place".as_slice() {
        Some(Refusal::Place)
    } else if text == b"full".as_slice() {
        Some(Refusal::Full)
    } else if text == b"ours".as_slice() {
        Some(Refusal::Ours)
    } else {
        None
    }
}
