//! Label messages of LDP, and their lines.
ghost use Rattle.std.specs.Prelude.{◌≡◌, ◌++◌, OnOk};
ghost use Rattle.value_text.specs.MessageText.{label_line};

use crate::fec_lines::{fec_word, put_fec};
use crate::lined::{Lined, Worded};
use mldp::mldp_fec::Fec;
use mldp::mldp_msgs::{LabelMessage, LdpFault};
use mv_base::{Bytes, NoMemory};
use report_text::put_then;

fn put_label_line(out: &mut Bytes, word: &[u8], label: u32, fec: &Fec) -> Result<(), NoMemory>
    ensures { OnOk result (out.new ≡ out.old ++ label_line word.now label fec.now) }
{
    put_then(out, word, u64::from(label))?;
    out.extend(b" ")?;
    put_fec(out, fec)?;
    out.extend(b"\n")
}

impl Lined for LabelMessage {
    ghost use Rattle.std.specs.Prelude.{⊤};
    ghost use Rattle.value_text.specs.MessageText.{label_message_line};

    ghost lines = { label_message_line };

    ghost IsTellable = { λ m. ⊤ };

    fn put_lines(&self, out: &mut Bytes) -> Result<(), NoMemory> {
        match self {
            LabelMessage::Mapping(fec, label) => put_label_line(out, b"mapping ", *label, fec),
            LabelMessage::Withdraw(fec, label) => put_label_line(out, b"withdraw ", *label, fec),
            LabelMessage::Release(fec, label) => put_label_line(out, b"release ", *label, fec),
            LabelMessage::Ignored(kind) => {
                put_then(out, b"ignored ", u64::from(*kind))?;
                out.extend(b"\n")
            }
        }
    }
}

impl Worded for LdpFault {
    ghost use Rattle.value_text.specs.MessageText.{ldp_word};

    ghost word = { ldp_word };

    fn put_word(&self, out: &mut Bytes) -> Result<(), NoMemory> {
        match self {
            LdpFault::Version => out.extend(b"version"),
            LdpFault::PduLength => out.extend(b"pdu-length"),
            LdpFault::MessageLength => out.extend(b"message-length"),
            LdpFault::TlvLength => out.extend(b"tlv-length"),
            LdpFault::UnknownTlv => out.extend(b"unknown-tlv"),
            LdpFault::MissingTlv => out.extend(b"missing-tlv"),
            LdpFault::Label => out.extend(b"label"),
            LdpFault::Fec(reason) => {
                out.extend(b"fec.")?;
                out.extend(fec_word(*reason))
            }
        }
    }
}
