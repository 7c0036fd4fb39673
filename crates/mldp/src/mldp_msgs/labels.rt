//! The labels that a session's messages leave mapped.
ghost use Rattle.std.specs.Prelude.{◌≡◌, ◌↔◌, IsTrue};
ghost use Rattle.mldp.specs.mldp_msgs.Labels.{IsMapped, MappedBy};

use crate::mldp_fec::Fec;
use crate::mldp_msgs::message::LabelMessage;

/// Whether a message is about this FEC and this label.
fn is_about(own: &Fec, number: u32, fec: &Fec, label: u32) -> bool
    ensures { IsTrue result ↔ ((own.now ≡ fec.now) × (number ≡ label)) }
{
    own == fec && number == label
}

/// Whether the label is mapped to the FEC after this message, given whether it was before.
fn mapped_by(message: &LabelMessage, fec: &Fec, label: u32, before: bool) -> bool
    ensures { MappedBy message.now fec.now label before result }
{
    match message {
        LabelMessage::Mapping(own, number) => before || is_about(own, *number, fec, label),
        LabelMessage::Withdraw(own, number) => before && !is_about(own, *number, fec, label),
        LabelMessage::Release(_, _) => before,
        LabelMessage::Ignored(_) => before,
    }
}

/// Whether the label is mapped to the FEC after these messages.
pub fn is_mapped(messages: &[LabelMessage], fec: &Fec, label: u32) -> bool
    ensures { IsTrue result ↔ IsMapped messages.now fec.now label }
{
    let mut mapped = false;
    'messages: for message in messages {
        mapped = mapped_by(message, fec, label, mapped);
    }
    mapped
}
