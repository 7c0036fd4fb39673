//! The lines that are told.
ghost use Rattle.std.specs.Prelude.{◌≡◌, ◌++◌, List, ℕ, map, OnOk};
ghost use Rattle.std.specs.List.{flat_map};
ghost use Rattle.ingress_text.specs.Telling.{answer_line, copy_line, dotted, dotted_more, fault_line};
ghost use Rattle.value_text.specs.MessageText.{bgp_word};

use bgp_messages::bgp_update::StreamFault;
use ingress_rep::LeafCopy;
use mv_base::{Bytes, NoMemory};
use report_text::{put_digits, put_number};
use value_text::Worded;

fn put_after_dots(out: &mut Bytes, octets: &[u8]) -> Result<(), NoMemory>
    ensures { OnOk result (out.new ≡ out.old ++ flat_map dotted_more octets.now) }
{
    for octet in octets {
        out.extend(b".")?;
        put_number(out, u64::from(*octet))?;
    }
    Ok(())
}

/// Appends octets in decimal, with dots between them.
fn put_dotted(out: &mut Bytes, octets: &[u8]) -> Result<(), NoMemory>
    ensures { OnOk result (out.new ≡ out.old ++ dotted octets.now) }
{
    match octets {
        [] => Ok(()),
        [first, rest @ ..] => {
            put_number(out, u64::from(*first))?;
            put_after_dots(out, rest)
        }
    }
}

/// Appends the line of a leaf's answer.
pub(crate) fn put_answer(out: &mut Bytes, leaf: [u8; 4], octets: &[u8]) -> Result<(), NoMemory>
    ensures { OnOk result (out.new ≡ out.old ++ answer_line leaf octets.now) }
{
    out.extend(b"answer ")?;
    put_dotted(out, &leaf)?;
    out.extend(b" ")?;
    put_digits(out, octets)?;
    out.extend(b"\n")
}

/// Appends the line of the first fault of a peer.
pub(crate) fn put_fault(
    out: &mut Bytes,
    number: u32,
    place: u64,
    fault: StreamFault,
) -> Result<(), NoMemory>
    ensures { OnOk result (out.new ≡ out.old ++ fault_line number place (bgp_word fault)) }
{
    out.extend(b"refused ")?;
    put_number(out, u64::from(number))?;
    out.extend(b" ")?;
    put_number(out, place)?;
    out.extend(b" ")?;
    fault.put_word(out)?;
    out.extend(b"\n")
}

fn put_copy(out: &mut Bytes, copy: &LeafCopy) -> Result<(), NoMemory>
    ensures { OnOk result (out.new ≡ out.old ++ copy_line copy.now) }
{
    out.extend(b"copy ")?;
    put_dotted(out, copy.leaf.octets())?;
    out.extend(b" ")?;
    put_number(out, u64::from(copy.label))?;
    out.extend(b"\n")
}

/// Appends the lines of the copies.
pub(crate) fn put_copies(out: &mut Bytes, copies: &[LeafCopy]) -> Result<(), NoMemory>
    ensures { OnOk result (out.new ≡ out.old ++ flat_map copy_line copies.now) }
{
    for copy in copies {
        put_copy(out, copy)?;
    }
    Ok(())
}
