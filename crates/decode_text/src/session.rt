//! The lines of the messages of a session.
ghost use Rattle.std.specs.Prelude.{◌≡◌, [], ◌++◌, IfOk, OnOk};
ghost use Rattle.std.specs.List.{flat_map, AllByRecursion};
ghost use Rattle.mv_base.specs.framing.Feed.{unfed};
ghost use Rattle.decode_text.specs.Formats.{of_bgp, of_ldp};
ghost use Rattle.decode_text.specs.Sessions.{session_of, IsSession, TellsFault, TellsEnd, TellsSession};

use crate::stream::SessionStream;
use crate::telling::Told;
use mv_base::framing::FeedFault;
use mv_base::{Bytes, NoMemory};
use std::alloc::Global;
use value_text::{Lined, Worded, put_refused};

/// Octets that a stream is fed at once. The messages of so many wait together.
const PIECE: usize = 4_096;

/// Appends the lines of the messages that wait, and takes them.
fn put_waiting<S: SessionStream>(text: &mut Bytes, stream: &mut S) -> Result<(), NoMemory>
    requires { AllByRecursion S.Message.IsTellable (S.state stream.old).waiting }
    ensures lines { OnOk result (text.new ≡ text.old ++ flat_map S.Message.lines (S.state stream.old).waiting) }
    ensures taken { OnOk result (S.state stream.new ≡ record (S.state stream.old) { waiting = [] }) }
{
    while let Some(message) = stream.next() {
        message.put_lines(text)?;
    }
    Ok(())
}

/// The text, and after it the line of the first fault.
fn tell_fault<E: Worded + Copy + Drop>(
    mut text: Bytes,
    fault: FeedFault<E>,
) -> Result<Told, NoMemory>
    ensures { IfOk result (λ told. TellsFault E.word fault told.refused text told.text) }
{
    match fault {
        FeedFault::First { place, fault } => {
            let mut word = Bytes::new(text.alloc());
            fault.put_word(&mut word)?;
            put_refused(&mut text, place as usize, word.as_slice())?;
            Ok(Told {
                text,
                refused: true,
            })
        }
        FeedFault::Failed | FeedFault::NoMemory => Err(NoMemory),
    }
}

/// The text, and after it the line of an end inside a unit, if there is one.
fn tell_end(mut text: Bytes, unfinished: Option<u64>) -> Result<Told, NoMemory>
    ensures { IfOk result (λ told. TellsEnd unfinished told.refused text told.text) }
{
    match unfinished {
        None => Ok(Told {
            text,
            refused: false,
        }),
        Some(place) => {
            put_refused(&mut text, place as usize, b"short")?;
            Ok(Told {
                text,
                refused: true,
            })
        }
    }
}

/// The lines of the messages of a stream that is fed the octets piece by piece, and after them that of its first fault
/// or of the end inside a unit.
fn tell_session<S: SessionStream>(
    alloc: Global,
    mut stream: S,
    octets: &[u8],
) -> Result<Told, NoMemory>
    requires session { IsSession S.spells S.faulty S.Message.IsTellable }
    requires fresh { S.state stream ≡ unfed }
    ensures { IfOk result (λ told.
        TellsSession (session_of S.spells S.faulty S.Message.lines S.Fault.word) told.refused octets.now told.text) }
{
    let mut text = Bytes::new(alloc);
    let mut rest = octets;
    while !rest.is_empty() {
        let (piece, thereafter) = rest.split_at(rest.len().min(PIECE));
        let fed = stream.feed(piece);
        put_waiting(&mut text, &mut stream)?;
        if let Err(fault) = fed {
            return tell_fault(text, fault);
        }
        rest = thereafter;
    }
    tell_end(text, stream.unfinished())
}

/// The lines of BGP messages.
#[tactic(auto, using(crate::proofs::MessageLemmas::bgp_session))]
pub fn tell_bgp(alloc: Global, octets: &[u8]) -> Result<Told, NoMemory>
    ensures { IfOk result (λ told. TellsSession of_bgp told.refused octets.now told.text) }
{
    tell_session(alloc, bgp_messages::bgp_update::Stream::of(alloc), octets)
}

/// The lines of the label messages in PDUs of LDP.
#[tactic(auto, using(crate::proofs::MessageLemmas::ldp_session))]
pub fn tell_ldp(alloc: Global, octets: &[u8]) -> Result<Told, NoMemory>
    ensures { IfOk result (λ told. TellsSession of_ldp told.refused octets.now told.text) }
{
    tell_session(alloc, mldp::mldp_msgs::Stream::of(alloc), octets)
}
