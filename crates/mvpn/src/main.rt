//! The program: the words after its name and the standard streams come in, and the status goes out. `main` makes a
//! source over standard input and a sink over standard output, calls `run` of `mvpn_tool`, closes the world that a
//! replay hands back, and ends with the status; where the words cannot be had, the status is 6. All that is promised is
//! the contract of `run`, in `mvpn_tool/specs/Runs.antt`. `stdin`, `args` and `stdout` beside `src` are its stored run,
//! which the gate repeats. Below it are `mv_io`, for the standard streams, and `mvpn_tool`; above it is nothing.
#![tactic(auto)]

use mv_io::{StdSink, StdSource};
use mvpn_tool::{End, run};
use std::alloc::Global;
use std::env::FillError;
use std::io;
use std::process::ExitCode;
use std::rt::Env;

/// The octets of the word at that place, or none after the last word. The program's name is at place 0.
fn octets_at(rt: &(impl Env + AllocGlobal), place: usize) -> io::Result<Option<Vec<u8>>> {
    let mut octets = Vec::new(rt.alloc());
    let mut room: usize = 256;
    for _ in 0..usize::BITS {
        octets.resize(room, 0)?;
        match rt.arg(place, octets.as_mut_slice()) {
            Ok(count) => {
                octets.truncate(count);
                return Ok(Some(octets));
            }
            Err(FillError::NotPresent) => return Ok(None),
            Err(FillError::TooLong) => room = room.saturating_mul(2),
        }
    }
    Err(io::Error::from(io::ErrorKind::OutOfMemory))
}

/// The word of these octets. Where they are not UTF-8 it is `?`, which is a word of no form.
fn word_of(alloc: Global, octets: Vec<u8>) -> io::Result<String> {
    match String::from_utf8(octets) {
        Ok(word) => Ok(word),
        Err(_) => Ok(String::from_str(alloc, "?")?),
    }
}

/// The words after the program's name.
fn words(rt: &(impl Env + AllocGlobal)) -> io::Result<Vec<String>> {
    let mut words = Vec::new(rt.alloc());
    for place in 1..usize::MAX {
        match octets_at(rt, place)? {
            None => break,
            Some(octets) => words.push(word_of(rt.alloc(), octets)?)?,
        }
    }
    Ok(words)
}

fn main(rt: HostRuntime) -> ExitCode {
    let Ok(words) = words(&rt) else {
        return ExitCode::from(6);
    };
    let mut source = StdSource::new(rt.reader());
    let mut sink = StdSink::new(io::writer(&rt));
    let End { status, world } = run(rt.alloc(), &words, &mut source, &mut sink);
    if let Some(world) = world {
        world.close();
    }
    ExitCode::from(status)
}
