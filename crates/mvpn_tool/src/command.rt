//! The words of commands.
ghost use Rattle.std.specs.Prelude.{◌≡◌, map, string_bytes};
ghost use Rattle.mvpn_tool.specs.Commands.{command_alone, command_of, command_with, detail_of, format_of, made_number_of};

use decode_text::Format;
use mv_base::read_number;

/// How much of a report `replay` writes.
#[derive(Clone, Copy, PartialEq, Eq)]
pub enum Detail {
    /// All but the lines of the wire.
    Plain,
    /// All, with `--wire`.
    Wire,
}

/// What a replay writes.
#[derive(Clone, Copy, PartialEq, Eq)]
pub enum Output {
    /// The lines of the report.
    Report(Detail),
    /// A file of the report's hops.
    Hops,
}

/// A command.
#[derive(Clone, Copy, PartialEq, Eq)]
pub enum Command {
    /// `replay`, with or without `--wire`
    Replay(Detail),
    /// `decode` and the word of a format
    Decode(Format),
    /// `make` and the number of a network, 1 to 1,000,000
    Make(u32),
    /// `sweep` and the number of a network, 1 to 1,000,000
    Sweep(u32),
    /// `audit`
    Audit,
    /// `hops`
    Hops,
    /// `ingress`
    Ingress,
    /// `probe`
    Probe,
    /// `pcap`
    Pcap,
}

/// The detail that a word after `replay` asks for.
fn detail_of(word: &str) -> Option<Detail>
    ensures { result ≡ detail_of word.now }
{
    match word {
        "--wire" => Some(Detail::Wire),
        _ => None,
    }
}

/// The format of a word.
fn format_of(word: &str) -> Option<Format>
    ensures { result ≡ format_of word.now }
{
    match word {
        "nlri" => Some(Format::Nlri),
        "pmsi" => Some(Format::Pmsi),
        "fec" => Some(Format::Fec),
        "bgp" => Some(Format::Bgp),
        "ldp" => Some(Format::Ldp),
        "pim" => Some(Format::Pim),
        _ => None,
    }
}

/// The number of a made network that a word writes.
#[tactic(auto, unfolding(crate::specs::Commands::made_number_of))]
fn made_number_of(word: &str) -> Option<u32>
    ensures { result ≡ made_number_of word.now }
{
    let number = read_number(word.as_bytes())?;
    if number >= 1 && number <= 1000000 {
        Some(number as u32)
    } else {
        None
    }
}

/// The command of two words.
fn command_with(word: &str, kind: &str) -> Option<Command>
    ensures { result ≡ command_with word.now kind.now }
{
    match word {
        "replay" => detail_of(kind).map(Command::Replay),
        "decode" => format_of(kind).map(Command::Decode),
        "make" => made_number_of(kind).map(Command::Make),
        "sweep" => made_number_of(kind).map(Command::Sweep),
        _ => None,
    }
}

/// The command of one word.
fn command_alone(word: &str) -> Option<Command>
    ensures { result ≡ command_alone word.now }
{
    match word {
        "replay" => Some(Command::Replay(Detail::Plain)),
        "audit" => Some(Command::Audit),
        "ingress" => Some(Command::Ingress),
        "hops" => Some(Command::Hops),
        "probe" => Some(Command::Probe),
        "pcap" => Some(Command::Pcap),
        _ => None,
    }
}

/// The command that the words name.
pub fn command_of(words: &[String]) -> Option<Command>
    ensures { result ≡ command_of (map string_bytes words.now) }
{
    match words {
        [word] => command_alone(word.as_str()),
        [word, kind] => command_with(word.as_str(), kind.as_str()),
        _ => None,
    }
}
