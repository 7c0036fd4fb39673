//! The first words of events.
ghost use Rattle.std.specs.Prelude.{◌≡◌};
ghost use Rattle.scenario_text.specs.event_lines.EventGrammar.{bare_event, event_word};

use crate::event_lines::clock_lines::NodeWord;
use crate::event_lines::flow_lines::FlowWord;
use crate::event_lines::join_lines::EntryWord;
use crate::event_lines::link_lines::LinkWord;
use crate::event_lines::select_lines::SelectWord;
use crate::event_lines::session_lines::SessionWord;
use scenario_defs::Event;
use scenario_lines::meaning_of;

/// The events whose line is one word.
#[derive(Clone, Copy)]
pub enum BareWord {
    Heal,
    Settle,
    Drain,
    State,
}

/// What the first word of a line begins.
#[derive(Clone, Copy)]
pub enum EventWord {
    Tick,
    Move,
    Pim,
    Packet,
    Send,
    Node(NodeWord),
    Session(SessionWord),
    Link(LinkWord),
    Entry(EntryWord),
    Flow(FlowWord),
    Select(SelectWord),
    Bare(BareWord),
}

/// The first words, and what each begins.
const WORDS: [(&[u8], EventWord); 23] = [
    (b"tick", EventWord::Tick),
    (b"move", EventWord::Move),
    (b"pim", EventWord::Pim),
    (b"packet", EventWord::Packet),
    (b"send", EventWord::Send),
    (b"timers", EventWord::Node(NodeWord::Timers)),
    (b"restart", EventWord::Node(NodeWord::Restart)),
    (b"lose", EventWord::Session(SessionWord::Lose)),
    (b"notice", EventWord::Session(SessionWord::Notice)),
    (b"raise", EventWord::Session(SessionWord::Raise)),
    (b"hop", EventWord::Link(LinkWord::Hop)),
    (b"drop", EventWord::Link(LinkWord::Drop)),
    (b"cost", EventWord::Link(LinkWord::Cost)),
    (b"join", EventWord::Entry(EntryWord::Join)),
    (b"prune", EventWord::Entry(EntryWord::Prune)),
    (b"active", EventWord::Flow(FlowWord::Active)),
    (b"idle", EventWord::Flow(FlowWord::Idle)),
    (b"select", EventWord::Select(SelectWord::Select)),
    (b"unselect", EventWord::Select(SelectWord::Unselect)),
    (b"heal", EventWord::Bare(BareWord::Heal)),
    (b"settle", EventWord::Bare(BareWord::Settle)),
    (b"drain", EventWord::Bare(BareWord::Drain)),
    (b"state", EventWord::Bare(BareWord::State)),
];

pub fn bare_event(word: BareWord) -> Event
    ensures { result ≡ bare_event word }
{
    match word {
        BareWord::Heal => Event::Heal,
        BareWord::Settle => Event::Settle,
        BareWord::Drain => Event::Drain,
        BareWord::State => Event::State,
    }
}

/// What a first word begins.
#[tactic(auto, unfolding(crate::specs::event_lines::EventGrammar::event_word))]
pub fn event_word(text: &[u8]) -> Option<EventWord>
    ensures { result ≡ event_word text.now }
{
    meaning_of(text, &WORDS)
}
