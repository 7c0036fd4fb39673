//! Events of sessions: octets are moved, a session is lost, a loss is noticed, a session is raised (RFC 4271 section 8, RFC 5036 section
//! 2.5).
ghost use Rattle.std.specs.Prelude.{◌≡◌, find, [], ◌∷◌, option_copied, if◌then◌else◌};
ghost use Rattle.scenario_defs.specs.declared.event.Event.TheVariants as events;
ghost use Rattle.mvpn_model.specs.Sessions as models;
ghost use Rattle.network_defs.specs.Acts as acts;
ghost use Rattle.network_defs.specs.Counts.{direction};
ghost use Rattle.network_defs.specs.Events.{each, healed, is_session_of, raise_acts, raises, row};
ghost use Rattle.network_defs.specs.World.{scenario_of};
ghost use Rattle.network_acts.specs.wire_laws.Edges.{IsWay};
ghost use Rattle.network_acts.specs.Instant.{IsSome, OfPlane};
ghost use Rattle.network_acts.specs.Words.{IsLost, same_moment};
ghost use Rattle.network_events.specs.Doing.{Does};
ghost use Rattle.network_events.specs.Meeting.{IsGiven, IsReady, IsResting, Meets};
ghost use Rattle.network_events.specs.Parts.{IsRaisable};

use crate::halt::{EventAnswer, Halt, answer_at, met};
use mv_base::NodeId;
use mvpn_model::Session;
use network_acts::{Network, sessions_of};
use network_defs::session_defs::Direction;
use scenario_defs::{Kind, Lines, Refusal};

/// Octets are moved over a session: the first so many in transit, or all where there are fewer.
pub(crate) fn move_octets(
    network: &mut Network,
    over: Direction,
    count: u32,
    lines: &mut Lines,
) -> EventAnswer
    requires network { IsSome IsReady network.old }
    requires event { IsGiven network.old.scenario (events.Move over.kind over.from over.to count) }
    ensures { Meets (events.Move over.kind over.from over.to count) network.old network.new lines.old lines.new result }
{
    if network.transit(over) == 0 || !network.is_joined(over.kind, over.from, over.to) {
        return Ok(Some(Refusal::Empty));
    }
    met(answer_at(over.to, network.move_octets(over, count as usize, lines)))
}

/// A session is lost.
pub(crate) fn lose(
    network: &mut Network,
    kind: Kind,
    a: NodeId,
    b: NodeId,
    lines: &mut Lines,
) -> EventAnswer
    requires network { IsSome IsReady network.old }
    requires event { IsGiven network.old.scenario (events.Lose kind a b) }
    ensures { Meets (events.Lose kind a b) network.old network.new lines.old lines.new result }
{
    if !network.is_joined(kind, a, b) {
        return Ok(Some(Refusal::State));
    }
    network.lose(kind, a, b);
    Ok(None)
}

/// The end of node a of its session with b notices that it was lost.
pub(crate) fn notice(
    network: &mut Network,
    kind: Kind,
    a: NodeId,
    b: NodeId,
    lines: &mut Lines,
) -> EventAnswer
    requires network { IsSome IsReady network.old }
    requires event { IsGiven network.old.scenario (events.Notice kind a b) }
    ensures { Meets (events.Notice kind a b) network.old network.new lines.old lines.new result }
{
    if network.is_joined(kind, a, b) || !network.is_up(kind, a, b) {
        return Ok(Some(Refusal::State));
    }
    met(answer_at(a, network.notice(kind, a, b, lines)))
}

/// Whether the session is that of the two nodes, whichever of them is named first.
fn is_session_of(session: Session, kind: Kind, a: NodeId, b: NodeId) -> bool
    ensures { result ≡ is_session_of kind a b session }
{
    let same_kind = matches!(
        (kind, session.kind),
        (Kind::Bgp, Kind::Bgp) | (Kind::Ldp, Kind::Ldp)
    );
    same_kind
        && ((session.a.0 == a.0 && session.b.0 == b.0)
            || (session.a.0 == b.0 && session.b.0 == a.0))
}

/// The session of the two nodes among these.
fn session_of(sessions: &[Session], kind: Kind, a: NodeId, b: NodeId) -> Option<&Session>
    ensures { option_copied result ≡ find (is_session_of kind a b) sessions.now }
{
    sessions
        .iter()
        .find(|session| is_session_of(**session, kind, a, b))
}

/// The end of the session's first node comes up, and then that of the other one.
fn raise_ends(network: &mut Network, session: Session, lines: &mut Lines) -> Result<(), Halt>
    requires network { IsSome (IsRaisable session.kind session.a session.b) network.old }
    ensures { Does (IsRaisable session.kind session.a session.b) same_moment (row (raise_acts session))
        network.old network.new lines.old lines.new result }
{
    let Session { kind, a, b } = session;
    if let Err(halt) = answer_at(a, network.raise_first(kind, a, b, lines)) {
        return Err(halt);
    }
    answer_at(b, network.raise_second(kind, a, b, lines))
}

/// The session of the two nodes comes up.
fn raise_session(
    network: &mut Network,
    kind: Kind,
    a: NodeId,
    b: NodeId,
    lines: &mut Lines,
) -> Result<(), Halt>
    requires network { IsSome (IsRaisable kind a b) network.old }
    ensures { Does (IsRaisable kind a b) same_moment (λ world. row (raises (models.sessions (scenario_of world)) kind a b) world)
        network.old network.new lines.old lines.new result }
{
    let Ok(sessions) = sessions_of(lines.alloc(), network.scenario()) else {
        return Err(Halt::NoMemory);
    };
    match session_of(sessions.as_slice(), kind, a, b) {
        None => Ok(()),
        Some(session) => raise_ends(network, *session, lines),
    }
}

/// A session is raised: both its ends, which are down, come up.
pub(crate) fn raise(
    network: &mut Network,
    kind: Kind,
    a: NodeId,
    b: NodeId,
    lines: &mut Lines,
) -> EventAnswer
    requires network { IsSome IsReady network.old }
    requires event { IsGiven network.old.scenario (events.Raise kind a b) }
    ensures { Meets (events.Raise kind a b) network.old network.new lines.old lines.new result }
{
    if network.is_up(kind, a, b) || network.is_up(kind, b, a) {
        return Ok(Some(Refusal::State));
    }
    met(raise_session(network, kind, a, b, lines))
}

/// The end of node a notices that its session with b was lost, where it is up.
fn notice_if(
    up: bool,
    network: &mut Network,
    kind: Kind,
    a: NodeId,
    b: NodeId,
    lines: &mut Lines,
) -> Result<(), Halt>
    requires network { IsSome (OfPlane (IsLost kind a b)) network.old }
    ensures { Does (OfPlane (IsLost kind a b)) same_moment (row (if up then acts.Notice kind a b ∷ [] else []))
        network.old network.new lines.old lines.new result }
{
    if !up {
        return Ok(());
    }
    answer_at(a, network.notice(kind, a, b, lines))
}

/// A session that is not joined is raised, when its ends have noticed that.
fn heal_session(network: &mut Network, session: Session, lines: &mut Lines) -> Result<(), Halt>
    requires network { IsSome IsResting network.old }
    requires way { IsWay network.old.scenario (direction session.kind session.a session.b) }
    ensures { Does IsResting same_moment (healed session) network.old network.new lines.old lines.new result }
{
    let Session { kind, a, b } = session;
    if network.is_joined(kind, a, b) {
        return Ok(());
    }
    let first = network.is_up(kind, a, b);
    let second = network.is_up(kind, b, a);
    if let Err(halt) = notice_if(first, network, kind, a, b, lines) {
        return Err(halt);
    }
    if let Err(halt) = notice_if(second, network, kind, b, a, lines) {
        return Err(halt);
    }
    raise_ends(network, session, lines)
}

/// Each of the sessions is healed, which are those of the scenario.
fn heal_all(network: &mut Network, sessions: &[Session], lines: &mut Lines) -> Result<(), Halt>
    requires network { IsSome IsResting network.old }
    requires sessions { sessions.now ≡ models.sessions network.old.scenario }
    ensures { Does IsResting same_moment (each healed sessions.now) network.old network.new lines.old lines.new result }
{
    for session in sessions {
        if let Err(halt) = heal_session(network, *session, lines) {
            return Err(halt);
        }
    }
    Ok(())
}

/// The sessions of the scenario are healed.
fn heal_sessions(network: &mut Network, lines: &mut Lines) -> Result<(), Halt>
    requires network { IsSome IsResting network.old }
    ensures { Does IsResting same_moment (λ world. each healed (models.sessions (scenario_of world)) world)
        network.old network.new lines.old lines.new result }
{
    let Ok(sessions) = sessions_of(lines.alloc(), network.scenario()) else {
        return Err(Halt::NoMemory);
    };
    heal_all(network, sessions.as_slice(), lines)
}

/// Each session that is not joined is raised, when its ends have noticed that.
pub(crate) fn heal(network: &mut Network, lines: &mut Lines) -> EventAnswer
    requires network { IsSome IsReady network.old }
    requires event { IsGiven network.old.scenario events.Heal }
    ensures { Meets events.Heal network.old network.new lines.old lines.new result }
{
    met(heal_sessions(network, lines))
}
