//! How many sessions are not ready after events.
ghost use Rattle.std.specs.Prelude.{◌≡◌, ◌==◌, ◌&&◌, ◌||◌, ◌+◌, ◌<◌, ◌≤◌, ◌^◌, not, length, drop, map, if◌then◌else◌};
ghost use Rattle.scenario_defs.specs.declared.event.Kind.TheVariants as kinds;
ghost use Rattle.std.specs.List.{fold};
ghost use Rattle.scenario_defs.specs.Rules.{Rules};
ghost use Rattle.scenario_defs.specs.Kinds.{same_kind};
ghost use Rattle.mvpn_model.specs.Past.{past_of, ticks_of, ticks_in};
ghost use Rattle.mvpn_model.specs.Sessions.{edges_from, bgp_session, bgp_sessions, ldp_session};
ghost use Rattle.label_forwarding.specs.label_defs.Between.{is_between};
ghost use Rattle.mvpn_model.specs.Unready.{hold_run, is_that, is_held, unready_after};
ghost use Rattle.mvpn_model.specs.OneSession.{timed_end, noticed_end, raised_one, noticed_one, restarted_one, thereafter_one};
ghost use Rattle.mvpn_model.specs.OneSession.{after_one, none_stands, is_ready_one, unready_among};

use crate::history::{History, events_of};
use crate::session::Session;
use crate::standing::{is_accepted, ticks_of};
use mv_base::{Link, NodeId};
use scenario_defs::{Event, Kind, Node, Timed};

/// An end of a session that is up: since when, and whether its hold was run.
#[derive(Clone, Copy)]
pub struct UpEnd {
    pub raised: u64,
    pub held: bool,
}

/// Where a session stands: the clock, whether it is joined, and its two ends where they are up.
#[derive(Clone, Copy)]
pub(crate) struct SessionStands {
    pub clock: u64,
    pub joined: bool,
    /// The end of the session's first node, and that of its second.
    pub near: Option<UpEnd>,
    pub far: Option<UpEnd>,
}

/// A session that is followed through events.
#[derive(Clone, Copy)]
struct Following<'a> {
    session: Session,
    /// How many ticks a copy may be on a link.
    life: u64,
    refused: &'a [u32],
}

fn same_kind(a: Kind, b: Kind) -> bool
    ensures { result ≡ same_kind a b }
{
    matches!((a, b), (Kind::Bgp, Kind::Bgp) | (Kind::Ldp, Kind::Ldp))
}

/// Whether both are these two nodes, either way round.
fn is_between(a: NodeId, b: NodeId, u: NodeId, n: NodeId) -> bool
    ensures { result ≡ is_between a b u n }
{
    (u.0 == a.0 && n.0 == b.0) || (u.0 == b.0 && n.0 == a.0)
}

/// Whether the session is that of the two nodes.
fn is_that(session: Session, kind: Kind, a: NodeId, b: NodeId) -> bool
    ensures { result ≡ is_that kind a b session.kind session.a session.b }
{
    same_kind(kind, session.kind) && is_between(a, b, session.a, session.b)
}

/// Whether the end of the session between the nodes, in this order, is the one that notices.
fn is_end(
    session: Session,
    from: NodeId,
    to: NodeId,
    kind: Kind,
    node: NodeId,
    peer: NodeId,
) -> bool
    ensures { result ≡ (same_kind kind session.kind && (from.0 == node.0) && (to.0 == peer.0)) }
{
    same_kind(kind, session.kind) && from.0 == node.0 && to.0 == peer.0
}

/// The end after a run of its node's timers: its hold is run where it is due.
fn hold_run(life: u64, clock: u64, end: UpEnd) -> UpEnd
    ensures { result ≡ hold_run life clock end }
{
    UpEnd {
        raised: end.raised,
        held: end.held || clock.saturating_sub(end.raised) > life,
    }
}

fn timed_end(life: u64, runs: bool, clock: u64, old: Option<UpEnd>) -> Option<UpEnd>
    ensures { result ≡ timed_end life runs clock old }
{
    match old {
        None => None,
        Some(end) if runs => Some(hold_run(life, clock, end)),
        Some(end) => Some(end),
    }
}

fn noticed_end(notices: bool, old: Option<UpEnd>) -> Option<UpEnd>
    ensures { result ≡ noticed_end notices old }
{
    if notices { None } else { old }
}

/// The session after a raise of itself, where there is one.
fn raised_where(raises: bool, old: SessionStands) -> SessionStands
    ensures { result ≡ (if raises then raised_one old else old) }
{
    if !raises {
        return old;
    }
    let fresh = UpEnd {
        raised: old.clock,
        held: false,
    };
    SessionStands {
        clock: old.clock,
        joined: true,
        near: Some(fresh),
        far: Some(fresh),
    }
}

/// The session after a run of timers, of its first node's, its second one's, or both.
fn timed_one(life: u64, old: SessionStands, near: bool, far: bool) -> SessionStands
    ensures { result ≡ record old { near = timed_end life near old.clock old.near; far = timed_end life far old.clock old.far } }
{
    SessionStands {
        near: timed_end(life, near, old.clock, old.near),
        far: timed_end(life, far, old.clock, old.far),
        ..old
    }
}

/// The session after a loss that the node notices on its session with the peer.
fn noticed_one(
    session: Session,
    kind: Kind,
    node: NodeId,
    peer: NodeId,
    old: SessionStands,
) -> SessionStands
    ensures { result ≡ noticed_one session kind node peer old }
{
    let near = is_end(session, session.a, session.b, kind, node, peer);
    let far = is_end(session, session.b, session.a, kind, node, peer);
    SessionStands {
        near: noticed_end(near, old.near),
        far: noticed_end(far, old.far),
        ..old
    }
}

/// The session after a restart of the node.
fn restarted_one(session: Session, node: NodeId, old: SessionStands) -> SessionStands
    ensures { result ≡ restarted_one session node old }
{
    let near = session.a.0 == node.0;
    let far = session.b.0 == node.0;
    SessionStands {
        clock: old.clock,
        joined: old.joined && !(near || far),
        near: noticed_end(near, old.near),
        far: noticed_end(far, old.far),
    }
}

/// The session after an accepted event.
fn thereafter_one(life: u64, session: Session, old: SessionStands, event: &Event) -> SessionStands
    requires { old.clock + ticks_of event.now < 2 ^ 63 }
    ensures { result ≡ thereafter_one life session old event.now }
{
    match event {
        Event::Tick { count } => SessionStands {
            clock: old.clock + *count,
            ..old
        },
        Event::Timers { node } => {
            timed_one(life, old, session.a.0 == node.0, session.b.0 == node.0)
        }
        Event::Settle => timed_one(life, old, true, true),
        Event::Raise { kind, a, b } => raised_where(is_that(session, *kind, *a, *b), old),
        Event::Heal => raised_where(!old.joined, old),
        Event::Lose { kind, a, b } => SessionStands {
            joined: old.joined && !is_that(session, *kind, *a, *b),
            ..old
        },
        Event::Notice { kind, a, b } => noticed_one(session, *kind, *a, *b, old),
        Event::Restart { node } => restarted_one(session, *node, old),
        _ => old,
    }
}

/// The session after an event.
fn after_one(following: &Following<'_>, old: SessionStands, timed: &Timed) -> SessionStands
    requires { old.clock + ticks_of timed.now.event < 2 ^ 63 }
    ensures { result ≡ after_one following.now.life following.now.refused.now following.now.session old timed.now }
{
    if is_accepted(following.refused, timed) {
        thereafter_one(following.life, following.session, old, &timed.event)
    } else {
        old
    }
}

/// The session after all events.
fn stands_one(following: &Following<'_>, events: &[Timed]) -> SessionStands
    requires { ticks_in events.now < 2 ^ 63 }
    ensures { result ≡ fold
        (after_one following.now.life following.now.refused.now following.now.session) none_stands events.now }
{
    let mut stands = SessionStands {
        clock: 0,
        joined: false,
        near: None,
        far: None,
    };
    for timed in events {
        stands = after_one(following, stands, timed);
    }
    stands
}

fn is_held(end: Option<UpEnd>) -> bool
    ensures { result ≡ is_held end }
{
    match end {
        Some(end) => end.held,
        None => false,
    }
}

/// Whether a session that stands so is ready.
fn is_ready(kind: Kind, stands: SessionStands) -> bool
    ensures { result ≡ (stands.joined && (same_kind kind kinds.Bgp || (is_held stands.near && is_held stands.far))) }
{
    stands.joined && (same_kind(kind, Kind::Bgp) || (is_held(stands.near) && is_held(stands.far)))
}

/// 1 where the session is not ready after the history, and else 0.
fn unready_one(history: &History<'_>, session: Session) -> u64
    requires upto { history.now.upto ≤ length history.now.script.now.events }
    requires clock { ticks_in (past_of history.now).events < 2 ^ 63 }
    ensures value { result ≡ (if not (is_ready_one (past_of history.now) session) then 1 else 0) }
    ensures one { result ≤ 1 }
{
    let following = Following {
        session,
        life: history.script.scenario.life,
        refused: history.refused.as_slice(),
    };
    let stands = stands_one(&following, events_of(history));
    if is_ready(session.kind, stands) { 0 } else { 1 }
}

/// The same for the session over BGP of two nodes, and 0 where the second is no edge.
fn unready_pair(history: &History<'_>, a: NodeId, b: NodeId, node: &Node) -> u64
    requires upto { history.now.upto ≤ length history.now.script.now.events }
    requires clock { ticks_in (past_of history.now).events < 2 ^ 63 }
    ensures value { result ≡
        (if node.now.edge then (if not (is_ready_one (past_of history.now) (bgp_session a b)) then 1 else 0) else 0) }
    ensures one { result ≤ 1 }
{
    let kind = Kind::Bgp;
    if node.edge {
        unready_one(history, Session { kind, a, b })
    } else {
        0
    }
}

/// How many of the sessions over BGP of a node with those of the nodes from that number on that are edges are not ready.
fn unready_of(history: &History<'_>, a: NodeId, nodes: &[Node], first: usize) -> u64
    requires few { length nodes.now ≤ 64 }
    requires first { first ≤ length nodes.now }
    requires upto { history.now.upto ≤ length history.now.script.now.events }
    requires clock { ticks_in (past_of history.now).events < 2 ^ 63 }
    ensures value { result ≡ unready_among (past_of history.now) (map (bgp_session a) (edges_from first (drop first nodes.now))) }
    ensures few { result ≤ 64 }
{
    let mut count = 0;
    for number in first..nodes.len() {
        count += unready_pair(history, a, NodeId(number as u16), &nodes[number]);
    }
    count
}

/// How many of the sessions over BGP of the node of that number with the later edges are not ready; 0 where it is no edge.
fn unready_at(history: &History<'_>, nodes: &[Node], number: usize) -> u64
    requires few { length nodes.now ≤ 64 }
    requires known { number < length nodes.now }
    requires upto { history.now.upto ≤ length history.now.script.now.events }
    requires clock { ticks_in (past_of history.now).events < 2 ^ 63 }
    ensures value { unready_among (past_of history.now) (bgp_sessions (edges_from number (drop number nodes.now))) ≡
        result + unready_among (past_of history.now) (bgp_sessions (edges_from (number + 1) (drop (number + 1) nodes.now))) }
    ensures few { result ≤ 64 }
{
    if nodes[number].edge {
        unready_of(history, NodeId(number as u16), nodes, number + 1)
    } else {
        0
    }
}

/// How many of the sessions over BGP of each two edges are not ready.
fn unready_bgp(history: &History<'_>, nodes: &[Node]) -> u64
    requires few { length nodes.now ≤ 64 }
    requires upto { history.now.upto ≤ length history.now.script.now.events }
    requires clock { ticks_in (past_of history.now).events < 2 ^ 63 }
    ensures value { result ≡ unready_among (past_of history.now) (bgp_sessions (edges_from 0 nodes.now)) }
    ensures few { result ≤ 4096 }
{
    let mut count = 0;
    for number in 0..nodes.len() {
        count += unready_at(history, nodes, number);
    }
    count
}

/// How many of the sessions over LDP of the links are not ready.
fn unready_ldp(history: &History<'_>, links: &[Link]) -> u64
    requires upto { history.now.upto ≤ length history.now.script.now.events }
    requires clock { ticks_in (past_of history.now).events < 2 ^ 63 }
    ensures value { result ≡ unready_among (past_of history.now) (map ldp_session links.now) }
    ensures few { result ≤ length links.now }
{
    let mut count = 0;
    for link in links {
        let session = Session {
            kind: Kind::Ldp,
            a: link.a,
            b: link.b,
        };
        count += unready_one(history, session);
    }
    count
}

/// How many of the scenario's sessions are not ready after the history: a session is ready where it is joined and, over LDP,
/// the holds of both its ends were run.
pub fn unready(history: &History<'_>) -> u64
    requires rules { Rules history.now.script.now.scenario }
    requires upto { history.now.upto ≤ length history.now.script.now.events }
    requires clock { ticks_in (past_of history.now).events < 2 ^ 63 }
    ensures { result ≡ unready_after (past_of history.now) }
{
    let scenario = &history.script.scenario;
    let over_bgp = unready_bgp(history, scenario.nodes.as_slice());
    let over_ldp = unready_ldp(history, scenario.links.as_slice());
    over_bgp + over_ldp
}
