//! Laws of the octets that wait for the sessions of an edge, and of the messages that it takes.
ghost use Rattle.std.specs.Prelude.{◌≡◌, ◌≢◌, ℕ, List, [], ◌∷◌, ◌++◌, Option, Some, None};
ghost use Rattle.std.specs.FinMap.{FinMap};
ghost use Rattle.mv_base.specs.Lists.{Among};
ghost use Rattle.mv_base.specs.declared.ids.NodeId.{NodeId};
ghost use Rattle.label_defs.specs.Node.{Spent};
ghost use Rattle.network_defs.specs.session_defs.Message.{SessionMessage};
ghost use Rattle.network_defs.specs.session_defs.PeerSession.{PeerSession, peer_cmp};
ghost use Rattle.edge_defs.specs.Edge.{Control};
ghost use Rattle.edge_defs.specs.Held.{put_to};
ghost use Rattle.edge_defs.specs.Place.{EdgePlace};
ghost use Rattle.edge_defs.specs.Steps.{Call, EdgeStepped, edge_step};
ghost use Rattle.network_defs.specs.mvpn_model.Sessions.{edges};
ghost use Rattle.network_defs.specs.node_defs.EdgeState.{EdgeState, all_taken, call_of, called, handed, handed_out, prepared, stepped};
ghost use Rattle.network_defs.specs.node_defs.EdgeState.{waiting_at, with_puts};
ghost use Rattle.network_defs.specs.node_defs.Puts.{bgp_puts};
ghost use Rattle.node_laws.specs.Places.{label_session};
ghost use Rattle.node_laws.specs.Waits.{bgp_session, kept_for, update_octets};

/// The changes that an edge puts to a peer wait for it, in UPDATE messages after what waits already (RFC 4271 section 4.3). For a node
/// that is no edge, and for a neighbour over LDP, what waits stays as it is.
pub fn bgp_octets_wait()
    ensures peers { (place : EdgePlace) (old new : Control) (waiting : FinMap peer_cmp (List ℕ)) (peer : NodeId) →
        Among peer (edges place.scenario) →
        waiting_at (with_puts (bgp_puts place old new) waiting) (bgp_session peer)
        ≡ waiting_at waiting (bgp_session peer) ++ update_octets (put_to place old new peer) }
    ensures others { (place : EdgePlace) (old new : Control) (waiting : FinMap peer_cmp (List ℕ)) (peer : NodeId) →
        (Among peer (edges place.scenario) → ⊥) →
        waiting_at (with_puts (bgp_puts place old new) waiting) (bgp_session peer) ≡ waiting_at waiting (bgp_session peer) }
    ensures labels { (place : EdgePlace) (old new : Control) (waiting : FinMap peer_cmp (List ℕ)) (peer : NodeId) →
        waiting_at (with_puts (bgp_puts place old new) waiting) (label_session peer) ≡ waiting_at waiting (label_session peer) }
{}

/// After a step of an edge, what waits for a BGP peer is what the call leaves of it, and then the UPDATE messages of the changes that
/// the step puts to it (RFC 4271 section 4.3). For a node that is no edge, it is what the call leaves.
pub fn peers_octets_wait()
    ensures peers { (place : EdgePlace) (now : ℕ) (call : Call) (old : EdgeState) (new : EdgeStepped) (peer : NodeId) →
        old.spent ≡ None → edge_step place now old.edge call ≡ Some new → Among peer (edges place.scenario) →
        waiting_at (called place now old call).waiting (bgp_session peer)
        ≡ kept_for call peer (waiting_at old.waiting (bgp_session peer))
        ++ update_octets (put_to place old.edge.control new.edge.control peer) }
    ensures others { (place : EdgePlace) (now : ℕ) (call : Call) (old : EdgeState) (new : EdgeStepped) (peer : NodeId) →
        old.spent ≡ None → edge_step place now old.edge call ≡ Some new → (Among peer (edges place.scenario) → ⊥) →
        waiting_at (called place now old call).waiting (bgp_session peer)
        ≡ kept_for call peer (waiting_at old.waiting (bgp_session peer)) }
{}

/// A call changes the streams of an edge only before its step, whether or not there is a step. An edge that is spent stays as it is.
pub fn streams_are_prepared()
    ensures unspent { (place : EdgePlace) (now : ℕ) (call : Call) (old : EdgeState) →
        old.spent ≡ None → (called place now old call).streams ≡ (prepared call old).streams }
    ensures spent { (place : EdgePlace) (now : ℕ) (call : Call) (old : EdgeState) (cause : Spent) →
        old.spent ≡ Some cause → called place now old call ≡ old }
{}

/// What waits for a session is handed out whole, and then nothing waits for it; what waits for other sessions stays. An edge that is
/// spent hands out nothing.
pub fn handed_octets_go()
    ensures gone { (session : PeerSession) (old : EdgeState) → waiting_at (handed_out session old).waiting session ≡ [] }
    ensures others { (session other : PeerSession) (old : EdgeState) → other ≢ session →
        waiting_at (handed_out session old).waiting other ≡ waiting_at old.waiting other }
    ensures unspent { (session : PeerSession) (old : EdgeState) → old.spent ≡ None → handed session old ≡ waiting_at old.waiting session }
    ensures spent { (session : PeerSession) (old : EdgeState) (cause : Spent) → old.spent ≡ Some cause → handed session old ≡ [] }
{}

/// Messages are taken one after another, each by a call of the edge. An edge that is spent takes none.
pub fn messages_are_taken()
    ensures none { (place : EdgePlace) (now : ℕ) (from : NodeId) (old : EdgeState) → all_taken place now from [] old ≡ old }
    ensures more { (place : EdgePlace) (now : ℕ) (from : NodeId) (message : SessionMessage) (more : List SessionMessage) (old : EdgeState) →
        all_taken place now from (message ∷ more) old
        ≡ all_taken place now from more (stepped place now old (call_of from message)) }
    ensures calls { (place : EdgePlace) (now : ℕ) (from : NodeId) (message : SessionMessage) (old : EdgeState) →
        stepped place now old (call_of from message) ≡ called place now old (call_of from message) }
    ensures spent { (place : EdgePlace) (now : ℕ) (from : NodeId) (messages : List SessionMessage) (old : EdgeState) (cause : Spent) →
        old.spent ≡ Some cause → all_taken place now from messages old ≡ old }
{}
