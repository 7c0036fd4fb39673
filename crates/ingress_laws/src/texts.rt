//! What a whole text of peers comes to.
ghost use Rattle.std.specs.Prelude.{◌≡◌, ◌↔◌, ◌⊎◌, ℕ, List, ◌∷◌, ◌++◌, map, Some, Ok};
ghost use Rattle.mv_base.specs.framing.Feed.{further};
ghost use Rattle.bgp_messages.specs.declared.bgp_attributes.fault.StreamFault.{StreamFault};
ghost use Rattle.bgp_messages.specs.declared.bgp_attributes.update.Advert.{Advert};
ghost use Rattle.ingress_rep.specs.Ingress.{answer_key, copies_of, request_of};
ghost use Rattle.ingress_text.specs.Rooted.{Rooted};
ghost use Rattle.ingress_text.specs.Grammar.{input_of};
ghost use Rattle.ingress_text.specs.declared.input.Input.{Input};
ghost use Rattle.ingress_text.specs.declared.input.Line.{Line};
ghost use Rattle.ingress_text.specs.declared.input.Said.TheVariants as said;
ghost use Rattle.ingress_text.specs.declared.peers.Peer.{Peer};
ghost use Rattle.ingress_text.specs.Telling.{nobody, peers_from, shown, table_of, AreThePeers};
ghost use Rattle.ingress_laws.specs.Refused.{BringsFault, HasFault, IsHeard, IsRefused};
ghost use Rattle.ingress_laws.specs.Answered.{labels_of, last_of, leaf_at, octets_of, AreAnswers, AreUnder, HasLast, IsLeaf, IsSaid};
ghost use Rattle.ingress_laws.specs.Answered.{LeavesLabel, LeavesRoute};

/// What a text says is of a root that asks and of peers with addresses of IPv4, and its lines bring octets; and each peer is
/// one that lines let answer, or one whose octets they bring. So what the other laws say of such lines and of such a peer
/// holds of whatever the command reads.
pub fn texts_meet_the_premise()
    ensures said { (text : List ℕ) (input : Input) → input_of text ≡ Ok input → IsSaid input.root input.lines }
    ensures peers { (text : List ℕ) (input : Input) → input_of text ≡ Ok input →
        (n : ℕ) → IsLeaf n input.lines ⊎ IsHeard n input.lines }
{}

/// What is kept of a peer after all lines is the route that its octets leave under the key of its answer, however its
/// lines cut them into pieces.
pub fn answers_are_routes()
    ensures { (root : Rooted) (lines : List Line) → IsSaid root lines →
        (n : ℕ) (peer : Peer) → peers_from root nobody lines n ≡ Some peer → (advert : Advert) →
        (peer.answer ≡ Some advert) ↔ LeavesRoute (octets_of root n lines) (answer_key root.request (leaf_at n)) advert }
{}

/// The copies go to exactly those peers whose octets leave their answer to the root, each once, by rising addresses, under
/// the label of this answer.
pub fn copies_are_of_routes()
    ensures { (root : Rooted) (lines : List Line) → IsSaid root lines →
        (peers : List (ℕ × Peer)) → AreThePeers (peers_from root nobody lines) peers →
        AreUnder (LeavesLabel root lines) (copies_of (request_of root.advert) (map table_of peers)) }
{}

/// Octets that are answers of a leaf leave the last one. So where the octets of each peer are its answers to the root, the
/// copies go to exactly these leaves, each once, under the label of its last answer.
pub fn last_answers_are_copied()
    ensures one { (root : Rooted) (lines : List Line) → IsSaid root lines → (n : ℕ) (labels : List ℕ) →
        AreAnswers root n (octets_of root n lines) labels → (label : ℕ) →
        LeavesLabel root lines n label ↔ (last_of labels ≡ Some label) }
    ensures all { (root : Rooted) (lines : List Line) (labels : ℕ → List ℕ) → IsSaid root lines →
        ((n : ℕ) → AreAnswers root n (octets_of root n lines) (labels n)) →
        (peers : List (ℕ × Peer)) → AreThePeers (peers_from root nobody lines) peers →
        AreUnder (HasLast labels) (copies_of (request_of root.advert) (map table_of peers)) }
{}

/// What comes of a leaf that lines let answer are its answers, under the labels of these lines.
pub fn leaf_lines_are_answers()
    ensures { (root : Rooted) (lines : List Line) → IsSaid root lines → (n : ℕ) → IsLeaf n lines →
        AreAnswers root n (octets_of root n lines) (labels_of n lines) }
{}

/// A line that brings octets of a peer is told with a fault exactly where it brings the first one of the peer's octets.
pub fn refused_lines_bring_faults()
    ensures { (root : Rooted) (lines before more : List Line) (line : Line) → IsSaid root lines → lines ≡ before ++ (line ∷ more) →
        (peer octets : List ℕ) → line.said ≡ said.From peer octets → (place : ℕ) (fault : StreamFault) →
        (shown root (peers_from root nobody before) line line.said ≡ Some (place, fault)) ↔ BringsFault root before line place fault }
{}

/// A peer of which lines bring octets is told with a fault exactly where its octets have a first fault, and with that one.
pub fn refused_peers_have_faults()
    ensures told { (root : Rooted) (lines : List Line) → IsSaid root lines → (n : ℕ) → IsHeard n lines →
        (there : ℕ) (fault : StreamFault) →
        HasFault (octets_of root n lines) there fault → IsRefused root lines n (further 0 there) fault }
    ensures only { (root : Rooted) (lines : List Line) → IsSaid root lines → (n place : ℕ) (fault : StreamFault) →
        IsRefused root lines n place fault → (there : ℕ) × HasFault (octets_of root n lines) there fault × (place ≡ further 0 there) }
{}
