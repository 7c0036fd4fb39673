//! What the definitions of ingress replication mean.
ghost use Rattle.std.specs.Prelude.{◌≡◌, ◌↔◌, ℕ, List, [], Option, Some, None};
ghost use Rattle.mv_base.specs.declared.addr.Addr.{Addr};
ghost use Rattle.bgp_messages.specs.declared.bgp_attributes.update.Advert.{Advert};
ghost use Rattle.ingress_rep.specs.declared.request.Request.{Request};
ghost use Rattle.ingress_rep.specs.declared.copying.TakenTable.{TakenTable};
ghost use Rattle.ingress_rep.specs.declared.copying.LeafCopy.{LeafCopy};
ghost use Rattle.ingress_rep.specs.Answers.{answer_to};
ghost use Rattle.ingress_rep.specs.Ingress.{copies_of, copy_of, request_of};
ghost use Rattle.ingress_laws.specs.Meaning.{Asks, AreCopies, IsAnswer, IsCopy};

/// A route is answered exactly where it asks so, and the answer is the written route of the leaf.
pub fn answers_are()
    ensures asks { (advert : Advert) (request : Request) → (request_of advert ≡ Some request) ↔ Asks advert request }
    ensures none { (leaf : Addr) (label : ℕ) (advert : Advert) →
        (answer_to leaf label advert ≡ None) ↔ ((request : Request) → ¬ (Asks advert request)) }
    ensures some { (leaf : Addr) (label : ℕ) (advert : Advert) (octets : List ℕ) →
        (answer_to leaf label advert ≡ Some octets) ↔ IsAnswer leaf label advert octets }
{}

/// A copy goes to a peer exactly where its table has its answer to the request, under the label of this answer. So a root
/// sends at most one to each peer, in the order of the peers.
pub fn copies_are()
    ensures each { (request : Request) (taken : TakenTable) (copy : LeafCopy) →
        (copy_of request taken ≡ Some copy) ↔ IsCopy request taken copy }
    ensures all { (request : Request) (taken : List TakenTable) (copies : List LeafCopy) →
        (copies ≡ copies_of (Some request) taken) ↔ AreCopies request taken copies }
    ensures none { (taken : List TakenTable) → copies_of None taken ≡ [] }
{}
