//! Laws of a network of label nodes.
ghost use Rattle.std.specs.Prelude.{◌≡◌, ◌≢◌, ◌<◌, ◌≤◌, ℕ, ◌+◌, Bool, true, false, List, [], slice_get, Option, None, Some};
ghost use Rattle.mv_base.specs.declared.ids.NodeId.{NodeId};
ghost use Rattle.mldp.specs.declared.mldp_fec.fec.Fec.{Fec};
ghost use Rattle.label_defs.specs.declared.label_use.LabelUse.TheVariants as uses;
ghost use Rattle.label_defs.specs.LabelData.{use_of, has_tree};
ghost use Rattle.label_laws.specs.Network.{PacketCopy, LabelNetwork, at_start};
ghost use Rattle.label_laws.specs.Acts.{Act, Notice, Raise, act, run};
ghost use Rattle.label_laws.specs.Calm.{Calm, Reached};
ghost use Rattle.label_laws.specs.Rounds.{rounds, Lists, IsQuiet, IsNearer};
ghost use Rattle.label_laws.specs.Rule.{Rule, Kept, LabelRule, OnNetwork};

/// A network in which nothing has happened meets the rule, and all its trees are settled.
pub fn start_keeps_the_rule()
    ensures { (life : ℕ) (labels : NodeId → ℕ) (is_tree : Fec → Bool) (upstream : NodeId → Fec → Option NodeId)
        (vpn_of : Fec → ℕ) (origin : ℕ → ℕ) → Kept (at_start life labels is_tree upstream vpn_of origin) }
{}

/// Whatever happens, the rule is kept, and all trees stay settled.
pub fn runs_keep_the_rule()
    ensures { (network : LabelNetwork) (acts : List Act) → Kept network → OnNetwork Kept (run network acts) }
{}

/// The rule gives the label rule: of each copy on a link, and of each branch.
pub fn the_rule_in_full()
    ensures { (network : LabelNetwork) → Rule network → LabelRule network }
{}

/// A copy that goes on goes on for a tree of the VPN of its datagram.
pub fn copies_land_in_their_vpn()
    ensures { (network : LabelNetwork) (a b : NodeId) (place : ℕ) (copy : PacketCopy) (fec : Fec) →
        Rule network → a ≢ b → slice_get (network.direction a b).copies place ≡ Some copy →
        use_of (network.node b) copy.label ≡ Some (uses.Mapped fec a) → network.vpn_of fec ≡ network.origin copy.number }
{}

/// A loss that is noticed and a raise need no label.
pub fn losses_need_no_label()
    ensures noticed { (network : LabelNetwork) (a b : NodeId) → Kept network → act network (Notice a b) ≢ None }
    ensures raised { (network : LabelNetwork) (a b : NodeId) → act network (Raise a b) ≢ None }
{}

/// On a calm tree each node is reached from the root, by branches whose labels are mapped to the tree.
pub fn calm_trees()
    ensures { (network : LabelNetwork) (depth : NodeId → ℕ) (root n : NodeId) (fec : Fec) →
        Calm network depth root fec → Kept network → has_tree (network.node n) fec ≡ true → Reached network fec root n }
{}

/// Where each neighbour towards the root of a tree is less deep in it, all depths are below a number, and each direction of a
/// joined session has its turn in each round, that number of rounds and one more, or any number beyond, leave nothing in transit.
/// The rule is kept, and all trees stay settled.
pub fn rounds_empty_sessions()
    ensures quiet { (network new : LabelNetwork) (depth : NodeId → Fec → ℕ) (nodes count : ℕ) (order : List (NodeId × NodeId)) →
        Kept network → IsNearer network depth → ((n : NodeId) (fec : Fec) → depth n fec < nodes) → Lists order network →
        nodes + 1 ≤ count → rounds order count network ≡ Some new → IsQuiet new }
    ensures kept { (network new : LabelNetwork) (order : List (NodeId × NodeId)) (count : ℕ) →
        Kept network → rounds order count network ≡ Some new → Kept new }
{}
