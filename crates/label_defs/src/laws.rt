//! Laws of the label steps of a node.
ghost use Rattle.std.specs.Prelude.{◌≡◌, ℕ, ◌+◌, ◌<◌, ◌≤◌, ◌==◌, ◌&&◌, ◌⊎◌, ◌↔◌, ◌≢◌, true, false, not, List, [], ◌∷◌, ◌++◌, None, Some};
ghost use Rattle.std.specs.List.{filter};
ghost use Rattle.std.specs.FinMap as maps;
ghost use Rattle.std.specs.FinSet as sets;
ghost use Rattle.mldp.specs.mv_base.declared.ids.NodeId.{NodeId};
ghost use Rattle.mldp.specs.declared.mldp_fec.fec.Fec.{Fec};
ghost use Rattle.mldp.specs.declared.mldp_msgs.message.LabelMessage.TheVariants as messages;
ghost use Rattle.label_defs.specs.declared.branch.Branch.{Branch};
ghost use Rattle.label_defs.specs.declared.end.End.{End};
ghost use Rattle.label_defs.specs.declared.label_use.LabelUse.{LabelUse};
ghost use Rattle.label_defs.specs.declared.label_use.LabelUse.TheVariants as uses;
ghost use Rattle.label_defs.specs.declared.put.Put.{Put};
ghost use Rattle.label_defs.specs.LabelData.{Place, LabelData, fresh, use_of, has_tree, is_up, is_ready};
ghost use Rattle.label_defs.specs.Settling.{Stepped, settle_all};
ghost use Rattle.label_defs.specs.Steps.{Call, Taken, Raised, Noticed, Timers, Rerouted};
ghost use Rattle.label_defs.specs.Steps.{Numbered, effect, ends_after, label_step, step_puts};
ghost use Rattle.label_defs.specs.Settled.{Maps, Settled, AllSettled, MayBe, WereSettled, IdsFit};
ghost use Rattle.label_defs.specs.Row.{LeafToRoot};
ghost use Rattle.label_defs.specs.Laws.{releases, owed_releases, StopsLeaving, is_towards, withdraw_to};
ghost use Rattle.label_defs.specs.Laws.{WithdrawIs, WithdrawnThen, MappedThen, FreeIn, FreeThen, mapping_to};
ghost use Rattle.label_defs.specs.Laws.{MappingIs, MovedThen, HeldBefore, HeldSince, LacksLabels};

/// In a node in which nothing has happened each tree is settled.
pub fn fresh_is_settled()
    ensures { (place : Place) (count : ℕ) → AllSettled place (fresh count) }
{}

/// Each label step leaves each tree settled.
pub fn steps_keep_settled()
    ensures { (place : Place) (now : ℕ) (part : LabelData) (call : Call) (new : Stepped) →
        MayBe part call → AllSettled place part → label_step place now part call ≡ Some new → AllSettled place new.part }
{}

/// Where next hops changed, the step leaves each tree settled by the new ones, by whatever ones it was settled before.
pub fn reroutes_settle()
    ensures { (old place : Place) (now : ℕ) (part : LabelData) (new : Stepped) →
        AllSettled old part → label_step place now part Rerouted ≡ Some new → AllSettled place new.part }
{}

/// The settling of a settled tree changes nothing and puts nothing.
pub fn settled_needs_nothing()
    ensures { (place : Place) (old : Stepped) (fec : Fec) → Settled place old.part fec → settle_all place (fec ∷ []) old ≡ Some old }
{}

/// A step that takes a withdraw puts its release first, and no step puts any other release (RFC 5036 section 3.5.10.1).
pub fn withdraws_are_answered()
    ensures first { (place : Place) (now : ℕ) (part : LabelData) (from : NodeId) (fec : Fec) (label : ℕ) (new : Stepped) →
        label_step place now part (Taken from (messages.Withdraw fec label)) ≡ Some new →
        (rest : List Put) × (new.puts ≡ record { to = from; message = messages.Release fec label } ∷ rest) }
    ensures only { (place : Place) (now : ℕ) (part : LabelData) (call : Call) (new : Stepped) → label_step place now part call ≡ Some new →
        filter (λ (put : Put). releases put.message) new.puts ≡ owed_releases call }
{}

/// A label that was withdrawn leaves until its neighbour releases it or the loss of that session is noticed. From its release
/// on it rests for more than the life of a copy, and the timers alone end that, when it is due.
pub fn labels_rest()
    ensures leaves { (place : Place) (now : ℕ) (part : LabelData) (call : Call) (new : Stepped) (label : ℕ) (fec : Fec) (to : NodeId) →
        use_of part label ≡ Some (uses.Leaving fec to) → label_step place now part call ≡ Some new →
        (use_of new.part label ≡ Some (uses.Leaving fec to)) ⊎ StopsLeaving call fec to label }
    ensures released { (place : Place) (now : ℕ) (part : LabelData) (from : NodeId) (fec : Fec) (label : ℕ) (new : Stepped) →
        use_of part label ≡ Some (uses.Leaving fec from) → label_step place now part (Taken from (messages.Release fec label)) ≡ Some new →
        use_of new.part label ≡ Some (uses.Resting (now + place.life + 1)) }
    ensures rests { (place : Place) (now : ℕ) (part : LabelData) (call : Call) (new : Stepped) (label until : ℕ) →
        (call ≡ Timers → now < until) → use_of part label ≡ Some (uses.Resting until) → label_step place now part call ≡ Some new →
        use_of new.part label ≡ Some (uses.Resting until) }
{}

/// The hold of an end is run by the timers alone, and exactly when more than the life of a copy has passed since it came up.
pub fn holds_wait()
    ensures not_before { (place : Place) (now : ℕ) (part : LabelData) (call : Call) (new : Stepped) (node : NodeId) (end : End) →
        label_step place now part call ≡ Some new → maps.get new.part.ends node ≡ Some end → end.held ≡ true →
        HeldBefore part node end ⊎ ((call ≡ Timers) × (end.raised + place.life + 1 ≤ now)) }
    ensures due { (place : Place) (now : ℕ) (part : LabelData) (new : Stepped) (node : NodeId) (end : End) →
        label_step place now part Timers ≡ Some new → maps.get part.ends node ≡ Some end → end.raised + place.life + 1 ≤ now →
        HeldSince new.part node end.raised }
{}

/// A noticed loss of a session frees its labels at once, drops its branches and no others, and its end is down.
pub fn losses_end_a_session()
    ensures labels { (place : Place) (now : ℕ) (part : LabelData) (peer : NodeId) (new : Stepped) (label : ℕ) (usage : LabelUse) →
        label_step place now part (Noticed peer) ≡ Some new → use_of new.part label ≡ Some usage → is_towards peer usage ≡ false }
    ensures branches { (place : Place) (now : ℕ) (part : LabelData) (peer : NodeId) (new : Stepped) (branch : Branch) →
        label_step place now part (Noticed peer) ≡ Some new →
        sets.contains new.part.branches branch ≡ (sets.contains part.branches branch && not (branch.node.0 == peer.0)) }
    ensures down { (place : Place) (now : ℕ) (part : LabelData) (peer : NodeId) (new : Stepped) →
        label_step place now part (Noticed peer) ≡ Some new → is_up new.part peer ≡ false }
{}

/// Each mapping that a step puts waited for the session towards the root, and takes the least label that is free then.
pub fn mappings_wait()
    ensures { (place : Place) (now : ℕ) (part : LabelData) (call : Call) (new : Stepped)
        (before thereafter : List Put) (to : NodeId) (fec : Fec) (label : ℕ) →
        label_step place now part call ≡ Some new → new.puts ≡ before ++ mapping_to to fec label ∷ thereafter →
        MappingIs place now part call new.part before to fec label }
{}

/// A mapping of what is no tree changes nothing and puts nothing, and so does a release of a label that is not leaving towards
/// that neighbour for that tree.
pub fn messages_are_passed_over()
    ensures mapping { (place : Place) (now : ℕ) (part : LabelData) (from : NodeId) (fec : Fec) (label : ℕ) →
        place.is_tree fec ≡ false → Settled place part fec →
        label_step place now part (Taken from (messages.Mapping fec label)) ≡ Some (record { part = part; puts = [] }) }
    ensures release { (place : Place) (now : ℕ) (part : LabelData) (from : NodeId) (fec : Fec) (label : ℕ) →
        use_of part label ≢ Some (uses.Leaving fec from) →
        label_step place now part (Taken from (messages.Release fec label)) ≡ Some (record { part = part; puts = [] }) }
{}

/// A label that is free in a step stays so, unless a mapping that the step puts takes it.
pub fn free_labels_stay()
    ensures { (place : Place) (now : ℕ) (part : LabelData) (call : Call) (new : Stepped) (label : ℕ) →
        label_step place now part call ≡ Some new → FreeIn now part call label → FreeThen new.part new.puts label }
{}

/// A label that was mapped stays so, unless its withdraw is put and it leaves, or the loss of its session is noticed. A withdraw
/// is put for no other label.
pub fn withdraws_leave()
    ensures mapped { (place : Place) (now : ℕ) (part : LabelData) (call : Call) (new : Stepped) (label : ℕ) (fec : Fec) (to : NodeId) →
        label_step place now part call ≡ Some new → Maps part fec label to →
        MappedThen new.part new.puts fec to label ⊎ (call ≡ Noticed to) }
    ensures put { (place : Place) (now : ℕ) (part : LabelData) (call : Call) (new : Stepped)
        (before thereafter : List Put) (to : NodeId) (fec : Fec) (label : ℕ) →
        label_step place now part call ≡ Some new → new.puts ≡ before ++ withdraw_to to fec label ∷ thereafter →
        WithdrawIs place part new.part to fec label }
{}

/// Where next hops changed, a tree that moves is withdrawn from its old neighbour. It is mapped to the new one right after that,
/// where that session is ready.
pub fn reroutes_move()
    ensures leaves { (old place : Place) (now : ℕ) (part : LabelData) (new : Stepped) (fec : Fec) (label : ℕ) (old_hop : NodeId) →
        AllSettled old part → label_step place now part Rerouted ≡ Some new →
        Maps part fec label old_hop → place.upstream fec ≢ Some old_hop → WithdrawnThen new.part new.puts fec old_hop label }
    ensures maps { (old place : Place) (now : ℕ) (part : LabelData) (new : Stepped)
        (fec : Fec) (label : ℕ) (old_hop new_hop : NodeId) →
        AllSettled old part → label_step place now part Rerouted ≡ Some new → Maps part fec label old_hop →
        old_hop ≢ new_hop → place.upstream fec ≡ Some new_hop → is_ready part new_hop ≡ true →
        MovedThen new.part new.puts fec old_hop new_hop label }
{}

/// After the own effect of a call, trees that settle change no branch and no leaf, and of an end the id of its next message alone.
pub fn settling_keeps()
    ensures branches { (place : Place) (now : ℕ) (part : LabelData) (call : Call) (new : Stepped) →
        label_step place now part call ≡ Some new → new.part.branches ≡ (effect place now part call).0.part.branches }
    ensures leaves { (place : Place) (now : ℕ) (part : LabelData) (call : Call) (new : Stepped) →
        label_step place now part call ≡ Some new → new.part.leaves ≡ (effect place now part call).0.part.leaves }
    ensures ends { (place : Place) (now : ℕ) (part : LabelData) (call : Call) (new : Stepped) →
        label_step place now part call ≡ Some new → new.part.ends ≡ ends_after (effect place now part call).0.part.ends new.puts }
{}

/// The ids of messages are from 1 to 4294967295.
pub fn ids_fit()
    ensures fresh { (count : ℕ) → IdsFit (fresh count) }
    ensures steps { (place : Place) (now : ℕ) (part : LabelData) (call : Call) (new : Stepped) →
        IdsFit part → label_step place now part call ≡ Some new → IdsFit new.part }
    ensures puts { (place : Place) (now : ℕ) (part : LabelData) (call : Call) (puts : List Put)
        (before thereafter : List Numbered) (put : Numbered) →
        IdsFit part → step_puts place now part call puts ≡ before ++ put ∷ thereafter → (1 ≤ put.id) × (put.id ≤ 4294967295) }
{}

/// There is no step exactly where more of its trees need a label than are free in it.
pub fn no_label()
    ensures { (place : Place) (now : ℕ) (part : LabelData) (call : Call) →
        WereSettled part call → (label_step place now part call ≡ None) ↔ LacksLabels place now part call }
{}

/// A noticed loss and a raise need no label.
pub fn losses_need_no_label()
    ensures noticed { (place : Place) (now : ℕ) (part : LabelData) (peer : NodeId) →
        AllSettled place part → label_step place now part (Noticed peer) ≢ None }
    ensures raised { (place : Place) (now : ℕ) (part : LabelData) (peer : NodeId) → label_step place now part (Raised peer) ≢ None }
{}

/// In a row of three nodes a tree that the leaf wants is mapped hop by hop, and stands then up to the root.
pub fn leaf_to_root()
    ensures { (life now raised count : ℕ) (fec : Fec) → 1 ≤ count → LeafToRoot life now raised count fec }
{}
