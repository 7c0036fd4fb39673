//! What a change of one label, and a wake, leave of each label.
ghost use Rattle.std.specs.Prelude.{◌≡◌, ◌≢◌, ℕ, Some, option_map};
ghost use Rattle.tunnel_bindings.specs.declared.state.LabelState.{LabelState};
ghost use Rattle.tunnel_bindings.specs.Labels.{Space, state_of, set_label, wake_all, woken};

/// A label of a space that is set is so, and every other one is as before. A wake changes each by itself.
pub fn each_label()
    ensures set { (space : Space) (label : ℕ) (old new : LabelState) →
        state_of space label ≡ Some old → state_of (set_label space label new) label ≡ Some new }
    ensures others { (space : Space) (label other : ℕ) (old new : LabelState) →
        state_of space label ≡ Some old → other ≢ label → state_of (set_label space label new) other ≡ state_of space other }
    ensures woken { (space : Space) (label now : ℕ) → state_of (wake_all now space) label ≡ option_map (woken now) (state_of space label) }
{}
