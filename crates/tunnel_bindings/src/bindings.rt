//! Bindings under names that are never given twice.
ghost use Rattle.std.specs.Prelude.{◌≡◌, ◌↔◌, ◌⊎◌, [], ℕ, Some, None, IfOk, IfErr, IfNone, length, option_map};
ghost use Rattle.std.specs.FinMap as maps;
ghost use Rattle.tunnel_bindings.specs.declared.name.BindingName.{BindingName};
ghost use Rattle.tunnel_bindings.specs.declared.state.LabelState.TheVariants as LabelState;
ghost use Rattle.tunnel_bindings.specs.Labels.{IsOwned, state_of};
ghost use Rattle.tunnel_bindings.specs.States.{state_of_binding};
ghost use Rattle.tunnel_bindings.specs.Bindings.{WasGiven, Carries, AreApart};

use crate::any_binding::{AnyBinding, BindingState};
use crate::name::BindingName;
use crate::places::{Places, end_all};
use crate::space::LabelSpace;
use std::alloc::Global;
use std::marker::Model;

/// Bindings, each under its name. It must be closed.
pub struct Bindings {
    places: Places,
}

impl Model for Bindings {
    ghost use Rattle.std.specs.Prelude.{vec_capacity};
    ghost use Rattle.tunnel_bindings.specs.Bindings.{Named, named_code};

    ghost Value = { Named };

    ghost coded = { named_code };

    ghost use Rattle.tunnel_bindings.specs.Places.{IsWell, named};

    ghost view = { λ b. named b.places.places.items };

    ghost invariant = { λ b. IsWell b.places.places.items b.places.free.items (vec_capacity b.places.free) };
}

impl Bindings {
    /// No binding, and no name was given. It takes no memory.
    pub fn of(alloc: Global) -> Bindings
        ensures { result ≡ record { kept = maps.empty; given = [] } }
    {
        Bindings {
            places: Places::of(alloc),
        }
    }

    /// Keeps the binding under a name that was never given before. Where there is no memory, the binding comes back.
    pub fn keep(&mut self, binding: AnyBinding) -> Result<BindingName, AnyBinding>
        ensures new { IfOk result (λ name. ¬ (WasGiven self.old name)) }
        ensures absent { IfOk result (λ name. maps.get self.old.kept name ≡ None) }
        ensures kept { IfOk result (λ name. self.new.kept ≡ maps.insert self.old.kept name binding) }
        ensures given { IfOk result (λ name. (other : BindingName) → WasGiven self.new other ↔ ((other ≡ name) ⊎ WasGiven self.old other)) }
        ensures back { IfErr result (λ back. back ≡ binding) }
        ensures unchanged { IfErr result (λ _. self.new ≡ self.old) }
    {
        match self.places.free.pop() {
            Some(index) => Ok(self.places.fill(index, binding)),
            None => self.places.add(binding),
        }
    }

    /// Gives the binding of the name back, which is kept no longer.
    pub fn take(&mut self, name: BindingName) -> Option<AnyBinding>
        ensures binding { result ≡ maps.get self.old.kept name }
        ensures taken { self.new ≡ record self.old { kept = maps.remove self.old.kept name } }
        ensures unchanged { IfNone result (self.new ≡ self.old) }
    {
        self.places.take(name)
    }

    /// The state of the binding of the name.
    pub fn state(&self, name: BindingName) -> Option<BindingState>
        ensures { result ≡ option_map state_of_binding (maps.get self.now.kept name) }
    {
        self.places.state(name)
    }

    /// Cancels each wanted binding, and frees the label of each other one.
    pub fn close(self, space: &mut LabelSpace)
        requires owned { (name : BindingName) (label : ℕ) → Carries self name label → IsOwned space.old label }
        requires apart { AreApart self }
        ensures freed { (name : BindingName) (label : ℕ) → Carries self name label → state_of space.new label ≡ Some LabelState.Free }
        ensures others { (label : ℕ) → ((name : BindingName) → ¬ (Carries self name label)) →
            state_of space.new label ≡ state_of space.old label }
        ensures life { space.new.life ≡ space.old.life }
        ensures count { length space.new.states ≡ length space.old.states }
    {
        let Bindings { places } = self;
        let Places { places, free: _ } = places;
        end_all(places, space);
    }
}
