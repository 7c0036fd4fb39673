//! Places for bindings, and which of them are free.
ghost use Rattle.std.specs.Prelude.{◌≡◌, ◌+◌, ◌++◌, ◌≤◌, ◌∷◌, [], length, vec_capacity, slice_get, slice_set};
ghost use Rattle.std.specs.Prelude.{IfOk, IfErr, IfSome, IfNone, Some, true, option_map, is_some, ◌<◌, ◌-◌, ◌^◌};
ghost use Rattle.tunnel_bindings.specs.States.{state_of_binding, label_in, with_free};
ghost use Rattle.tunnel_bindings.specs.Labels.{IsOwned};
ghost use Rattle.tunnel_bindings.specs.Places.{IsWell, is_free, kept_at, holding, emptied, released, AreReady, AreEnded};

use crate::any_binding::{AnyBinding, BindingState};
use crate::name::BindingName;
use crate::space::LabelSpace;
use std::alloc::Global;

/// A place for bindings, of which it holds one or none, and how many it gave away.
pub(crate) struct Place {
    pub(crate) generation: u64,
    pub(crate) binding: Option<AnyBinding>,
}

/// Places, and the indices of those that are free. A place whose generation is the greatest number is never free.
pub(crate) struct Places {
    pub(crate) places: Vec<Place>,
    pub(crate) free: Vec<usize>,
}

impl Places {
    pub(crate) fn of(alloc: Global) -> Places
        ensures places { result.places.items ≡ [] }
        ensures free { result.free.items ≡ [] }
    {
        Places {
            places: Vec::new(alloc),
            free: Vec::new(alloc),
        }
    }

    /// Puts the binding at a free place, and tells its name.
    pub(crate) fn fill(&mut self, index: usize, binding: AnyBinding) -> BindingName
        requires { is_free (slice_get self.old.places.items index) ≡ true }
        ensures index { result.index ≡ index }
        ensures place { slice_get self.old.places.items index ≡ Some (emptied result.generation) }
        ensures places { self.new.places.items ≡ slice_set self.old.places.items index (holding result.generation binding) }
        ensures free { self.new.free ≡ self.old.free }
    {
        let place = &mut self.places[index];
        match place.binding.replace(binding) {
            None => {}
            Some(_) => unreachable!(),
        }
        BindingName {
            index: index as u64,
            generation: place.generation,
        }
    }

    /// Puts the binding at a new place, and tells its name. There is room to free each place.
    pub(crate) fn add(&mut self, binding: AnyBinding) -> Result<BindingName, AnyBinding>
        requires { IsWell self.old.places.items self.old.free.items (vec_capacity self.old.free) }
        ensures name { IfOk result (λ name. name ≡ record { index = length self.old.places.items; generation = 0 }) }
        ensures places { IfOk result (λ _. self.new.places.items ≡ self.old.places.items ++ holding 0 binding ∷ []) }
        ensures back { IfErr result (λ back. back ≡ binding) }
        ensures unchanged { IfErr result (λ _. self.new.places.items ≡ self.old.places.items) }
        ensures well { IsWell self.new.places.items self.new.free.items (vec_capacity self.new.free) }
    {
        let index = self.places.len();
        if self.free.reserve(index + 1).is_err() {
            return Err(binding);
        }
        let place = Place {
            generation: 0,
            binding: Some(binding),
        };
        match self.places.push(place) {
            Ok(()) => Ok(BindingName {
                index: index as u64,
                generation: 0,
            }),
            Err(refused) => {
                let Place {
                    generation: _,
                    binding,
                } = refused.value;
                Err(binding.unwrap())
            }
        }
    }

    /// The state of the binding of the name.
    pub(crate) fn state(&self, name: BindingName) -> Option<BindingState>
        ensures { result ≡ option_map state_of_binding (kept_at self.now.places.items name) }
    {
        let place = self.places.get(name.index as usize)?;
        if place.generation != name.generation {
            return None;
        }
        match &place.binding {
            None => None,
            Some(binding) => Some(binding.state()),
        }
    }

    /// Whether there is a binding of that name.
    fn holds(&self, name: BindingName) -> bool
        ensures { result ≡ is_some (kept_at self.now.places.items name) }
    {
        match self.places.get(name.index as usize) {
            None => false,
            Some(place) => place.generation == name.generation && place.binding.is_some(),
        }
    }

    /// Takes the binding of that name out of its place, which is for the next generation then.
    fn empty(&mut self, name: BindingName) -> Option<AnyBinding>
        requires held { is_some (kept_at self.old.places.items name) ≡ true }
        requires young { name.generation < 2 ^ 64 - 1 }
        ensures binding { result ≡ kept_at self.old.places.items name }
        ensures places { self.new.places.items ≡ slice_set self.old.places.items name.index (emptied (name.generation + 1)) }
        ensures free { self.new.free ≡ self.old.free }
    {
        let place = &mut self.places[name.index as usize];
        place.generation = name.generation + 1;
        place.binding.take()
    }

    /// The place of that index is free, but for the greatest generation. There is room for it.
    fn release(&mut self, index: usize, generation: u64)
        requires { length self.old.free.items < vec_capacity self.old.free }
        ensures free { self.new.free.items ≡ released self.old.free.items index generation }
        ensures capacity { vec_capacity self.old.free ≤ vec_capacity self.new.free }
        ensures places { self.new.places ≡ self.old.places }
    {
        if generation < u64::MAX {
            self.free.push(index).unwrap();
        }
    }

    /// Takes the binding of that name out of its place, which is free then but for the greatest generation.
    pub(crate) fn take(&mut self, name: BindingName) -> Option<AnyBinding>
        requires { IsWell self.old.places.items self.old.free.items (vec_capacity self.old.free) }
        ensures binding { result ≡ kept_at self.old.places.items name }
        ensures taken { IfSome result (λ _.
            self.new.places.items ≡ slice_set self.old.places.items name.index (emptied (name.generation + 1))) }
        ensures unchanged { IfNone result (self.new ≡ self.old) }
        ensures well { IsWell self.new.places.items self.new.free.items (vec_capacity self.new.free) }
    {
        if !self.holds(name) {
            return None;
        }
        let binding = self.empty(name);
        self.release(name.index as usize, name.generation + 1);
        binding
    }
}

/// Ends the binding of the place, if any.
fn end_place(place: Place, space: &mut LabelSpace)
    requires { IfSome (label_in place.binding) (λ label. IsOwned space.old label) }
    ensures { space.new ≡ with_free space.old (label_in place.binding) }
{
    let Place {
        generation: _,
        binding,
    } = place;
    match binding {
        None => {}
        Some(binding) => binding.end(space),
    }
}

/// Ends the bindings of all places.
pub(crate) fn end_all(mut places: Vec<Place>, space: &mut LabelSpace)
    requires { AreReady places.items space.old }
    ensures { AreEnded places.items space.old space.new }
{
    while let Some(place) = places.pop() {
        end_place(place, space);
    }
    places.destroy_empty();
}
