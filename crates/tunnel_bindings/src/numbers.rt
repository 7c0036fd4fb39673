//! The states of numbers, and which of them are free.
ghost use Rattle.std.specs.Prelude.{◌≡◌, ◌<◌, ◌≤◌, ◌+◌, ◌-◌, ◌*◌, ◌++◌, length, replicate, slice_set, vec_capacity, IfOk, IfSome, IfNone};
ghost use Rattle.tunnel_bindings.specs.declared.state.LabelState.TheVariants as LabelState;
ghost use Rattle.tunnel_bindings.specs.Numbers.{IsFirstFree, NoFree, AreMarked};

use crate::marks::Marks;
use crate::state::LabelState;
use mv_base::NoMemory;
use std::alloc::Global;
use std::marker::Model;

/// What each of so many numbers is, and the set of the free ones. There is room for the states of all, but only those of the
/// first numbers are written, as far as one was ever changed: each number after these is free, and not in the set. So memory
/// that no number needed is never touched.
#[derive(Drop)]
pub(crate) struct Numbers {
    count: usize,
    states: Vec<LabelState>,
    free: Marks,
}

impl Model for Numbers {
    ghost use Rattle.std.specs.Prelude.{List, vec_capacity};
    ghost use Rattle.tunnel_bindings.specs.declared.state.LabelState.{LabelState};
    ghost use Rattle.tunnel_bindings.specs.Numbers.{IsWritten, all_of};

    ghost Value = { List LabelState };

    ghost view = { λ n. all_of n.count n.states.items };

    ghost invariant = { λ n. IsWritten n.count n.states.items (vec_capacity n.states) n.free };
}

/// Writes the states of the numbers up to this one, as far as they are not written yet.
fn reach(states: &mut Vec<LabelState>, free: &mut Marks, number: usize)
    requires room { number < vec_capacity states.old }
    requires marks { number < 64 * length free.old }
    requires marked { AreMarked states.old.items free.old }
    ensures items { states.new.items ≡ states.old.items ++ replicate (number + 1 - length states.old.items) LabelState.Free }
    ensures capacity { vec_capacity states.old ≤ vec_capacity states.new }
    ensures marks { length free.new ≡ length free.old }
    ensures marked { AreMarked states.new.items free.new }
{
    'written: while states.len() <= number {
        free.insert(states.len());
        states.push(LabelState::Free).unwrap();
    }
}

impl Numbers {
    /// So many numbers, each free.
    pub(crate) fn of(alloc: Global, count: usize) -> Result<Numbers, NoMemory>
        requires { count ≤ 65536 }
        ensures { IfOk result (λ numbers. numbers ≡ replicate count LabelState.Free) }
    {
        let states = Vec::with_capacity(alloc, count)?;
        let free = Marks::of(alloc, count)?;
        Ok(Numbers {
            count,
            states,
            free,
        })
    }

    /// The least free number.
    pub(crate) fn least_free(&self) -> Option<usize>
        ensures some { IfSome result (λ number. IsFirstFree self.now number) }
        ensures none { IfNone result (NoFree self.now) }
    {
        if let Some(number) = self.free.least() {
            return Some(number);
        }
        if self.states.len() < self.count {
            return Some(self.states.len());
        }
        None
    }

    /// The number becomes so.
    pub(crate) fn set(&mut self, number: usize, state: LabelState)
        requires { number < length self.old }
        ensures { self.new ≡ slice_set self.old number state }
    {
        reach(&mut self.states, &mut self.free, number);
        self.states[number] = state;
        match state {
            LabelState::Free => self.free.insert(number),
            _ => self.free.remove(number),
        }
    }
}
