//! The label space of a node.
ghost use Rattle.std.specs.Prelude.{◌≡◌, ◌<◌, ◌≤◌, ◌+◌, ◌^◌, Some, length, replicate};
ghost use Rattle.std.specs.Prelude.{count_by, filter, not, vec_capacity, IfOk, IfSome, IfNone};
ghost use Rattle.std.specs.List.{All};
ghost use Rattle.tunnel_bindings.specs.declared.state.LabelState.TheVariants as LabelState;
ghost use Rattle.tunnel_bindings.specs.Labels.{IsOwned, IsLeastFree, NoneFree, set_label, wake_all, due_in};
ghost use Rattle.tunnel_bindings.specs.Resting.{freed, is_past};

use crate::numbers::Numbers;
use crate::state::{LabelState, Rest};
use mv_base::NoMemory;
use std::alloc::Global;
use std::marker::Model;

/// The least label. 0 to 15 are reserved (RFC 3032 section 2.1).
const LEAST_LABEL: u32 = 16;

/// Each number whose rest is over is free.
fn free_rested(numbers: &mut Numbers, rests: &[Rest], now: u64)
    requires { All (λ rest. rest.number < length numbers.old) rests.now }
    ensures { numbers.new ≡ freed now rests.now numbers.old }
{
    for rest in rests {
        if rest.until <= now {
            numbers.set(rest.number as usize, LabelState::Free);
        }
    }
}

/// Keeps the rests that are not over.
fn keep_resting(rests: &mut Vec<Rest>, now: u64)
    ensures items { rests.new.items ≡ filter (λ rest. not (is_past now rest)) rests.old.items }
    ensures capacity { vec_capacity rests.new ≡ vec_capacity rests.old }
{
    rests.retain(|rest| rest.until > now);
}

/// How many rests are over.
fn count_rested(rests: &[Rest], now: u64) -> u64
    ensures { result ≡ count_by (is_past now) rests.now }
{
    rests.iter().filter(|rest| rest.until <= now).count() as u64
}

/// The label numbers of a node, from 16 on: each is free, owned, or rests until a moment. It has all its memory from the
/// beginning.
#[derive(Drop)]
pub struct LabelSpace {
    life: u64,
    numbers: Numbers,
    rests: Vec<Rest>,
}

impl Model for LabelSpace {
    ghost use Rattle.std.specs.Prelude.{◌≤◌, length, vec_capacity};
    ghost use Rattle.tunnel_bindings.specs.Labels.{Space};
    ghost use Rattle.tunnel_bindings.specs.Resting.{IsSpace};

    ghost Value = { Space };

    ghost view = { λ s. record { life = s.life; states = s.numbers } };

    ghost invariant = { λ s. IsSpace s.life s.numbers s.rests.items (vec_capacity s.rests) };
}

impl LabelSpace {
    /// So many labels from 16 on, each free. A label that is released rests for `life` ticks and one more, so that no copy
    /// that was sent under it is on a link any more. No later call takes memory.
    pub fn of(alloc: Global, count: u32, life: u64) -> Result<LabelSpace, NoMemory>
        requires few { count ≤ 65536 }
        requires short { life ≤ 1000 }
        ensures { IfOk result (λ space. space ≡ record { life = life; states = replicate count LabelState.Free }) }
    {
        let numbers = Numbers::of(alloc, count as usize)?;
        let rests = Vec::with_capacity(alloc, count as usize)?;
        Ok(LabelSpace {
            life,
            numbers,
            rests,
        })
    }

    /// Each label whose rest is over is free.
    pub fn wake(&mut self, now: u64)
        ensures { self.new ≡ wake_all now self.old }
    {
        free_rested(&mut self.numbers, &self.rests, now);
        keep_resting(&mut self.rests, now);
    }

    /// How many labels' rests are over.
    pub fn due(&self, now: u64) -> u64
        ensures { result ≡ due_in now self.now }
    {
        count_rested(&self.rests, now)
    }

    /// Takes the least free label, which is owned then.
    pub(crate) fn take(&mut self) -> Option<u32>
        ensures least { IfSome result (λ label. IsLeastFree self.old label) }
        ensures owned { IfSome result (λ label. self.new ≡ set_label self.old label LabelState.Owned) }
        ensures none { IfNone result (NoneFree self.old) }
        ensures unchanged { IfNone result (self.new ≡ self.old) }
    {
        let number = self.numbers.least_free()?;
        self.numbers.set(number, LabelState::Owned);
        Some(LEAST_LABEL + number as u32)
    }

    /// The label, which is owned, is free.
    pub(crate) fn free(&mut self, label: u32)
        requires { IsOwned self.old label }
        ensures { self.new ≡ set_label self.old label LabelState.Free }
    {
        let number = label - LEAST_LABEL;
        self.numbers.set(number as usize, LabelState::Free);
    }

    /// The label, which is owned, rests from now on for the life of a copy and one tick more.
    pub(crate) fn rest(&mut self, label: u32, now: u64)
        requires owned { IsOwned self.old label }
        requires now { now < 2 ^ 63 }
        ensures { self.new ≡ set_label self.old label (LabelState.Resting (now + self.old.life + 1)) }
    {
        let number = label - LEAST_LABEL;
        let until = now + self.life + 1;
        self.numbers
            .set(number as usize, LabelState::Resting(until));
        self.rests.push(Rest { number, until }).unwrap();
    }
}
