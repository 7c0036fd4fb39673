//! Octets that lie in the value itself.
ghost use Rattle.std.specs.Prelude.{◌≡◌, ◌≤◌, length, nat_eq};
ghost use Rattle.std.specs.Cmp.Lexicographic.{pointwise};
ghost use Rattle.std.specs.Option.{SomeIff};

use crate::alike::same_octets;
use std::hash::{Hash, Hasher};
use std::marker::Model;

/// At most `N` octets, which contracts see as their list.
#[derive(Clone, Copy)]
pub struct Inline<const N: usize> {
    octets: [u8; N],
    len: usize,
}

impl<const N: usize> Model for Inline<N> {
    ghost use Rattle.std.specs.Prelude.{◌≡◌, ◌≤◌, ◌-◌, ◌++◌, ℕ, List, length, take, drop, replicate};
    ghost use Rattle.mv_base.specs.Padding.{octets_back, len_back};

    ghost Value = { List ℕ };

    ghost view = { λ o. take o.len o.octets };

    ghost invariant = { λ o. (o.len ≤ N) × (length o.octets ≡ N) × (drop o.len o.octets ≡ replicate (N - o.len) 0) };

    ghost inverse = { λ xs. record { octets = xs ++ replicate (N - length xs) 0; len = length xs } };

    ghost inverse_ok = { λ o h i. record {
      octets = octets_back N o.len o.octets h.0 h.1 h.2 i;
      len = len_back N o.len o.octets h.0 h.1 i;
    } };
}

impl<const N: usize> Inline<N> {
    /// These octets, where they fit.
    pub fn of(bytes: &[u8]) -> Option<Inline<N>>
        ensures { SomeIff result (length bytes.now ≤ N) bytes.now }
    {
        if bytes.len() > N {
            return None;
        }
        let mut octets = [0; N];
        let (front, _spare) = octets.split_at_mut(bytes.len());
        front.copy_from_slice(bytes);
        Some(Inline {
            octets,
            len: bytes.len(),
        })
    }

    /// The octets.
    pub fn octets(&self) -> &[u8]
        ensures value { result.now ≡ self.now }
        ensures within { length self.now ≤ N }
    {
        &self.octets[..self.len]
    }
}

impl<const N: usize> PartialEq for Inline<N> {
    ghost use Rattle.std.specs.Prelude.{nat_eq};
    ghost use Rattle.std.specs.Cmp.{partial_equiv_from_equiv};
    ghost use Rattle.std.specs.Cmp.Lexicographic.{pointwise, nat_list_eq_equiv};

    ghost eq = { pointwise nat_eq };

    ghost laws = { partial_equiv_from_equiv nat_list_eq_equiv };

    fn eq(&self, other: &Self) -> bool {
        same_octets(self.octets(), other.octets())
    }
}

impl<const N: usize> Eq for Inline<N> {
    ghost use Rattle.std.specs.Cmp.Lexicographic.{nat_list_eq_equiv};

    ghost laws = { nat_list_eq_equiv };
}

impl<const N: usize> Hash for Inline<N> {
    ghost use Rattle.std.specs.Prelude.{[], ◌∷◌};
    ghost use Rattle.mv_base.specs.Padding.{octets_alike};

    // All in one write: octet by octet takes several times as long.
    ghost hash_input = { λ octets. octets ∷ [] };

    ghost respects_eq = { octets_alike };

    fn hash<H: Hasher>(&self, state: &mut H) {
        state.write(self.octets());
    }
}
