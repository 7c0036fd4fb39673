//! A key that came, with the form in which a table keeps it.
ghost use Rattle.std.specs.Prelude.{◌≡◌, IfOk};
ghost use Rattle.edge_defs.specs.bgp_messages.bgp_update.Written.{IsWritableKey};

use crate::route_order::kept_key::KeptKey;
use edge_defs::of_bgp_messages::bgp_attributes::Key;
use mv_base::NoMemory;
use std::alloc::Global;
use std::marker::Model;

/// A key that has a spelling, lent, and the same as a table keeps it.
#[derive(Drop)]
pub struct TakenKey<'a> {
    key: &'a Key,
    kept: KeptKey,
}

impl<'a> Model for TakenKey<'a> {
    ghost use Rattle.std.specs.Prelude.{◌≡◌};
    ghost use Rattle.edge_defs.specs.bgp_messages.declared.bgp_attributes.key.Key.{Key};

    ghost Value = { Key };

    ghost view = { λ k. k.key.now };

    ghost invariant = { λ k. k.kept ≡ k.key.now };
}

impl<'a> TakenKey<'a> {
    /// The key, which has a spelling.
    pub fn of(alloc: Global, key: &'a Key) -> Result<TakenKey<'a>, NoMemory>
        requires { IsWritableKey key.now }
        ensures { IfOk result (λ taken. taken ≡ key.now) }
    {
        let kept = KeptKey::of(alloc, key)?;
        Ok(TakenKey { key, kept })
    }

    /// The key as a table keeps it.
    pub fn kept(&self) -> &KeptKey
        ensures { result.now ≡ self.now }
    {
        &self.kept
    }

    /// The same, where the key itself is not used any more.
    pub fn into_kept(self) -> KeptKey
        ensures { result ≡ self.entry }
    {
        let TakenKey { key: _, kept } = self;
        kept
    }

    /// The key.
    pub fn key(&self) -> &'a Key
        ensures key { result.now ≡ self.now }
        ensures writable { IsWritableKey self.now }
    {
        self.kept.show_spelled();
        self.key
    }
}
