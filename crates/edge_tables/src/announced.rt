//! A route's value with the message that announces it.
ghost use Rattle.std.specs.Prelude.{◌≡◌, ◌++◌, true, IfOk, OnOk, OnErr};
ghost use Rattle.bgp_messages.specs.declared.bgp_attributes.update.Change.TheVariants.{Reach};
ghost use Rattle.bgp_messages.specs.bgp_update.Written.{written};
ghost use Rattle.edge_tables.specs.Tables.{advert_of};

use crate::slot::{SharedKey, SharedValue};
use crate::writing::announced;
use edge_routes::Shared;
use edge_routes::route_order::{TableKey, TableValue};
use mv_base::{Bytes, NoMemory};
use std::alloc::Global;
use std::marker::Model;

/// The value of a route, and the UPDATE message that announces it at this key, which is written once for all peers.
#[derive(Drop)]
pub(crate) struct Announced {
    key: SharedKey,
    value: TableValue,
    text: Bytes,
}

impl Model for Announced {
    ghost use Rattle.edge_defs.specs.Keys.{Value as RouteValue};
    ghost use Rattle.std.specs.Prelude.{◌≡◌};
    ghost use Rattle.bgp_messages.specs.declared.bgp_attributes.update.Change.TheVariants.{Reach};
    ghost use Rattle.bgp_messages.specs.bgp_update.Written.{written};
    ghost use Rattle.edge_tables.specs.Tables.{advert_of};

    ghost Value = { RouteValue };

    ghost view = { λ a. a.value };

    ghost invariant = { λ a. a.text ≡ written (Reach (advert_of a.key a.value)) };
}

/// Whether these are the same key.
#[tactic(auto, using(edge_defs::proofs::KeyLemmas::key_exact))]
fn same_key(own: &TableKey, other: &TableKey) -> bool
    ensures { result ≡ true → own.now ≡ other.now }
{
    own == other
}

impl Announced {
    /// The value, with its message at the key.
    pub(crate) fn of(
        alloc: Global,
        key: &SharedKey,
        value: &TableValue,
    ) -> Result<SharedValue, NoMemory>
        ensures { IfOk result (λ announced. announced ≡ value.now) }
    {
        let text = announced(alloc, key.lent(), value)?;
        let key = key.share()?;
        Shared::of(
            alloc,
            Announced {
                key,
                value: *value,
                text,
            },
        )
    }

    /// Appends the message that announces the value at the key.
    pub(crate) fn put(&self, out: &mut Bytes, key: &TableKey) -> Result<(), NoMemory>
        ensures ok { OnOk result (out.new ≡ out.old ++ written (Reach (advert_of key.now self.now))) }
        ensures err { OnErr result (out.new ≡ out.old) }
    {
        if same_key(self.key.lent(), key) {
            return out.extend(self.text.as_slice());
        }
        let text = announced(out.alloc(), key, &self.value)?;
        out.extend(text.as_slice())
    }
}

impl PartialEq for Announced {
    ghost use Rattle.std.specs.Cmp.{partial_equiv_from_equiv};
    ghost use Rattle.edge_defs.specs.Keys.{same_value};
    ghost use Rattle.edge_routes.specs.route_order.Values.{same_value_equiv};

    ghost eq = { same_value };

    ghost laws = { partial_equiv_from_equiv same_value_equiv };

    fn eq(&self, other: &Announced) -> bool {
        self.value == other.value
    }
}

impl Eq for Announced {
    ghost use Rattle.edge_routes.specs.route_order.Values.{same_value_equiv};

    ghost laws = { same_value_equiv };
}
