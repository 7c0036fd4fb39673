//! The UPDATE messages of changes.
ghost use Rattle.std.specs.Prelude.{◌≡◌, ◌≤◌, ◌++◌, length, IfOk, OnOk, OnErr};
ghost use Rattle.bgp_messages.specs.declared.bgp_attributes.update.Change.TheVariants as updates;
ghost use Rattle.bgp_messages.specs.bgp_update.Written.{IsWritable, IsWritableAdvert, written};
ghost use Rattle.edge_defs.specs.Messages.{as_update};
ghost use Rattle.edge_tables.specs.Tables.{IsFront, advert_of, texts};

use crate::rib_sync::Pending;
use crate::slot::{SharedKey, SharedValue};
use bgp_messages::bgp_attributes::{Advert, Change as Update, Comms};
use bgp_messages::bgp_update::EncodeFault;
use edge_routes::route_order::{TableKey, TableValue};
use mv_base::table_defs::Change;
use mv_base::{Bytes, NoMemory};
use std::alloc::Global;

/// The route that is announced.
#[tactic(auto, using(crate::proofs::WrittenLemmas::advert_writable))]
fn advert(alloc: Global, key: &TableKey, value: &TableValue) -> Result<Advert, NoMemory>
    ensures advert { IfOk result (λ advert. advert ≡ advert_of key.now value.now) }
    ensures writable { IsWritableAdvert (advert_of key.now value.now) }
    ensures short { length (written (updates.Reach (advert_of key.now value.now))) ≤ 4096 }
{
    let next_hop = value.next_hop();
    let named = *key.key();
    let comms = Vec::from_slice(alloc, value.comms())?;
    Ok(Advert {
        key: named,
        next_hop,
        comms: Comms::from_vec(comms),
        pmsi: *value.pmsi(),
    })
}

/// The UPDATE message that announces the route.
pub(crate) fn announced(
    alloc: Global,
    key: &TableKey,
    value: &TableValue,
) -> Result<Bytes, NoMemory>
    ensures { IfOk result (λ text. text ≡ written (updates.Reach (advert_of key.now value.now))) }
{
    let advert = advert(alloc, key, value)?;
    match bgp_messages::bgp_update::encode(alloc, &Update::Reach(advert)) {
        Ok(text) => Ok(text),
        Err(EncodeFault::NoMemory) => Err(NoMemory),
        Err(EncodeFault::TooLong) => unreachable!(),
    }
}

/// The change that withdraws the route of the key.
fn withdrawal(key: &TableKey) -> Update
    ensures update { result ≡ updates.Unreach key.now }
    ensures writable { IsWritable result }
    ensures short { length (written result) ≤ 4096 }
{
    Update::Unreach(*key.key())
}

/// Appends the UPDATE message that withdraws the route of the key.
fn put_withdrawal(out: &mut Bytes, key: &TableKey) -> Result<(), NoMemory>
    ensures ok { OnOk result (out.new ≡ out.old ++ written (updates.Unreach key.now)) }
    ensures err { OnErr result (out.new ≡ out.old) }
{
    let update = withdrawal(key);
    match bgp_messages::bgp_update::encode(out.alloc(), &update) {
        Ok(text) => out.extend(text.as_slice()),
        Err(EncodeFault::NoMemory) => Err(NoMemory),
        Err(EncodeFault::TooLong) => unreachable!(),
    }
}

/// Appends the UPDATE message of the change.
fn put_change(out: &mut Bytes, change: &Change<SharedKey, SharedValue>) -> Result<(), NoMemory>
    ensures ok { OnOk result (out.new ≡ out.old ++ written (as_update change.now)) }
    ensures err { OnErr result (out.new ≡ out.old) }
{
    match change {
        Change::Reach(key, value) => value.lent().put(out, key.lent()),
        Change::Unreach(key) => put_withdrawal(out, key.lent()),
    }
}

/// Appends the UPDATE messages of the changes, one for each. Where memory runs out some first ones of them are there.
pub(crate) fn put_changes(
    out: &mut Bytes,
    mut pending: Pending<SharedKey, SharedValue>,
) -> Result<(), NoMemory>
    ensures ok { OnOk result (out.new ≡ out.old ++ texts pending) }
    ensures err { OnErr result (IsFront pending out.old out.new) }
{
    while let Some(change) = pending.next() {
        put_change(out, &change)?;
    }
    Ok(())
}
