//! Room in tables.
ghost use Rattle.std.specs.Prelude.{◌≡◌, ◌<◌, OnOk};
ghost use Rattle.indexmap.specs.IndexMap.{spare, IsUnchanged, IsUnique};

use indexmap::IndexMap;
use mv_base::NoMemory;
use std::hash::Hash;

/// For how many entries a table has room at first.
const FIRST_ROOM: usize = 18;

/// Makes room for one entry more. A table that is full grows to four times its size, so that entries are moved seldom; memory
/// for those that do not come is not touched.
pub fn make_room<K: Eq + Hash, V>(table: &mut IndexMap<K, V>) -> Result<(), NoMemory>
    ensures entries { IsUnchanged table.old table.new }
    ensures ok { OnOk result (0 < spare table.new) }
    ensures unique { IsUnique K.eq table.new }
{
    let len = table.len();
    if len < table.capacity() {
        return Ok(());
    }
    table.reserve(len.saturating_mul(3).max(FIRST_ROOM))?;
    Ok(())
}
