//! The laws at numbers as keys and values: their premises can be met.

use table_laws::{each_key, first_changes, new_table, one_change, one_list, pending_changes};

#[test]
fn numbers() {
    one_change::<u32, u32>();
    each_key::<u32, u32>();
    new_table::<u32, u32>();
    one_list::<u32, u32>();
    first_changes::<u32, u32>();
    pending_changes::<u32, u32>();
}
