//! Laws of tables of routes and the changes between them, for all keys and values. In each law the order of keys is
//! that of `Ord`, and the equality of values that of `PartialEq`. Where a law needs it, it asks that only equal keys
//! tie, and that exactly equal values compare as equal. Nothing comes in; what goes out are functions with empty
//! bodies: what one change does, the changes between two tables key by key, the table after them, that they are one
//! list in order (`changes.rt`), and what is pending (`pending.rt`). `specs/Words.antt` says which list the changes
//! are, with no order of computing. Everything rests on the view of a single key. There a table is one value or none,
//! the changes between two tables are one value at most, and pending changes are a list of values. The laws of tables
//! follow, since a table is what it has at each key. Below it is `mv_base` with `table_defs`. Above it `edge_tables`
//! keeps what a peer is to have in step with what it was sent, and the laws of edges and of the network use the laws
//! key by key.
#![tactic(auto)]

mod changes;
mod pending;

pub use changes::{each_key, first_changes, new_table, one_change, one_list};
pub use pending::pending_changes;
