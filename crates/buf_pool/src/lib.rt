//! Shared buffers of octets in raw memory, each with a count of those who hold it: one buffer for all copies of a
//! datagram. Octets come in under a name, holders are counted up and down, and the octets go out while the buffer is
//! live; it is given back with its last holder. Contracts see a finite map from name to octets and count (`pool.rt`;
//! `specs/Held.antt` says live, shared, given back). `table.rt` and `node.rt` have the blocks by name, which of them
//! are free, and the chain that leads from one free block to the next; `block.rt` has one value in a block of raw
//! memory that owns it, and its `put`, `get`, `share` and `give_back` are the only functions that touch a pointer.
//! `specs/Ownership.antt` and `Block.antt` say what a block owns, `Table.antt` and `Stock.antt` how the blocks make the
//! buffers. What a caller needs is in `proofs/CallerLemmas.antt`: a buffer that was put is live, and other buffers
//! stay. Below it is `mv_base`; above it `data_plane` has the copies on links.
#![tactic(auto)]

mod block;
mod laws;
mod node;
mod pool;
mod table;

pub use laws::each_buffer;
pub use pool::{Buf, Pool};
