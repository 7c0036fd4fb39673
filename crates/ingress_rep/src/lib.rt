//! Ingress replication (RFC 7988; RFC 6514 sections 4.4 and 5): a root announces a selective route with a tunnel of
//! type 6 that asks for leaf information, each leaf answers with a Leaf A-D route that has a label of its own, and the
//! root sends one copy to each leaf under that label. A route that was announced comes in, and the octets of a leaf's
//! answer go out (`answer` in `answering.rt`); the routes that were taken of each peer come in, and the copies go out
//! (`copies` in `copying.rt`). `request.rt` tells which routes are answered, and `specs/Ingress.antt` says all of it:
//! what is asked, what is answered, and which copies are sent. Below it
//! are the values and messages of BGP (`bgp_values`, `bgp_messages`); above it `ingress_text` reads and writes the
//! lines of the command.
#![tactic(auto)]

mod answering;
mod copying;
mod request;

pub use answering::answer;
pub use copying::{Copies, LeafCopy, TakenTable, TakenTables, copies};
pub use request::{Request, is_answer, request_of};
