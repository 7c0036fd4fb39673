//! Laws of ingress replication (RFC 7988; RFC 6514 sections 4.4 and 5). Nothing comes in; each law is a function with an
//! empty body. Which routes are answered and with what octets, and which copies a root sends, are said as relations, with
//! no order of tests (`laws.rt`, `specs/Meaning.antt`). What a text of peers comes to is said of all octets of a peer, end
//! to end: the copies are of the routes that these leave before their first fault, so of the last answers where they are
//! answers (`texts.rt`, `specs/Answered.antt`), and one line at most shows that fault (`specs/Refused.antt`). Below it are
//! the definitions that the code follows (`ingress_rep`, `ingress_text`).
#![tactic(auto)]

mod laws;
mod texts;

pub use laws::{answers_are, copies_are};
pub use texts::{
    answers_are_routes, copies_are_of_routes, last_answers_are_copied, leaf_lines_are_answers,
    refused_lines_bring_faults, refused_peers_have_faults, texts_meet_the_premise,
};
