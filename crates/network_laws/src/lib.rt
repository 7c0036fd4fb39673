//! Laws of the whole network of `network_defs`: its nodes are honest, so a run in octets is a run in messages. Nothing
//! comes in; each law is a function with an empty body. `specs/Sound.antt` says what the values that nodes keep are
//! made of (RFC 4271 section 4.3, RFC 5036, RFC 6388, RFC 6514 section 4), `Honest` has their system with sound calls
//! alone, `SoundRun` sound runs, `Costs` and `Limits` what stays of costs and of limits. In `proofs/`, the `Bgp` files
//! show that what an edge puts over BGP is spelled, the `Control` files that what it keeps stays sound, the `Label`
//! files both of the label part, `NodeCalls` and `Nodes` put them together, and the `Run` files go over acts, events
//! and runs. `core_laws`: each scenario has cores, at whatever costs of its links: links at other costs make a
//! connected core as well, the rounds of `core_paths` make the rows, and the rows make the cores. `ready_laws`: which
//! sessions are ready is a fold over the accepted events (`mvpn_model/specs/Unready.antt`), and the network agrees.
//! Below it are `network_defs`, the codecs and `core_paths`; above it are all laws of runs, `wire_laws` and
//! `network_acts`.
#![tactic(auto)]

pub mod core_laws;
mod laws;
pub mod ready_laws;

pub use laws::{
    limits_hold, moves_of_the_network_deliver, nodes_are_honest, nodes_know_the_present_costs,
    octets_of_the_network_carry_messages, runs_stay_sound, start_is_sound,
};
