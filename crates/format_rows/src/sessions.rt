//! The laws at numbers as states and calls.

use edge_streams::of_network_defs::session_defs::{
    a_message_cut_in_two, moves_deliver, octets_carry_messages,
};

#[test]
fn numbers() {
    octets_carry_messages::<u32, u32>();
    moves_deliver::<u32, u32>();
    a_message_cut_in_two();
}
