//! Tests of single crates that no worked row of the built program shows: what an interface asks for, selections, and
//! learned selective routes. Each call that takes memory is called once with ample memory. `customers.rt`: one join,
//! and what it asks for. `tunnels.rt`: a root moves a flow after the delay, and an egress keeps the old tunnel until
//! then. Nothing goes out. Below it are `pim_state` and `selective`, the two parts of what the tree of a VRF keeps. The
//! parts of an edge above them, from `edge_labels` to `edge_routing`, and of the network, from `net_sessions` to
//! `network_events`, have no tests of their own: the rows of networks in `checks/rows/` go through them.
#![tactic(auto)]

#[cfg(test)]
mod customers;
#[cfg(test)]
mod tunnels;
