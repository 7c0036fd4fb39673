//! Tests of single crates that no worked row of the built program shows: cores, labels and label nodes. Each call that
//! takes memory is called once with ample memory. `walks.rt` and `paths.rt`: small cores. `forwarding.rt`: packets of
//! customers and a forwarding table. `labels.rt`: a table of labels and what they are used for. `label_nodes.rt`: three
//! label nodes that hand octets to each other, by places that are data (`specs/Sites.antt`). Nothing goes out. Below it
//! are `core_paths`, `tunnel_bindings`, `label_forwarding`, `label_trees` and `mldp_node`, and the definitions that
//! their contracts speak in; `tunnel_bindings` has tests of a few labels of its own.
#![tactic(auto)]

#[cfg(test)]
mod forwarding;
#[cfg(test)]
mod label_nodes;
#[cfg(test)]
mod labels;
#[cfg(test)]
mod paths;
#[cfg(test)]
mod walks;
