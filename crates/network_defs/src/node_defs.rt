//! Nodes as their callers see them: what their steps put, in octets, and an edge with the octets that wait for its sessions and
//! those that its streams hold back.
