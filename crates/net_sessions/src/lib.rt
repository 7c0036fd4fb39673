//! The sessions of a network. A scenario comes in, and its sessions and their directions go out; octets are put and
//! taken on a direction. `session_ways`: the sessions of a scenario as a list, both directions of each, and for each
//! node the directions that lead away from it, in the order of the definitions (`mvpn_model/specs/Sessions.antt`,
//! `network_defs/specs/Counts.antt`; RFC 4364 section 4.3.2, RFC 5036 section 2.2.3). The lines of a report that are
//! made of these are those that are made of all directions, where the others give none. `session_transit`: the octets
//! in transit over the sessions, by direction, and which sessions are joined. Each call is said by what it leaves of
//! each direction (`Joins`, `Loses`, `Puts`, `Takes`), in the shape of `octet_act` of `session_defs`. How many octets
//! there are is counted beside, so that it is reported without a walk. Below it are `network_defs` and `mvpn_model`;
//! above it the control plane of `network_acts` hands out and moves octets.
#![tactic(auto)]

pub mod session_transit;
pub mod session_ways;
