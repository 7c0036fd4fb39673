//! What a text says.
use mv_base::NodeId;
use probe_defs::ProbeLines;
use scenario_defs::Scenario;

/// The edge that is asked, and the peer whose octets come.
#[derive(Clone, Copy)]
pub struct Ends {
    pub edge: NodeId,
    pub peer: NodeId,
}

/// A scenario, two of its edges, and the lines that the first one is given.
#[derive(Drop)]
pub struct ProbeText {
    pub scenario: Scenario,
    pub ends: Ends,
    pub lines: ProbeLines,
}
