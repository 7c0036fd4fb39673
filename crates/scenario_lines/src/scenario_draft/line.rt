//! What one line says.
use crate::scenario_draft::setting::Setting;
use mv_base::{IfaceId, Link, NodeId, SiteId, VrfId};
use scenario_defs::{Event, Iface, Node, Site, Vrf};

/// What one line says. A thing that is declared has its number.
#[derive(Drop)]
pub enum Line {
    Blank,
    Setting { setting: Setting, value: u64 },
    Node { id: NodeId, node: Node },
    Link { link: Link },
    Vrf { id: VrfId, vrf: Vrf },
    Site { id: SiteId, site: Site },
    Iface { id: IfaceId, iface: Iface },
    Events,
    Event { event: Event },
}
