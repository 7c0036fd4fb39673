//! Of which tunnels an edge is to be a leaf.
ghost use Rattle.std.specs.Prelude.{◌≡◌, true, IfOk};
ghost use Rattle.std.specs.List.{filter, list_any};
ghost use Rattle.std.specs.FinSet as sets;
ghost use Rattle.mv_base.specs.core_walks.Core.{Core};
ghost use Rattle.label_defs.specs.LabelData.{same_fec};
ghost use Rattle.mldp.specs.declared.mldp_fec.fec.Fec as fecs;
ghost use Rattle.vrf_words.specs.tree_defs.Trees.{TreeData};
ghost use Rattle.edge_defs.specs.Tunnels.{leaves};
ghost use Rattle.edge_routes.specs.edge_home.Home.{place_of};
ghost use Rattle.control_laws.specs.Control.{AreTrees, control_of};

use crate::edge_leaves::inclusive::is_inclusive;
use edge_control::EdgeControl;
use edge_control::of_vrf_trees::VrfTree;
use edge_routes::route_order::KeptKey;
use mldp::mldp_fec::Fec;
use mv_base::NoMemory;
use std::alloc::Global;

/// Whether a flow of one of the VRFs wanted the selective tunnel at the last refresh.
fn is_wanted(trees: &[VrfTree], fec: &Fec) -> bool
    ensures { result ≡ list_any (λ (tree : TreeData). sets.contains tree.wants fec.now) trees.now }
{
    trees.iter().any(|tree| tree.is_wanted(fec))
}

/// Whether the edge is to be a leaf of the tunnel: a VRF imports an inclusive route of it, or a flow of a VRF wants it (RFC 6514 sections
/// 9.1.2 and 12.3). Flows are looked at first: that is one look-up at each VRF, where a search for an inclusive route goes through the
/// table of its root.
fn wants(control: &EdgeControl, fec: &Fec, near: Option<&KeptKey>) -> bool
    requires { AreTrees control.now }
    ensures { (core : Core) → result ≡ sets.contains (leaves (place_of control.now.home core) (control_of control.now)) fec.now }
{
    is_wanted(control.trees(), fec) || is_inclusive(control, fec, near)
}

/// Those of the tunnels of which the edge is to be a leaf, in their order. A route of that key is looked at first for each.
pub fn wanted_of(
    control: &EdgeControl,
    alloc: Global,
    fecs: &[Fec],
    near: Option<&KeptKey>,
) -> Result<Vec<Fec>, NoMemory>
    requires { AreTrees control.now }
    ensures wanted { (core : Core) → IfOk result (λ found. (fec : Fec) → list_any (same_fec fec) fecs.now ≡ true →
        list_any (same_fec fec) found.items ≡ sets.contains (leaves (place_of control.now.home core) (control_of control.now)) fec) }
    ensures only { (core : Core) → IfOk result (λ found. found.items
        ≡ filter (λ fec. sets.contains (leaves (place_of control.now.home core) (control_of control.now)) fec) fecs.now) }
{
    let mut found = Vec::new(alloc);
    for fec in fecs {
        if wants(control, fec, near) {
            found.push(*fec)?;
        }
    }
    Ok(found)
}
