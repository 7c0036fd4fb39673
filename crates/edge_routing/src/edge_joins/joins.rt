//! The joins of flows in the tables of peers (RFC 6514 section 11.1.3).
ghost use Rattle.std.specs.Prelude.{◌≡◌, ◌∷◌, List, All, OnOk, OnErr};
ghost use Rattle.mv_base.specs.declared.ids.NodeId.{NodeId};
ghost use Rattle.bgp_values.specs.mvpn_nlri.Spelling.{IsGroup};
ghost use Rattle.bgp_messages.specs.declared.bgp_attributes.key.Key.{Key};
ghost use Rattle.bgp_messages.specs.bgp_update.Written.{afi_of};
ghost use Rattle.mv_base.specs.core_walks.Core.{Core};
ghost use Rattle.edge_routes.specs.edge_home.Home.{place_of};
ghost use Rattle.vrf_words.specs.tree_laws.Joins.{AreOfVrfs};
ghost use Rattle.control_laws.specs.Control.{control_of};
ghost use Rattle.held_tables.specs.Holding.{AreToldAlike, HoldAll};
ghost use Rattle.held_tables.specs.Joins.{HoldAllBut};
ghost use Rattle.edge_routing.specs.edge_joins.Keys.{key_of, keys_of};
ghost use Rattle.edge_routing.specs.edge_joins.Upstreams.{HaveIpv4Imports};

use crate::edge_joins::upstreams::{first_import, remote};
use edge_control::EdgeControl;
use edge_control::of_edge_tables::EdgeTables;
use edge_control::of_vrf_trees::TreeJoin;
use held_tables::{drop_join, hold_join};
use mv_base::NoMemory;

/// The peer of the join is to have it where it is still the join of a flow's first VRF, and else not.
fn hold_one(tables: &mut EdgeTables, control: &EdgeControl, join: &TreeJoin) -> Result<(), NoMemory>
    requires { IsGroup (afi_of join.now.source) join.now.group }
    ensures held { OnOk result ((core : Core) (but : List (NodeId × Key)) → let place = place_of control.now.home core in
        AreOfVrfs place (control_of control.now) → HaveIpv4Imports (control_of control.now) →
        HoldAllBut place (control_of control.now) (key_of join.now ∷ but) tables.old →
        HoldAllBut place (control_of control.now) but tables.new) }
    ensures unchanged { OnErr result (tables.new ≡ tables.old) }
    ensures told { AreToldAlike tables.old tables.new }
{
    let vrfs = control.home().vrfs();
    match remote(join, first_import(join, control.trees())) {
        Some(upstream) => match vrfs.first() {
            // The join says the address of the edge, as each of its VRFs has it.
            Some(own) => hold_join(tables, own, join.edge, &upstream, join.source, join.group),
            None => unreachable!(),
        },
        None => drop_join(
            tables,
            join.edge,
            join.rd,
            join.source_as,
            join.source,
            join.group,
        ),
    }
}

/// Each peer is to have the joins of the flows as they are: of those that are listed each one is made that is still the join of a flow's
/// first VRF, and each other one is taken back (RFC 6514 section 11.1.3). Where memory runs out, some of them are done, and no other one
/// is still to be changed.
pub fn hold_joins(
    tables: &mut EdgeTables,
    control: &EdgeControl,
    joins: &[TreeJoin],
) -> Result<(), NoMemory>
    requires groups { All (λ join. IsGroup (afi_of join.source) join.group) joins.now }
    ensures held { OnOk result ((core : Core) → let place = place_of control.now.home core in
        AreOfVrfs place (control_of control.now) → HaveIpv4Imports (control_of control.now) →
        HoldAllBut place (control_of control.now) (keys_of joins.now) tables.old →
        HoldAll place (control_of control.now) tables.new) }
    ensures left { OnErr result ((core : Core) → let place = place_of control.now.home core in
        AreOfVrfs place (control_of control.now) → HaveIpv4Imports (control_of control.now) →
        HoldAllBut place (control_of control.now) (keys_of joins.now) tables.old →
        HoldAllBut place (control_of control.now) (keys_of joins.now) tables.new) }
    ensures told { AreToldAlike tables.old tables.new }
{
    for join in joins {
        hold_one(tables, control, join)?;
    }
    Ok(())
}
