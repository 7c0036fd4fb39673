//! S-PMSI A-D routes (RFC 6514 section 12.1).
ghost use Rattle.std.specs.Prelude.{◌≡◌, OnOk, OnErr};
ghost use Rattle.bgp_values.specs.mvpn_nlri.Spelling.{IsAnyOr, IsGroup};
ghost use Rattle.edge_defs.specs.Edge.{Control, Selected};
ghost use Rattle.edge_defs.specs.Originated.{afi_by, selective_key, tunnel_value};
ghost use Rattle.edge_defs.specs.Place.{EdgePlace, tunnel_number};
ghost use Rattle.vrf_words.specs.edge_words.held_laws.Held.{with_selected, without_selected};
ghost use Rattle.held_tables.specs.Holding.{AreToldAlike, HavePartly, HoldAll, IsOwnAt, LackPartly};

use crate::keys;
use edge_routes::edge_home::OwnVrf;
use edge_routes::{tunnel_number, tunnel_value};
use edge_tables::EdgeTables;
use mv_base::{NoMemory, Pattern};

/// Each peer is to have the S-PMSI A-D route of a pattern that is selected in the VRF, with the tunnel of that number. Where memory
/// runs out, some of the tables have the change and the others are as before.
pub fn hold_selection(
    tables: &mut EdgeTables,
    own: &OwnVrf,
    pattern: &Pattern,
    number: u32,
) -> Result<(), NoMemory>
    requires { IsAnyOr (IsGroup (afi_by pattern.now.source pattern.now.group)) pattern.now.group }
    ensures held { OnOk result ((place : EdgePlace) (control : Control) (selected : Selected) → IsOwnAt place own.now →
        selected.number ≡ number → HoldAll place control tables.old →
        HoldAll place (with_selected control own.now.id pattern.now selected) tables.new) }
    ensures partly { OnErr result ((place : EdgePlace) → IsOwnAt place own.now →
        HavePartly (selective_key place own.now.local.vrf pattern.now)
        (tunnel_value place own.now.local.vrf (tunnel_number own.now.local.vrf number)) tables.old tables.new) }
    ensures told { AreToldAlike tables.old tables.new }
{
    let key = keys::selective_key(&own.local, pattern);
    let value = tunnel_value(&own.local, tunnel_number(own.local.vrf(), number));
    tables.set(&key, &value)
}

/// No peer is to have that route, as is due after the end of the selection. Where memory runs out, some of the tables have the
/// change and the others are as before.
pub fn drop_selection(
    tables: &mut EdgeTables,
    own: &OwnVrf,
    pattern: &Pattern,
) -> Result<(), NoMemory>
    requires { IsAnyOr (IsGroup (afi_by pattern.now.source pattern.now.group)) pattern.now.group }
    ensures held { OnOk result ((place : EdgePlace) (control : Control) → IsOwnAt place own.now → HoldAll place control tables.old →
        HoldAll place (without_selected control own.now.id pattern.now) tables.new) }
    ensures partly { OnErr result ((place : EdgePlace) → IsOwnAt place own.now →
        LackPartly (selective_key place own.now.local.vrf pattern.now) tables.old tables.new) }
    ensures told { AreToldAlike tables.old tables.new }
{
    let key = keys::selective_key(&own.local, pattern);
    tables.unset(&key)
}
