//! Source Active A-D routes (RFC 6514 section 14.1).
ghost use Rattle.std.specs.Prelude.{◌≡◌, true, OnOk, OnErr};
ghost use Rattle.mv_base.specs.declared.ids.IfaceId.{IfaceId};
ghost use Rattle.bgp_values.specs.mvpn_nlri.Spelling.{IsGroup};
ghost use Rattle.bgp_messages.specs.bgp_update.Written.{afi_of};
ghost use Rattle.edge_defs.specs.Edge.{Control};
ghost use Rattle.edge_defs.specs.Originated.{active_key, is_iface_of, plain_value};
ghost use Rattle.edge_defs.specs.Place.{EdgePlace};
ghost use Rattle.edge_routes.specs.edge_home.Home.{as_own};
ghost use Rattle.vrf_words.specs.edge_words.held_laws.Held.{IsNotedBeside, note_of, with_note, without_note};
ghost use Rattle.held_tables.specs.Holding.{AreToldAlike, HavePartly, HoldAll, IsOwnAt, LackPartly};

use crate::keys;
use edge_routes::edge_home::OwnVrf;
use edge_routes::plain_value;
use edge_tables::EdgeTables;
use mv_base::{Addr, NoMemory};

/// Each peer is to have the Source Active A-D route for a source that sends to the group, as is due after a note of them at an
/// interface of the VRF. Where memory runs out, some of the tables have the change and the others are as before.
pub fn hold_source(
    tables: &mut EdgeTables,
    own: &OwnVrf,
    source: Addr,
    group: Addr,
) -> Result<(), NoMemory>
    requires { IsGroup (afi_of source) group }
    ensures held { OnOk result ((place : EdgePlace) (control : Control) (iface : IfaceId) → IsOwnAt place own.now →
        is_iface_of place.scenario own.now.id iface ≡ true → HoldAll place control tables.old →
        HoldAll place (with_note control (note_of iface source group)) tables.new) }
    ensures partly { OnErr result ((place : EdgePlace) → IsOwnAt place own.now →
        HavePartly (active_key own.now.local.vrf source group) (plain_value place own.now.local.vrf) tables.old tables.new) }
    ensures told { AreToldAlike tables.old tables.new }
{
    let key = keys::active_key(&own.local, source, group);
    let value = plain_value(&own.local);
    tables.set(&key, &value)
}

/// No peer is to have that route, as is due after the end of the last note of them at an interface of the VRF. Where memory runs
/// out, some of the tables have the change and the others are as before.
pub fn drop_source(
    tables: &mut EdgeTables,
    own: &OwnVrf,
    source: Addr,
    group: Addr,
) -> Result<(), NoMemory>
    requires { IsGroup (afi_of source) group }
    ensures held { OnOk result ((place : EdgePlace) (control : Control) (iface : IfaceId) → IsOwnAt place own.now →
        is_iface_of place.scenario own.now.id iface ≡ true →
        ¬ (IsNotedBeside place control (as_own own.now) (note_of iface source group)) → HoldAll place control tables.old →
        HoldAll place (without_note control (note_of iface source group)) tables.new) }
    ensures partly { OnErr result (LackPartly (active_key own.now.local.vrf source group) tables.old tables.new) }
    ensures told { AreToldAlike tables.old tables.new }
{
    let key = keys::active_key(&own.local, source, group);
    tables.unset(&key)
}
