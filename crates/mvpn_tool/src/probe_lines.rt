//! The lines of what one edge makes of the octets of a peer.
ghost use Rattle.std.specs.Prelude.{◌≡◌, ◌++◌, OnOk};
ghost use Rattle.std.specs.List.{flat_map};
ghost use Rattle.probe_text.specs.probe_defs.Imports.{imports_by};
ghost use Rattle.mvpn_tool.specs.ProbeLines.{import_line, named_import, refused_text, report_text, vrf_name, want_line};

use bgp_messages::bgp_attributes::{Key, StreamFault};
use mldp::mldp_fec::Fec;
use mv_base::{Bytes, NoMemory, VrfId};
use probe_text::of_probe_defs::{Imports, ProbeReport, VrfImports};
use report_text::put_number;
use scenario_defs::Scenario;
use value_text::{Worded, put_fec_line, put_key};

/// The name of a VRF.
fn name_of(scenario: &Scenario, vrf: VrfId) -> &[u8]
    ensures { result.now ≡ vrf_name scenario.now vrf }
{
    match scenario.vrfs.as_slice().get(usize::from(vrf.0)) {
        Some(found) => found.name.octets(),
        None => b"",
    }
}

/// Appends the line of a route that the VRF of that name takes.
fn put_import(out: &mut Bytes, name: &[u8], key: &Key) -> Result<(), NoMemory>
    ensures { OnOk result (out.new ≡ out.old ++ named_import name.now key.now) }
{
    out.extend(b"import ")?;
    out.extend(name)?;
    out.extend(b" ")?;
    put_key(out, key)?;
    out.extend(b"\n")
}

/// Appends the lines of the routes that one VRF takes.
fn put_vrf_imports(out: &mut Bytes, scenario: &Scenario, own: &VrfImports) -> Result<(), NoMemory>
    ensures { OnOk result (out.new ≡ out.old ++ flat_map (import_line scenario.now) (imports_by own.now)) }
{
    let name = name_of(scenario, own.vrf);
    let keys = own.keys.as_slice();
    for key in keys {
        put_import(out, name, &key.key())?;
    }
    Ok(())
}

fn put_imports(out: &mut Bytes, scenario: &Scenario, imports: &Imports) -> Result<(), NoMemory>
    ensures { OnOk result (out.new ≡ out.old ++ flat_map (import_line scenario.now) imports.now) }
{
    let vrfs = imports.vrfs();
    for own in vrfs {
        put_vrf_imports(out, scenario, own)?;
    }
    Ok(())
}

/// Appends the line of a tunnel that the edge wants.
fn put_want(out: &mut Bytes, fec: &Fec) -> Result<(), NoMemory>
    ensures { OnOk result (out.new ≡ out.old ++ want_line fec.now) }
{
    out.extend(b"want ")?;
    put_fec_line(out, fec)
}

fn put_wants(out: &mut Bytes, fecs: &[Fec]) -> Result<(), NoMemory>
    ensures { OnOk result (out.new ≡ out.old ++ flat_map want_line fecs.now) }
{
    for fec in fecs {
        put_want(out, fec)?;
    }
    Ok(())
}

/// Appends the line of the first fault of the peer's octets, if they have one.
fn put_first_fault(out: &mut Bytes, fault: &Option<(u64, StreamFault)>) -> Result<(), NoMemory>
    ensures { OnOk result (out.new ≡ out.old ++ refused_text fault.now) }
{
    match fault {
        None => Ok(()),
        Some((place, first)) => {
            out.extend(b"refused ")?;
            put_number(out, *place)?;
            out.extend(b" ")?;
            first.put_word(out)?;
            out.extend(b"\n")
        }
    }
}

/// Appends the lines of a report.
pub(crate) fn put_report(
    out: &mut Bytes,
    scenario: &Scenario,
    report: &ProbeReport,
) -> Result<(), NoMemory>
    ensures { OnOk result (out.new ≡ out.old ++ report_text scenario.now report.now) }
{
    put_imports(out, scenario, &report.imports)?;
    put_wants(out, report.wants.as_slice())?;
    put_first_fault(out, &report.fault)
}
