//! The words of a line of a report.
ghost use Rattle.std.specs.Prelude.{◌≡◌, ◌++◌, ◌<◌, length, OnOk};
ghost use Rattle.std.specs.Fmt.{decimal};
ghost use Rattle.scenario_defs.specs.Text.{iface_name, node_name, fault_word, kind_word, ends_text};

use itoa::Buffer;
use mv_base::{Bytes, IfaceId, NoMemory, NodeId};
use scenario_defs::{FaultWord, Kind, Scenario};

/// Appends a number in decimal.
pub fn put_number(out: &mut Bytes, number: u64) -> Result<(), NoMemory>
    ensures { OnOk result (out.new ≡ out.old ++ decimal number) }
{
    let mut buffer = Buffer::new();
    out.extend(buffer.format(number).as_bytes())
}

/// Appends a text, and a number in decimal after it.
pub fn put_then(out: &mut Bytes, text: &[u8], number: u64) -> Result<(), NoMemory>
    ensures { OnOk result (out.new ≡ out.old ++ text.now ++ decimal number) }
{
    out.extend(text)?;
    put_number(out, number)
}

/// Appends the name of an interface.
pub fn put_iface(out: &mut Bytes, scenario: &Scenario, iface: IfaceId) -> Result<(), NoMemory>
    requires { iface.0 < length scenario.now.ifaces }
    ensures { OnOk result (out.new ≡ out.old ++ iface_name scenario.now iface) }
{
    match scenario.ifaces.as_slice().get(usize::from(iface.0)) {
        Some(found) => out.extend(found.name.octets()),
        None => unreachable!(),
    }
}

/// Appends the name of a node.
pub fn put_node(out: &mut Bytes, scenario: &Scenario, node: NodeId) -> Result<(), NoMemory>
    requires { node.0 < length scenario.now.nodes }
    ensures { OnOk result (out.new ≡ out.old ++ node_name scenario.now node) }
{
    match scenario.nodes.as_slice().get(usize::from(node.0)) {
        Some(found) => out.extend(found.name.octets()),
        None => unreachable!(),
    }
}

/// Appends the two ends of a direction.
pub fn put_ends(
    out: &mut Bytes,
    scenario: &Scenario,
    from: NodeId,
    to: NodeId,
) -> Result<(), NoMemory>
    requires from { from.0 < length scenario.now.nodes }
    requires to { to.0 < length scenario.now.nodes }
    ensures { OnOk result (out.new ≡ out.old ++ ends_text scenario.now from to) }
{
    put_node(out, scenario, from)?;
    out.extend(b" ")?;
    put_node(out, scenario, to)
}

/// The word of a fault.
pub fn fault_word(word: FaultWord) -> &'static [u8]
    ensures { result.now ≡ fault_word word }
{
    match word {
        FaultWord::Short => b"short",
        FaultWord::Version => b"version",
        FaultWord::PimType => b"pim-type",
        FaultWord::Checksum => b"checksum",
        FaultWord::Family => b"family",
        FaultWord::Encoding => b"encoding",
        FaultWord::MaskLength => b"mask-length",
        FaultWord::Flags => b"flags",
        FaultWord::NotMulticast => b"not-multicast",
        FaultWord::Trailing => b"trailing",
        FaultWord::HeaderLength => b"header-length",
        FaultWord::TotalLength => b"total-length",
        FaultWord::LinkLocal => b"link-local",
    }
}

/// The word of a protocol.
pub fn kind_word(kind: Kind) -> &'static [u8]
    ensures { result.now ≡ kind_word kind }
{
    match kind {
        Kind::Bgp => b"bgp",
        Kind::Ldp => b"ldp",
    }
}
