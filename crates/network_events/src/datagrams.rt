//! Events of datagrams: sites send them, their copies hop over links or are dropped, and the state is reported (RFC 6513 sections 9.1.1 and 12,
//! RFC 3032).
ghost use Rattle.std.specs.Prelude.{◌≡◌, IfErr, IfOk};
ghost use Rattle.mvpn_model.specs.Packets.{packet_word};
ghost use Rattle.scenario_defs.specs.declared.event.Event.TheVariants as events;
ghost use Rattle.network_defs.specs.Events as definitions;
ghost use Rattle.network_defs.specs.Refusals.{are_links_full};
ghost use Rattle.network_acts.specs.Instant.{Instant, IsSome, IsWorld};
ghost use Rattle.network_acts.specs.Words.{AreLinked};
ghost use Rattle.network_events.specs.Datagrams.{Fits, IsRefusedFor, Makes, of_memory};
ghost use Rattle.network_events.specs.Meeting.{IsGiven, IsReady, Meets};

use crate::halt::{EventAnswer, Halt, met};
use crate::places::{edge_of_vrf, entered};
use label_forwarding::{Datagram, PacketFault, read_packet};
use mv_base::{Addr, NoMemory, NodeId, SiteId};
use mvpn_model::packet;
use network_acts::{Network, sessions_of};
use scenario_defs::{FaultWord, Lines, Refusal};

/// So many copies on links are too many for one more datagram.
const COPY_LIMIT: u64 = 65_536;

/// What comes of acts that lack no label.
pub(crate) fn of_memory(answer: Result<(), NoMemory>) -> Result<(), Halt>
    ensures { result ≡ of_memory answer }
{
    match answer {
        Ok(()) => Ok(()),
        Err(NoMemory) => Err(Halt::NoMemory),
    }
}

fn are_links_full(network: &Network) -> bool
    ensures { (at : Instant) → IsWorld at network.now → AreLinked at.world → result ≡ are_links_full at.world }
{
    network.datagrams.copies() >= COPY_LIMIT
}

/// The word that tells why octets are no packet.
fn packet_word(fault: PacketFault) -> FaultWord
    ensures { result ≡ packet_word fault }
{
    match fault {
        PacketFault::Short => FaultWord::Short,
        PacketFault::Version => FaultWord::Version,
        PacketFault::HeaderLength => FaultWord::HeaderLength,
        PacketFault::TotalLength => FaultWord::TotalLength,
        PacketFault::Checksum => FaultWord::Checksum,
        PacketFault::NotMulticast => FaultWord::NotMulticast,
        PacketFault::LinkLocal => FaultWord::LinkLocal,
    }
}

/// The site's datagram is accepted, and enters at each VRF at which the site is attached, in order. Where 64 bits hold no number for it,
/// memory is wanting.
fn sent(
    network: &mut Network,
    site: SiteId,
    datagram: &Datagram<'_>,
    lines: &mut Lines,
) -> Result<(), NoMemory>
    requires network { IsSome IsReady network.old }
    ensures { Makes IsReady (definitions.sent site datagram.now.source datagram.now.group datagram.now.octets)
        network.old network.new lines.old lines.new result }
{
    let vrfs = entered(lines.alloc(), network.scenario(), site)?;
    if network.datagrams.count() == u64::MAX {
        return Err(NoMemory);
    }
    network.datagrams.accept();
    let own = vrfs.as_slice();
    for vrf in own {
        let Some(n) = edge_of_vrf(network.scenario(), *vrf) else {
            continue;
        };
        network.enter(n, *vrf, site, datagram, lines)?;
    }
    let now = network.clock();
    network.datagrams.send(now, datagram.bytes())
}

/// The packet that the octets are, where there is room for it on the links; or why they are refused.
fn fitting<'a>(network: &Network, octets: &'a [u8]) -> Result<Datagram<'a>, Refusal>
    ensures fits { IfOk result (Fits network.now octets.now) }
    ensures refused { IfErr result (IsRefusedFor network.now octets.now) }
{
    match read_packet(octets) {
        Ok(datagram) => {
            if are_links_full(network) {
                return Err(Refusal::Full);
            }
            Ok(datagram)
        }
        Err((place, fault)) => Err(Refusal::Bytes {
            place,
            word: packet_word(fault),
        }),
    }
}

/// The site sends the packet of that flow and payload.
pub(crate) fn send(
    network: &mut Network,
    site: SiteId,
    source: Addr,
    group: Addr,
    payload: &[u8],
    lines: &mut Lines,
) -> EventAnswer
    requires network { IsSome IsReady network.old }
    requires event { IsGiven network.old.scenario (events.Send site source group payload.now) }
    ensures { Meets (events.Send site source group payload.now) network.old network.new lines.old lines.new result }
{
    let Ok(octets) = packet(lines.alloc(), source, group, payload) else {
        return Err(Halt::NoMemory);
    };
    match fitting(network, octets.as_slice()) {
        Ok(datagram) => met(of_memory(sent(network, site, &datagram, lines))),
        Err(reason) => Ok(Some(reason)),
    }
}

/// The site sends these octets as they are.
pub(crate) fn send_packet(
    network: &mut Network,
    site: SiteId,
    octets: &[u8],
    lines: &mut Lines,
) -> EventAnswer
    requires network { IsSome IsReady network.old }
    requires event { IsGiven network.old.scenario (events.Packet site octets.now) }
    ensures { Meets (events.Packet site octets.now) network.old network.new lines.old lines.new result }
{
    match fitting(network, octets) {
        Ok(datagram) => met(of_memory(sent(network, site, &datagram, lines))),
        Err(reason) => Ok(Some(reason)),
    }
}

/// The copy at that place of the way lands.
pub(crate) fn hop(
    network: &mut Network,
    from: NodeId,
    to: NodeId,
    place: u32,
    lines: &mut Lines,
) -> EventAnswer
    requires network { IsSome IsReady network.old }
    requires event { IsGiven network.old.scenario (events.Hop from to place) }
    ensures { Meets (events.Hop from to place) network.old network.new lines.old lines.new result }
{
    if network.datagrams.count_on(from, to) < place as usize {
        return Ok(Some(Refusal::Place));
    }
    met(of_memory(network.hop(from, to, place as usize, lines)))
}

/// The copy at that place of the way is dropped.
pub(crate) fn drop_copy(
    network: &mut Network,
    from: NodeId,
    to: NodeId,
    place: u32,
    lines: &mut Lines,
) -> EventAnswer
    requires network { IsSome IsReady network.old }
    requires event { IsGiven network.old.scenario (events.DropCopy from to place) }
    ensures { Meets (events.DropCopy from to place) network.old network.new lines.old lines.new result }
{
    if network.datagrams.count_on(from, to) < place as usize {
        return Ok(Some(Refusal::Place));
    }
    network.datagrams.drop_copy(from, to, place as usize);
    Ok(None)
}

/// The state of the network is reported.
pub(crate) fn state(network: &mut Network, lines: &mut Lines) -> EventAnswer
    requires network { IsSome IsReady network.old }
    ensures { Meets events.State network.old network.new lines.old lines.new result }
{
    match sessions_of(lines.alloc(), network.scenario()) {
        Ok(sessions) => met(of_memory(network.tell(sessions.as_slice(), lines))),
        Err(NoMemory) => Err(Halt::NoMemory),
    }
}
