//! Events of customers: Join/Prune messages come to an interface, sources are noted there, and patterns are selected at a VRF for selective
//! tunnels (RFC 7761 section 4.5, RFC 6514 sections 12.1 and 14, RFC 6625).
ghost use Rattle.std.specs.Prelude.{◌≡◌, ◌<◌, length, option_map, None, IfOk};
ghost use Rattle.mv_base.specs.Address.{addr_octets};
ghost use Rattle.mv_base.specs.Octets.{IsOctets};
ghost use Rattle.pim_joinprune.specs.Spelling.{IsJoinPrune};
ghost use Rattle.pim_joinprune.specs.declared.message.JoinPrune.{JoinPrune as JoinPrunes};
ghost use Rattle.scenario_defs.specs.declared.event.Event.{Event};
ghost use Rattle.scenario_defs.specs.declared.event.CustomerEvent.TheVariants as customers;
ghost use Rattle.scenario_defs.specs.declared.event.Event.TheVariants as events;
ghost use Rattle.network_defs.specs.Refusals.{are_sessions_full, is_selected};
ghost use Rattle.network_acts.specs.Instant.{Instant, IsSome, IsWorld};
ghost use Rattle.network_acts.specs.Words.{customer_call};
ghost use Rattle.network_events.specs.Customers.{AnswersOf, Asks, HandsMessage, HasOctets, IsAtIface, IsMakeable, IsWritten};
ghost use Rattle.network_events.specs.Customers.{edge_at, is_amiss, plain_call, verdict_at};
ghost use Rattle.network_events.specs.Meeting.{IsGiven, IsReady, Meets};

use crate::halt::{EventAnswer, Halt};
use crate::places::edge_of_vrf;
use mldp_node::NodeFault;
use mv_base::{Addr, IfaceId, NoMemory, NodeId, Pattern, VrfId};
use mvpn_model::{fault_word, own_addr};
use network_acts::of_edge_routes::route_order::are_octets;
use network_acts::{CustomerCall, Network, Verdict};
use pim_joinprune::{DecodeFault, JoinPrune, decode, round_trip};
use scenario_defs::{CustomerEvent, Lines, Refusal, Scenario, edge_of};
use std::alloc::Global;

/// So many octets in transit are too many for an event of a customer.
const OCTET_LIMIT: u64 = 268_435_456;

/// Whether so many octets are in transit that no event of a customer is taken.
fn are_sessions_full(network: &Network) -> bool
    ensures { (at : Instant) → IsWorld at network.now → result ≡ are_sessions_full at.world }
{
    network.total() >= OCTET_LIMIT
}

/// What comes of a call at node n for which there may be no room, by what was answered.
fn verdict_at(n: NodeId, answer: Result<Verdict, NodeFault>) -> EventAnswer
    ensures { result ≡ verdict_at n answer }
{
    match answer {
        Ok(Verdict::Made) => Ok(None),
        Ok(Verdict::Full) => Ok(Some(Refusal::Full)),
        Err(NodeFault::NoLabel) => Err(Halt::NoLabel(n)),
        Err(NodeFault::NoMemory) => Err(Halt::NoMemory),
    }
}

/// The edge at which the customer calls, where the scenario has it.
fn edge_for(scenario: &Scenario, call: CustomerCall<'_>) -> Option<NodeId>
    ensures { result ≡ edge_at scenario.now (customer_call call.entry) }
{
    match call {
        CustomerCall::Pim { iface, .. }
        | CustomerCall::Active { iface, .. }
        | CustomerCall::Idle { iface, .. } => edge_of(scenario, iface),
        CustomerCall::Select { vrf, .. } | CustomerCall::Unselect { vrf, .. } => edge_of_vrf(
            scenario, vrf,
        ),
    }
}

/// The call is made at its edge, unless too many octets are in transit.
fn make(network: &mut Network, call: CustomerCall<'_>, lines: &mut Lines) -> EventAnswer
    requires network { IsSome IsReady network.old }
    requires call { IsMakeable (customer_call call) network.old }
    ensures { (event : Event) → Asks event (customer_call call.entry) network.old →
        Meets event network.old network.new lines.old lines.new result }
{
    if are_sessions_full(network) {
        return Ok(Some(Refusal::Full));
    }
    match edge_for(network.scenario(), call) {
        Some(n) => verdict_at(n, network.call(n, call, lines)),
        None => unreachable!(),
    }
}

/// The message that was written, as it is read of the octets that the customer router behind the interface writes.
fn read_back(alloc: Global, written: Result<JoinPrune, NoMemory>) -> Result<JoinPrune, NoMemory>
    requires { IfOk written IsJoinPrune }
    ensures { (message : JoinPrunes) → IfOk written (λ own. own ≡ message) → IfOk result (λ read. read ≡ message) }
{
    let message = written?;
    match round_trip(alloc, &message) {
        Ok(read) => Ok(read),
        Err(_) => Err(NoMemory),
    }
}

/// A message that was written for the interface comes there.
pub(crate) fn take_written(
    network: &mut Network,
    iface: IfaceId,
    written: Result<JoinPrune, NoMemory>,
    lines: &mut Lines,
) -> EventAnswer
    requires network { IsSome IsReady network.old }
    requires written { (event : Event) × (message : JoinPrunes) × IsWritten network.old.scenario iface written message event }
    ensures { (event : Event) (message : JoinPrunes) → IsWritten network.old.scenario iface written message event →
        Meets event network.old network.new lines.old lines.new result }
{
    match read_back(lines.alloc(), written) {
        Ok(message) => make(
            network,
            CustomerCall::Pim {
                iface,
                message: &message,
            },
            lines,
        ),
        Err(NoMemory) => Err(Halt::NoMemory),
    }
}

/// A message that was read at the interface is taken there, where it is for it.
fn take_read(
    network: &mut Network,
    iface: IfaceId,
    message: &JoinPrune,
    lines: &mut Lines,
) -> EventAnswer
    requires network { IsSome IsReady network.old }
    requires message { IsAtIface network.old.scenario iface message.now }
    ensures { (event : Event) → HandsMessage network.old.scenario iface message.now event →
        Meets event network.old network.new lines.old lines.new result }
{
    if !message.neighbour.same(own_addr(network.scenario(), iface)) {
        return Ok(Some(Refusal::Ours));
    }
    make(network, CustomerCall::Pim { iface, message }, lines)
}

/// Octets come to the interface.
pub(crate) fn pim(
    network: &mut Network,
    iface: IfaceId,
    octets: &[u8],
    lines: &mut Lines,
) -> EventAnswer
    requires network { IsSome IsReady network.old }
    requires event { IsGiven network.old.scenario (events.Customer (customers.Pim iface octets.now)) }
    ensures { Meets (events.Customer (customers.Pim iface octets.now)) network.old network.new lines.old lines.new result }
{
    match decode(lines.alloc(), octets) {
        Ok(message) => take_read(network, iface, &message, lines),
        Err(DecodeFault::Bad { place, fault }) => {
            let word = fault_word(fault);
            Ok(Some(Refusal::Bytes { place, word }))
        }
        Err(DecodeFault::NoMemory) => Err(Halt::NoMemory),
    }
}

/// Whether the pattern is selected at the VRF.
fn is_selected(network: &Network, vrf: VrfId, pattern: Pattern) -> bool
    requires network { IsSome IsReady network.now }
    requires within { vrf.0 < length network.now.scenario.vrfs }
    ensures { AnswersOf network.now (λ world. is_selected world vrf pattern) result }
{
    match edge_of_vrf(network.scenario(), vrf) {
        Some(n) => network.is_selected(n, vrf, pattern),
        None => unreachable!(),
    }
}

/// Whether the event selects what is selected already, or ends a selection that is not there.
fn is_amiss(network: &Network, event: &CustomerEvent) -> bool
    requires network { IsSome IsReady network.now }
    requires event { IsGiven network.now.scenario (events.Customer event.now) }
    ensures { AnswersOf network.now (λ world. is_amiss world event.now) result }
{
    match event {
        CustomerEvent::Select { vrf, pattern } => is_selected(network, *vrf, *pattern),
        CustomerEvent::Unselect { vrf, pattern } => !is_selected(network, *vrf, *pattern),
        _ => false,
    }
}

/// Shows that the address is of octets.
fn has_octets(addr: Addr)
    ensures { IsOctets (addr_octets addr) }
{
    are_octets(addr.octets());
}

/// What an event that hands no message calls for.
fn call_of(event: &CustomerEvent) -> Option<CustomerCall<'_>>
    ensures call { option_map customer_call result ≡ plain_call event.now }
    ensures octets { HasOctets event.now }
{
    match event {
        CustomerEvent::Active {
            iface,
            source,
            group,
        } => Some(CustomerCall::Active {
            iface: *iface,
            source: *source,
            group: *group,
        }),
        CustomerEvent::Idle {
            iface,
            source,
            group,
        } => {
            has_octets(*source);
            has_octets(*group);
            Some(CustomerCall::Idle {
                iface: *iface,
                source: *source,
                group: *group,
            })
        }
        CustomerEvent::Select { vrf, pattern } => Some(CustomerCall::Select {
            vrf: *vrf,
            pattern: *pattern,
        }),
        CustomerEvent::Unselect { vrf, pattern } => Some(CustomerCall::Unselect {
            vrf: *vrf,
            pattern: *pattern,
        }),
        _ => None,
    }
}

/// A source is noted, or a pattern is selected, or that ends: what the event calls for is made, unless it is amiss.
pub(crate) fn ask(network: &mut Network, event: &CustomerEvent, lines: &mut Lines) -> EventAnswer
    requires network { IsSome IsReady network.old }
    requires event { IsGiven network.old.scenario (events.Customer event.now) }
    requires plain { plain_call event.now ≡ None → ⊥ }
    ensures { Meets (events.Customer event.now) network.old network.new lines.old lines.new result }
{
    if is_amiss(network, event) {
        return Ok(Some(Refusal::State));
    }
    match call_of(event) {
        Some(call) => make(network, call, lines),
        None => unreachable!(),
    }
}
