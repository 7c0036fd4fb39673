//! The Join/Prune messages that events hand to an edge, and the words of their faults in a report.
ghost use Rattle.std.specs.Prelude.{◌≡◌, IfOk};
ghost use Rattle.scenario_defs.specs.declared.event.Event.TheVariants as events;
ghost use Rattle.mvpn_model.specs.Messages.{own_addr, handed, read_at, message_of};
ghost use Rattle.mvpn_model.specs.Refused.{fault_word};

use mv_base::{Addr, IfaceId, NoMemory};
use pim_defs::of_pim_joinprune::{DecodeFault, JoinPrune, PimFault, decode};
use pim_defs::{join_of, prune_of};
use scenario_defs::{CustomerEvent, Event, FaultWord, Scenario};
use std::alloc::Global;

/// A message that came to an interface.
#[derive(Drop)]
pub struct Given {
    pub iface: IfaceId,
    pub message: JoinPrune,
}

/// The address of an interface that is none of the scenario.
const UNSPECIFIED: Addr = Addr::V4([0, 0, 0, 0]);

/// The interface's own address; 0.0.0.0 where the scenario has no such interface.
pub fn own_addr(scenario: &Scenario, iface: IfaceId) -> Addr
    ensures { result ≡ own_addr scenario.now iface }
{
    match scenario.ifaces.as_slice().get(iface.0 as usize) {
        Some(found) => found.addr,
        None => UNSPECIFIED,
    }
}

fn handed(iface: IfaceId, message: JoinPrune) -> Option<Given>
    ensures { result ≡ handed iface message }
{
    Some(Given { iface, message })
}

/// The message that the octets spell.
fn read_at(alloc: Global, iface: IfaceId, bytes: &[u8]) -> Result<Option<Given>, NoMemory>
    ensures { IfOk result (λ found. found ≡ read_at iface bytes.now) }
{
    match decode(alloc, bytes) {
        Ok(message) => Ok(handed(iface, message)),
        Err(DecodeFault::Bad { place: _, fault: _ }) => Ok(None),
        Err(DecodeFault::NoMemory) => Err(NoMemory),
    }
}

/// The message that an event of a customer hands to the edge of an interface: that of a `join` or a `prune`, or the one
/// that the octets of a `pim` spell.
pub fn customer_message(
    alloc: Global,
    scenario: &Scenario,
    event: &CustomerEvent,
) -> Result<Option<Given>, NoMemory>
    ensures { IfOk result (λ found. found ≡ message_of scenario.now (events.Customer event.now)) }
{
    match event {
        CustomerEvent::Join { iface, entry } => {
            let message = join_of(alloc, own_addr(scenario, *iface), entry)?;
            Ok(handed(*iface, message))
        }
        CustomerEvent::Prune { iface, entry } => {
            let message = prune_of(alloc, own_addr(scenario, *iface), entry)?;
            Ok(handed(*iface, message))
        }
        CustomerEvent::Pim { iface, bytes } => read_at(alloc, *iface, bytes.as_slice()),
        _ => Ok(None),
    }
}

/// The message that the event hands to the edge of an interface.
pub fn message_of(
    alloc: Global,
    scenario: &Scenario,
    event: &Event,
) -> Result<Option<Given>, NoMemory>
    ensures { IfOk result (λ found. found ≡ message_of scenario.now event.now) }
{
    match event {
        Event::Customer(event) => customer_message(alloc, scenario, event),
        _ => Ok(None),
    }
}

/// The word that tells the fault of a message.
pub fn fault_word(fault: PimFault) -> FaultWord
    ensures { result ≡ fault_word fault }
{
    match fault {
        PimFault::Short => FaultWord::Short,
        PimFault::Version => FaultWord::Version,
        PimFault::PimType => FaultWord::PimType,
        PimFault::Checksum => FaultWord::Checksum,
        PimFault::Family => FaultWord::Family,
        PimFault::Encoding => FaultWord::Encoding,
        PimFault::MaskLength => FaultWord::MaskLength,
        PimFault::Flags => FaultWord::Flags,
        PimFault::NotMulticast => FaultWord::NotMulticast,
        PimFault::Trailing => FaultWord::Trailing,
    }
}
