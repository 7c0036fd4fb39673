//! The lines of octets, by their format.
ghost use Rattle.std.specs.Prelude.{◌≡◌, IfOk, true, false};
ghost use Rattle.decode_text.specs.Formats.{of_pmsi, of_pim, Tells, IsWhole, HasFault};
ghost use Rattle.decode_text.specs.Single.{TellsOne};
ghost use Rattle.decode_text.specs.Values.{TellsEach};

use crate::format::Format;
use crate::session::{tell_bgp, tell_ldp};
use crate::value::Value;
use bgp_values::mvpn_nlri::Route;
use mldp::mldp_fec::Fec;
use mv_base::{Bytes, NoMemory};
use pim_joinprune::DecodeFault;
use std::alloc::Global;
use value_text::{put_joinprune_fault, put_joinprune_lines, put_pmsi_fault, put_pmsi_line};

/// The lines of values, and whether they end with the line of a fault.
#[derive(Drop)]
pub struct Told {
    pub text: Bytes,
    pub refused: bool,
}

/// The lines of values that stand end to end.
fn tell_values<V: Value>(alloc: Global, octets: &[u8]) -> Result<Told, NoMemory>
    ensures { IfOk result (λ told. TellsEach V.telling told.refused octets.now told.text) }
{
    let mut text = Bytes::new(alloc);
    let mut place = 0;
    while place < octets.len() {
        match V::read(&octets[place..]) {
            Ok((value, len)) => {
                value.put_line(&mut text)?;
                place += len;
            }
            Err(fault) => {
                V::put_fault(&mut text, place, &fault)?;
                return Ok(Told {
                    text,
                    refused: true,
                });
            }
        }
    }
    Ok(Told {
        text,
        refused: false,
    })
}

/// The line of one tunnel attribute.
fn tell_pmsi(alloc: Global, octets: &[u8]) -> Result<Told, NoMemory>
    ensures { IfOk result (λ told. TellsOne of_pmsi told.refused octets.now told.text) }
{
    let mut text = Bytes::new(alloc);
    match bgp_values::pmsi_attr::decode(octets) {
        Ok(pmsi) => {
            put_pmsi_line(&mut text, &pmsi)?;
            Ok(Told {
                text,
                refused: false,
            })
        }
        Err(fault) => {
            put_pmsi_fault(&mut text, &fault)?;
            Ok(Told {
                text,
                refused: true,
            })
        }
    }
}

/// The lines of one Join/Prune message.
fn tell_pim(alloc: Global, octets: &[u8]) -> Result<Told, NoMemory>
    ensures { IfOk result (λ told. TellsOne of_pim told.refused octets.now told.text) }
{
    let mut text = Bytes::new(alloc);
    match pim_joinprune::decode(alloc, octets) {
        Ok(message) => {
            put_joinprune_lines(&mut text, &message)?;
            Ok(Told {
                text,
                refused: false,
            })
        }
        Err(DecodeFault::Bad { place, fault }) => {
            put_joinprune_fault(&mut text, place, fault)?;
            Ok(Told {
                text,
                refused: true,
            })
        }
        Err(DecodeFault::NoMemory) => Err(NoMemory),
    }
}

fn tell_format(alloc: Global, format: Format, octets: &[u8]) -> Result<Told, NoMemory>
    ensures { IfOk result (λ told. Tells format told.refused octets.now told.text) }
{
    match format {
        Format::Fec => tell_values::<Fec>(alloc, octets),
        Format::Pmsi => tell_pmsi(alloc, octets),
        Format::Nlri => tell_values::<Route>(alloc, octets),
        Format::Bgp => tell_bgp(alloc, octets),
        Format::Ldp => tell_ldp(alloc, octets),
        Format::Pim => tell_pim(alloc, octets),
    }
}

/// The lines of the values that the octets are; or of those before the first fault, and then the line of that fault, its
/// place counted from the first octet.
pub fn tell(alloc: Global, format: Format, octets: &[u8]) -> Result<Told, NoMemory>
    ensures tells { IfOk result (λ told. Tells format told.refused octets.now told.text) }
    // Octets that are whole have no line of a fault.
    ensures whole { IsWhole format octets.now → IfOk result (λ told. told.refused ≡ false) }
    // Octets with a first fault have its line.
    ensures fault { HasFault format octets.now → IfOk result (λ told. told.refused ≡ true) }
{
    tell_format(alloc, format, octets)
}
