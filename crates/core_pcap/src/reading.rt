//! Reading a file.
ghost use Rattle.std.specs.Prelude.{◌≡◌, ℕ, List, All, Option, IfOk};
ghost use Rattle.mv_base.specs.Octets.{IsOctets};
ghost use Rattle.core_pcap.specs.Answers.{IsOnly, ReadsRows};
ghost use Rattle.core_pcap.specs.File.{Tells};
ghost use Rattle.core_pcap.specs.Spelling.{IsHop, SpellsFile, written_file};
ghost use Rattle.core_pcap.specs.declared.fault.PcapFault.{PcapFault};
ghost use Rattle.core_pcap.specs.declared.hop.CoreHop.{CoreHop};

use crate::fault::{PcapFault, ReadFault};
use crate::header::read_header;
use crate::hop::{CoreHops, PcapRead};
use crate::order::ByteOrder;
use crate::record::read_hop;
use mv_base::NoMemory;
use std::alloc::Global;

/// The records end to end, up to the first fault, in a file of so many octets.
fn read_records(
    alloc: Global,
    order: ByteOrder,
    len: usize,
    records: &[u8],
) -> Result<PcapRead, NoMemory>
    ensures { IfOk result (λ file. ReadsRows order len records.now file) }
{
    let mut hops = CoreHops::new(alloc);
    let mut rest = records;
    while !rest.is_empty() {
        match read_hop(alloc, order, rest) {
            Err(ReadFault::NoMemory) => return Err(NoMemory),
            Err(ReadFault::Bad { left, fault }) => {
                let fault = Some((len.saturating_sub(left) as u64, fault));
                return Ok(PcapRead { hops, fault });
            }
            Ok((hop, thereafter)) => {
                hops.push(hop)?;
                rest = thereafter;
            }
        }
    }
    Ok(PcapRead { hops, fault: None })
}

/// The hops that a file spells, or those before its first fault, and that fault.
pub fn read(alloc: Global, bytes: &[u8]) -> Result<PcapRead, NoMemory>
    // The file spells them all, or has that first fault after them.
    ensures told { IfOk result (λ file. Tells file.hops file.fault bytes.now) }
    // What a file tells is answered, unless memory runs out.
    ensures only { (hops : List CoreHop) (fault : Option (ℕ × PcapFault)) → Tells hops fault bytes.now → IsOnly result hops fault }
{
    match read_header(bytes) {
        Err(ReadFault::NoMemory) => Err(NoMemory),
        Err(ReadFault::Bad { left, fault }) => Ok(PcapRead {
            hops: CoreHops::new(alloc),
            fault: Some((bytes.len().saturating_sub(left) as u64, fault)),
        }),
        Ok((order, records)) => read_records(alloc, order, bytes.len(), records),
    }
}

/// What a file tells is one, and a file of hops that have spellings tells these.
pub fn spellings()
    ensures one { (hops others : List CoreHop) (fault other : Option (ℕ × PcapFault)) (octets : List ℕ) →
        IsOctets octets → Tells hops fault octets → Tells others other octets → (hops ≡ others) × (fault ≡ other) }
    ensures written { (hops : List CoreHop) → All IsHop hops → SpellsFile hops (written_file hops) }
{}
