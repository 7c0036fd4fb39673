//! Groups, each with the sources that are joined and pruned.
ghost use Rattle.std.specs.Prelude.{◌≡◌, ◌++◌, List, length, OnOk};
ghost use Rattle.pim_joinprune.specs.Answers.{Gives};
ghost use Rattle.pim_joinprune.specs.Reading.{is_multicast, multicast_at, group_address_at, group_at};
ghost use Rattle.pim_joinprune.specs.Spelling.{IsGroup, group_text};

use crate::element::{Element, push_all, read_all};
use crate::family::Family;
use crate::fault::{PimFault, ReadFault};
use crate::field::{NATIVE, read_address, read_known, read_number, read_octet};
use crate::source::JpSources;
use mv_base::{Addr, Bytes, NoMemory, Seq};
use std::alloc::Global;

/// A multicast group, and the sources that are joined and pruned, at most 65535 of each (RFC 7761 section 4.9.5).
#[derive(Drop)]
pub struct Group {
    /// A multicast address.
    pub group: Addr,
    pub joins: JpSources,
    pub prunes: JpSources,
}

/// Groups in the order of the message.
pub type Groups = Seq<Group>;

/// Whether the address is multicast: with IPv4 its high four bits are 1110 (RFC 1112 section 4), with IPv6 the high eight are 1
/// (RFC 4291 section 2.7).
fn is_multicast(addr: Addr) -> bool
    ensures { result ≡ is_multicast addr }
{
    match addr {
        Addr::V4(octets) => octets[0] >> 4 == 14,
        Addr::V6(octets) => octets[0] == 0xff,
    }
}

/// Takes a multicast address.
#[tactic(auto, unfolding(crate::specs::Reading::multicast_at))]
fn read_multicast(family: Family, octets: &[u8]) -> Result<(Addr, &[u8]), ReadFault>
    ensures { Gives (λ x. (x.0, x.1.now)) result (multicast_at family octets.now) }
{
    let (addr, rest) = read_address(family, octets)?;
    if !is_multicast(addr) {
        return Err(ReadFault::Bad {
            left: octets.len(),
            fault: PimFault::NotMulticast,
        });
    }
    Ok((addr, rest))
}

/// An Encoded-Group address (RFC 7761 section 4.9.1).
#[tactic(auto, unfolding(crate::specs::Reading::group_address_at))]
fn read_group_address(family: Family, octets: &[u8]) -> Result<(Addr, &[u8]), ReadFault>
    ensures { Gives (λ x. (x.0, x.1.now)) result (group_address_at family octets.now) }
{
    let (_, rest) = read_known(octets, family.octet(), PimFault::Family)?;
    let (_, rest) = read_known(rest, NATIVE, PimFault::Encoding)?;
    let (_, rest) = read_octet(rest)?;
    let (_, rest) = read_known(rest, family.mask_len(), PimFault::MaskLength)?;
    read_multicast(family, rest)
}

#[tactic(auto, unfolding(crate::specs::Reading::group_at))]
fn read_group(alloc: Global, family: Family, octets: &[u8]) -> Result<(Group, &[u8]), ReadFault>
    ensures { Gives (λ x. (x.0, x.1.now)) result (group_at family octets.now) }
{
    let (group, rest) = read_group_address(family, octets)?;
    let (joined, rest) = read_number(rest)?;
    let (pruned, rest) = read_number(rest)?;
    let (joins, rest) = read_all(alloc, family, joined as usize, rest)?;
    let (prunes, rest) = read_all(alloc, family, pruned as usize, rest)?;
    Ok((
        Group {
            group,
            joins,
            prunes,
        },
        rest,
    ))
}

fn push_group(out: &mut Bytes, family: Family, group: &Group) -> Result<(), NoMemory>
    requires { IsGroup family group.now }
    ensures { OnOk result (out.new ≡ out.old ++ group_text family group.now) }
{
    out.extend(&[family.octet(), NATIVE, 0, family.mask_len()])?;
    out.extend(group.group.octets())?;
    out.extend(&(group.joins.len() as u16).to_be_bytes())?;
    out.extend(&(group.prunes.len() as u16).to_be_bytes())?;
    push_all(out, family, group.joins.as_slice())?;
    push_all(out, family, group.prunes.as_slice())
}

impl Element for Group {
    ghost use Rattle.pim_joinprune.specs.Reading.{group_at};
    ghost use Rattle.pim_joinprune.specs.Spelling.{IsGroup, group_text};

    ghost read_at = { group_at };

    ghost text = { group_text };

    ghost IsWritable = { IsGroup };

    fn read(alloc: Global, family: Family, octets: &[u8]) -> Result<(Self, &[u8]), ReadFault> {
        read_group(alloc, family, octets)
    }

    fn push(&self, family: Family, out: &mut Bytes) -> Result<(), NoMemory> {
        push_group(out, family, self)
    }
}
