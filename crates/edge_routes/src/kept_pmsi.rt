//! PMSI Tunnel attributes of routes that were taken, as a table keeps them.
ghost use Rattle.std.specs.Prelude.{◌≡◌, IfOk, IfSome};
ghost use Rattle.mv_base.specs.Number.{◌>>?◌};
ghost use Rattle.edge_defs.specs.Imported.{lsp_of};
ghost use Rattle.edge_routes.specs.KeptPmsi.{attribute_of, lsp_by, mark_in, mark_of};

use crate::shared::Shared;
use crate::tunnel::{identifier_of, lsp_by, lsp_of};
use bgp_values::of_mldp::mldp_fec::Fec;
use bgp_values::pmsi_attr::{Pmsi, Tunnel};
use mv_base::{Addr, NoMemory};
use std::alloc::Global;
use std::marker::Model;

/// An attribute, whole.
#[derive(Drop)]
struct Whole {
    pmsi: Option<Pmsi>,
}

impl Model for Whole {
    ghost use Rattle.std.specs.Prelude.{Option};
    ghost use Rattle.bgp_values.specs.declared.pmsi_attr.pmsi.Pmsi.{Pmsi};

    ghost Value = { Option Pmsi };

    ghost view = { λ w. w.pmsi };
}

/// The attribute of an LSP as edges use it is kept by what tells it from every other one, a third of its octets. Any other is in memory
/// beside.
#[derive(Drop)]
enum Kept {
    None,
    Lsp {
        leaf_info: bool,
        label: Option<u32>,
        root: Addr,
        identifier: [u8; 4],
    },
    Beside(Shared<Whole>),
}

/// A PMSI Tunnel attribute as a table keeps it, or none. Contracts see the attribute.
#[derive(Drop)]
pub struct KeptPmsi {
    kept: Kept,
}

impl Model for KeptPmsi {
    ghost use Rattle.std.specs.Prelude.{Option};
    ghost use Rattle.bgp_values.specs.declared.pmsi_attr.pmsi.Pmsi.{Pmsi};
    ghost use Rattle.edge_routes.specs.KeptPmsi.{attribute_of};

    ghost Value = { Option Pmsi };

    ghost view = { λ k. attribute_of k.kept };
}

/// What is kept of an attribute, where its tunnel is an LSP as edges use it.
fn lsp_kept(pmsi: &Option<Pmsi>) -> Option<Kept>
    ensures { IfSome result (λ kept. attribute_of kept ≡ pmsi.now) }
{
    let Some(pmsi) = pmsi else {
        return None;
    };
    let Tunnel::Mldp(fec) = &pmsi.tunnel else {
        return None;
    };
    let identifier = identifier_of(fec)?;
    Some(Kept::Lsp {
        leaf_info: pmsi.leaf_info,
        label: pmsi.label,
        root: fec.root,
        identifier,
    })
}

/// What is kept of an attribute that is no LSP as edges use it.
fn beside(alloc: Global, pmsi: Option<Pmsi>) -> Result<Kept, NoMemory>
    ensures { IfOk result (λ kept. attribute_of kept ≡ pmsi) }
{
    if pmsi.is_none() {
        return Ok(Kept::None);
    }
    Ok(Kept::Beside(Shared::of(alloc, Whole { pmsi })?))
}

/// The last octet of the opaque value of a FEC element, in which the tunnels of one root mostly differ.
pub fn mark_of(fec: &Fec) -> Option<u8>
    ensures { result ≡ mark_of fec.now }
{
    fec.opaque.octets().last().copied()
}

/// That of an LSP, where there is one.
fn mark_of_lsp(lsp: Option<Fec>) -> Option<u8>
    ensures { result ≡ lsp >>? mark_of }
{
    match lsp {
        None => None,
        Some(fec) => mark_of(&fec),
    }
}

impl KeptPmsi {
    /// The attribute, or none. Only of one that is no LSP as edges use it memory is taken.
    pub fn of(alloc: Global, pmsi: &Option<Pmsi>) -> Result<KeptPmsi, NoMemory>
        ensures { IfOk result (λ kept. kept ≡ pmsi.now) }
    {
        let kept = match lsp_kept(pmsi) {
            Some(kept) => kept,
            None => beside(alloc, *pmsi)?,
        };
        Ok(KeptPmsi { kept })
    }

    /// The same attribute, for one more. One that is in memory is there once for all.
    pub fn share(&self) -> Result<KeptPmsi, NoMemory>
        ensures { IfOk result (λ kept. kept ≡ self.now) }
    {
        let kept = match &self.kept {
            Kept::None => Kept::None,
            Kept::Lsp {
                leaf_info,
                label,
                root,
                identifier,
            } => Kept::Lsp {
                leaf_info: *leaf_info,
                label: *label,
                root: *root,
                identifier: *identifier,
            },
            Kept::Beside(whole) => Kept::Beside(whole.share()?),
        };
        Ok(KeptPmsi { kept })
    }

    /// The attribute, as it came.
    pub fn whole(&self) -> Option<Pmsi>
        ensures { result ≡ self.now }
    {
        match &self.kept {
            Kept::None => None,
            Kept::Lsp {
                leaf_info,
                label,
                root,
                identifier,
            } => Some(Pmsi {
                leaf_info: *leaf_info,
                tunnel: Tunnel::Mldp(lsp_by(*root, *identifier)),
                label: *label,
            }),
            Kept::Beside(whole) => whole.lent().pmsi,
        }
    }

    /// The FEC of the tunnel, where it is an mLDP P2MP LSP with one Generic LSP Identifier (RFC 6388 section 2.3.1).
    pub fn lsp(&self) -> Option<Fec>
        ensures { result ≡ lsp_of self.now }
    {
        match &self.kept {
            Kept::None => None,
            Kept::Lsp {
                root,
                identifier,
                ..
            } => Some(lsp_by(*root, *identifier)),
            Kept::Beside(whole) => lsp_of(&whole.lent().pmsi),
        }
    }

    /// The last octet of the opaque value of the tunnel, where that is such an LSP as edges use.
    pub fn mark(&self) -> Option<u8>
        ensures { result ≡ mark_in self.now }
    {
        match &self.kept {
            Kept::None => None,
            Kept::Lsp { identifier, .. } => Some(identifier[3]),
            Kept::Beside(_) => mark_of_lsp(self.lsp()),
        }
    }
}
