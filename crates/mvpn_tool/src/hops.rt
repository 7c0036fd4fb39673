//! What is shown of a file of hops.
ghost use Rattle.std.specs.Prelude.{◌≡◌, Ok, Err, IfErr, OnOk};
ghost use Rattle.mvpn_tool.specs.HopLines.{within_limit};

use crate::hop_lines::tell_hops;
use crate::shown::{Shown, Shows};
use line_words::{ReadFault, Reason, TEXT_LIMIT, TextFault};
use mv_base::Bytes;
use std::alloc::Global;

/// The fault of an input that is too long.
fn check_length(input: &[u8]) -> Result<(), TextFault>
    ensures within { OnOk result (within_limit input.now ≡ Ok input.now) }
    ensures long { IfErr result (λ fault. within_limit input.now ≡ Err fault) }
{
    if input.len() > TEXT_LIMIT {
        return Err(TextFault {
            line: 1,
            column: 1,
            reason: Reason::Long,
        });
    }
    Ok(())
}

/// The lines of the hops of a file.
#[derive(Clone, Copy)]
pub struct Hops;

impl Shows for Hops {
    type Said = Bytes;

    ghost use Rattle.mvpn_tool.specs.HopLines.{HasFault, IsFile, TellsHops, within_limit};

    ghost said = { within_limit };

    ghost Tells = { λ own. TellsHops };

    ghost IsSound = { λ own. IsFile };

    ghost IsFaulty = { λ own. HasFault };

    fn show(&self, alloc: Global, text: &[u8]) -> Result<Shown, ReadFault> {
        check_length(text)?;
        let shown = tell_hops(alloc, text)?;
        Ok(shown)
    }
}
