//! Reads all that a source gives.
ghost use Rattle.std.specs.Prelude.{◌≡◌, ◌≤◌, ◌⊎◌, IfOk, IfErr, IsErrOf};
ghost use Rattle.mv_io.specs.Causes.{Rose};
ghost use Rattle.mvpn_tool.specs.Input.{IsReadUpTo};
ghost use Rattle.mvpn_tool.specs.declared.stop.Stop.TheVariants as stops;

use crate::stop::Stop;
use line_words::TEXT_LIMIT;
use mv_io::Source;
use std::alloc::Global;

/// Octets that are asked of a source at once.
const PIECE: usize = 65_536;

/// Reads to the end, or one octet more than a text may have.
pub fn read_all<S: Source>(alloc: Global, source: &mut S) -> Result<Vec<u8>, Stop>
    ensures octets { IfOk result (λ v. IsReadUpTo TEXT_LIMIT (S.left source.old) (S.left source.new) v.items) }
    ensures later { S.faults source.old ≤ S.faults source.new }
    ensures failed { IsErrOf result stops.Source → Rose (S.faults source.old) (S.faults source.new) }
    ensures others { IfErr result (λ stop. (stop ≡ stops.Source) ⊎ (stop ≡ stops.Memory)) }
{
    let mut input = Vec::new(alloc);
    let mut held = Vec::new(alloc);
    held.resize(PIECE, 0)?;
    let piece = held.as_mut_slice();
    'reading: while input.len() <= TEXT_LIMIT {
        let room = piece.len().min(TEXT_LIMIT + 1 - input.len());
        let count = source.read(&mut piece[..room])?;
        if count == 0 {
            return Ok(input);
        }
        input.extend_from_slice(&piece[..count])?;
    }
    Ok(input)
}
