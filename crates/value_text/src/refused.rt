//! The line of a fault.
ghost use Rattle.std.specs.Prelude.{◌≡◌, ◌++◌, OnOk};
ghost use Rattle.value_text.specs.ValueText.{refused_line};

use mv_base::{Bytes, NoMemory};
use report_text::put_then;

/// Appends the line that tells a fault and its place.
pub fn put_refused(out: &mut Bytes, place: usize, word: &[u8]) -> Result<(), NoMemory>
    ensures { OnOk result (out.new ≡ out.old ++ refused_line place word.now) }
{
    put_then(out, b"refused ", place as u64)?;
    out.extend(b" ")?;
    out.extend(word)?;
    out.extend(b"\n")
}
