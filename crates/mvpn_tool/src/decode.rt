//! What is shown of the octets that a text has in hexadecimal.
use crate::shown::{Shown, Shows};
use decode_text::{Format, Told, read_octets, tell};
use line_words::ReadFault;
use mv_base::Bytes;
use std::alloc::Global;

impl Shows for Format {
    type Said = Bytes;

    ghost use Rattle.decode_text.specs.HexText.{octets_of};
    ghost use Rattle.decode_text.specs.Formats.{IsWhole, HasFault, Tells as TellsValues};

    ghost said = { octets_of };

    ghost Tells = { TellsValues };

    ghost IsSound = { IsWhole };

    ghost IsFaulty = { HasFault };

    fn show(&self, alloc: Global, text: &[u8]) -> Result<Shown, ReadFault> {
        let octets = read_octets(alloc, text)?;
        let Told { text, refused } = tell(alloc, *self, octets.as_slice())?;
        Ok(Shown { text, refused })
    }
}
