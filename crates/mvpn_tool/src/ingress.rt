//! What is shown of a text of ingress replication.
ghost use Rattle.std.specs.Prelude.{◌≡◌, true, false};

use crate::shown::{Shown, Shows};
use ingress_text::{Input, Told, read, tell};
use line_words::ReadFault;
use std::alloc::Global;

/// What a root and its peers do by a text, with the faults of peers.
#[derive(Clone, Copy)]
pub struct Ingress;

impl Shows for Ingress {
    type Said = Input;

    ghost use Rattle.ingress_text.specs.Grammar.{input_of};
    ghost use Rattle.ingress_text.specs.Telling.{is_refused, Tells as TellsCopies};

    ghost said = { input_of };

    ghost Tells = { λ own. TellsCopies };

    ghost IsSound = { λ own what. is_refused what ≡ false };

    ghost IsFaulty = { λ own what. is_refused what ≡ true };

    fn show(&self, alloc: Global, text: &[u8]) -> Result<Shown, ReadFault> {
        let input = read(alloc, text)?;
        let Told { text, refused } = tell(alloc, &input)?;
        Ok(Shown { text, refused })
    }
}
