//! Octets in hexadecimal digits.
ghost use Rattle.std.specs.Prelude.{◌≡◌, ◌≤◌, ◌++◌, length, OnOk};
ghost use Rattle.hex.specs.Hex.{encode_lower};
ghost use Rattle.scenario_defs.specs.Text.{hex_text};

use mv_base::{Bytes, NoMemory};

/// Octets whose digits are written at once.
const PIECE: usize = 32;

/// Appends at most 32 octets in two hexadecimal digits each.
fn put_piece(out: &mut Bytes, octets: &[u8]) -> Result<(), NoMemory>
    requires { length octets.now ≤ PIECE }
    ensures { OnOk result (out.new ≡ out.old ++ encode_lower octets.now) }
{
    let mut digits = [0; 2 * PIECE];
    let text = &mut digits[..2 * octets.len()];
    match hex::encode_to_slice(octets, text) {
        Ok(()) => out.extend(text),
        Err(_) => unreachable!(),
    }
}

/// Appends octets in two hexadecimal digits each.
pub fn put_digits(out: &mut Bytes, octets: &[u8]) -> Result<(), NoMemory>
    ensures { OnOk result (out.new ≡ out.old ++ encode_lower octets.now) }
{
    let mut rest = octets;
    while rest.len() > PIECE {
        let (piece, thereafter) = rest.split_at(PIECE);
        put_piece(out, piece)?;
        rest = thereafter;
    }
    put_piece(out, rest)
}

/// Appends octets in two hexadecimal digits each, or `-` for none.
pub fn put_hex(out: &mut Bytes, octets: &[u8]) -> Result<(), NoMemory>
    ensures { OnOk result (out.new ≡ out.old ++ hex_text octets.now) }
{
    match octets {
        [] => out.extend(b"-"),
        [_, ..] => put_digits(out, octets),
    }
}
