// Number columns: four bytes, spaces and then the digits of 0 to 9999 without leading zeros.
ghost use Rattle.std.specs.Prelude.{◌≡◌, ◌<◌};
ghost use Rattle.text.specs.Columns.{lead, last, lead_of, column};
ghost use Rattle.text.specs.Reading.{number_first};

use crate::symbol::{Symbol, classify};

// The number up to a place before the last; `before` is the number up to the place before it.
fn read_lead(before: u16, b: u8) -> Option<u16>
    requires { before < 1000 }
    ensures { result ≡ lead before b }
{
    match classify(b as char) {
        Symbol::Space if before == 0 => Some(0),
        Symbol::Digit(d) if before != 0 || d != 0 => Some(10 * before + d),
        _ => None,
    }
}

// The whole number; `before` is the number up to the place before the last. The last place is no space, and may be 0 by itself.
fn read_last(before: u16, b: u8) -> Option<u16>
    requires { before < 1000 }
    ensures { result ≡ last before b }
{
    match classify(b as char) {
        Symbol::Digit(d) => Some(10 * before + d),
        _ => None,
    }
}

// The number whose column the bytes begin with.
#[inline(always)]
pub fn number_column(bytes: &[u8]) -> Option<u16>
    ensures { result ≡ number_first bytes.now }
{
    let [a, b, c, d, ..] = bytes else {
        return None;
    };
    let thousands = read_lead(0, *a)?;
    let hundreds = read_lead(thousands, *b)?;
    let tens = read_lead(hundreds, *c)?;
    read_last(tens, *d)
}

// The byte of a place before the last, where `v` is the number up to that place.
fn lead_byte(v: u16) -> u8
    ensures { result ≡ lead_of v }
{
    if v == 0 { b' ' } else { b'0' + (v % 10) as u8 }
}

// The column of a number. A format with a width promises no more than a least width; a column has four bytes whatever
// the number.
pub(crate) fn column_bytes(v: u16) -> [u8; 4]
    ensures { result ≡ column v }
{
    [
        lead_byte(v / 1000),
        lead_byte(v / 100),
        lead_byte(v / 10),
        b'0' + (v % 10) as u8,
    ]
}
