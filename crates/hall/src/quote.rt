// Bytes in quotes, as the console reads and shows them.
ghost use Rattle.std.specs.Prelude.{◌<◌, length, IfSome};

use std::alloc::{AllocError, Global};
use std::fmt;

fn hex_value(b: u8) -> Option<u8>
    ensures { IfSome result (λ v. v < 16) }
{
    Some((b as char).to_digit(16)? as u8)
}

// The next byte between the quotes, and what stands behind it; none at the end and at a fault.
fn next_byte(quoted: &[u8]) -> Option<(u8, &[u8])>
    ensures { IfSome result (λ next. length next.1.now < length quoted.now) }
{
    match quoted {
        [b'\\', b'n', rest @ ..] => Some((b'\n', rest)),
        [b'\\', b'x', high, low, rest @ ..] => {
            Some((hex_value(*high)? * 16 + hex_value(*low)?, rest))
        }
        [b'\\', b, rest @ ..] if matches!(b, b'"' | b'\\') => Some((*b, rest)),
        [b'"' | b'\\', ..] => None,
        [b, rest @ ..] => Some((*b, rest)),
        [] => None,
    }
}

// The bytes between the quotes, or none where they are not quoted as they should be.
pub fn unquoted(heap: Global, quoted: &[u8]) -> Result<Option<Vec<u8>>, AllocError> {
    let [b'"', between @ .., b'"'] = quoted else {
        return Ok(None);
    };
    let mut bytes = Vec::new(heap);
    let mut rest = between;
    while let Some((byte, behind)) = next_byte(rest) {
        bytes.push(byte)?;
        rest = behind;
    }
    Ok(rest.is_empty().then_some(bytes))
}

// Does the byte stand for itself between the quotes?
fn is_plain(b: u8) -> bool {
    matches!(b, b' ' | b'!' | b'#'..=b'[' | b']'..=b'~')
}

// Shows bytes in quotes.
#[derive(Clone, Copy)]
pub struct Quoted<'a>(pub &'a [u8]);

impl<'a> fmt::Display for Quoted<'a> {
    fn fmt<W: fmt::Write>(&self, f: &mut fmt::Formatter<W>) -> fmt::Result {
        f.write_str("\"")?;
        // bytes that stand for themselves are written together, since one by one they take twice the instructions
        for run in self.0.chunk_by(|a, b| is_plain(*a) && is_plain(*b)) {
            match run {
                [b'\n'] => f.write_str("\\n")?,
                [b'"'] => f.write_str("\\\"")?,
                [b'\\'] => f.write_str("\\\\")?,
                [b] if !is_plain(*b) => write!(f, "\\x{b:02x}")?,
                _ => f.write_str(str::from_utf8(run).map_err(|_| fmt::Error)?)?,
            }
        }
        f.write_str("\"")
    }
}
