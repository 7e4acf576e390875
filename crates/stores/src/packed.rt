// Codes of a few bits each in bytes that are lent. Bytes and width stay two arguments: a struct of both would be made for one call each time.
ghost use Rattle.std.specs.Prelude.{◌≡◌, ℕ, ◌+◌, ◌-◌, ◌*◌, ◌/◌, ◌%◌, ◌^◌, ◌<◌, ◌≤◌, length, if◌then◌else◌, nat_eq, slice_index};
ghost use Rattle.stores.specs.Packed.{code_in, code_at, per_byte_of, Scanned, ScannedBack, replaced};
ghost use Rattle.stores.specs.Widths.{bits_of};

use crate::width::EntryWidth;

// The code at a place.
pub(crate) fn read(bytes: &[u8], width: EntryWidth, place: usize) -> u8
    requires { place < length bytes.now * per_byte_of (bits_of width) }
    ensures { result ≡ code_at (bits_of width) bytes.now place }
{
    let per = width.per_byte() as usize;
    code_of(bytes[place / per], width.bits(), (place % per) as u32)
}

// Sets the code at a place.
pub(crate) fn write(bytes: &mut [u8], width: EntryWidth, place: usize, code: u8)
    requires { (place < length bytes.old * per_byte_of (bits_of width)) × (code < 2 ^ bits_of width) }
    ensures { (q : ℕ) → code_at (bits_of width) bytes.new q ≡ (if nat_eq q place then code else code_at (bits_of width) bytes.old q) }
{
    let per = width.per_byte() as usize;
    let at = place / per;
    bytes[at] = with_code(bytes[at], width.bits(), (place % per) as u32, code);
}

// The first byte from `start` on, before `end`, that is not 0. Kept out of `scan`, where each byte takes a fifth more instructions.
#[inline(never)]
fn first_nonzero(bytes: &[u8], start: usize, end: usize) -> Option<usize>
    requires { (start ≤ end) × (end ≤ length bytes.now) }
    ensures { Scanned (λ i. slice_index bytes.now i) start end result }
{
    let found = bytes[start..end].iter().position(|byte| *byte != 0)?;
    Some(start + found)
}

// The first place from `start` on, before `end`, whose code is not 0. It passes empty bytes whole.
pub(crate) fn scan(bytes: &[u8], width: EntryWidth, start: usize, end: usize) -> Option<usize>
    requires { end ≤ length bytes.now * per_byte_of (bits_of width) }
    ensures { Scanned (code_at (bits_of width) bytes.now) start end result }
{
    let per = width.per_byte() as usize;
    let bits = width.bits();
    // A `while`, since it goes on by a place or by whole bytes.
    let mut place = start;
    while place < end {
        let byte = bytes[place / per];
        if byte == 0 {
            place = first_nonzero(bytes, place / per + 1, (end - 1) / per + 1)? * per;
        } else if code_of(byte, bits, (place % per) as u32) == 0 {
            place += 1;
        } else {
            return Some(place);
        }
    }
    None
}

// The last place from `start` on, before `end`, whose code is not 0. It passes an empty byte whole.
pub(crate) fn scan_back(bytes: &[u8], width: EntryWidth, start: usize, end: usize) -> Option<usize>
    requires { end ≤ length bytes.now * per_byte_of (bits_of width) }
    ensures { ScannedBack (code_at (bits_of width) bytes.now) start end result }
{
    let per = width.per_byte() as usize;
    let bits = width.bits();
    // The places from this one on are passed. A `while`, as in `scan`.
    let mut passed = end;
    while passed > start {
        let place = passed - 1;
        let byte = bytes[place / per];
        if byte == 0 {
            passed = place - place % per;
        } else if code_of(byte, bits, (place % per) as u32) == 0 {
            passed = place;
        } else {
            return Some(place);
        }
    }
    None
}

// The k-th code of a byte.
fn code_of(byte: u8, bits: u32, k: u32) -> u8
    requires { (bits * k < 8) × (bits ≤ 8) }
    ensures { result ≡ code_in bits byte k }
{
    ((byte as u32 >> (bits * k)) % (1u32 << bits)) as u8
}

// The byte with another k-th code.
fn with_code(byte: u8, bits: u32, k: u32, code: u8) -> u8
    requires { (bits * k + bits ≤ 8) × (code < 2 ^ bits) }
    ensures { result ≡ replaced byte (bits * k) bits code }
{
    let low = 1u32 << (bits * k);
    let old = code_of(byte, bits, k) as u32 * low;
    (byte as u32 - old + code as u32 * low) as u8
}
