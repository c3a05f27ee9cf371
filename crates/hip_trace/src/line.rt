//! The line at the start of some bytes, read in one pass if it is the canonical text of a usual entry. `spelled` reads
//! all other lines.

ghost use Rattle.std.specs.Prelude.{◌≡◌, ◌<◌, ◌++◌, codes, IfSome};
ghost use Rattle.std.specs.Char.{digit_value};
ghost use Rattle.hip_trace.specs.Lines.{HasDigits, BeginsWithEntry, HasField, IsFirstLine};
ghost use Rattle.hip_trace.specs.Usuals.{usual_entry};

use crate::spelled::{some_lines, store_size};
use crate::usual::Usual;

/// A usual line: its entry, and how many bytes its text has.
#[derive(Clone, Copy)]
pub(crate) struct EntryText {
    pub usual: Usual,
    pub len: usize,
}

// For each byte, its value as a lower-case digit to base 16, or 16 if it is not a digit.
static DIGITS: [u8; 256] = [
    16, 16, 16, 16, 16, 16, 16, 16, 16, 16, 16, 16, 16, 16, 16, 16, 16, 16, 16, 16, 16, 16, 16, 16,
    16, 16, 16, 16, 16, 16, 16, 16, 16, 16, 16, 16, 16, 16, 16, 16, 16, 16, 16, 16, 16, 16, 16, 16,
    0, 1, 2, 3, 4, 5, 6, 7, 8, 9, 16, 16, 16, 16, 16, 16, 16, 16, 16, 16, 16, 16, 16, 16, 16, 16,
    16, 16, 16, 16, 16, 16, 16, 16, 16, 16, 16, 16, 16, 16, 16, 16, 16, 16, 16, 16, 16, 16, 16, 10,
    11, 12, 13, 14, 15, 16, 16, 16, 16, 16, 16, 16, 16, 16, 16, 16, 16, 16, 16, 16, 16, 16, 16, 16,
    16, 16, 16, 16, 16, 16, 16, 16, 16, 16, 16, 16, 16, 16, 16, 16, 16, 16, 16, 16, 16, 16, 16, 16,
    16, 16, 16, 16, 16, 16, 16, 16, 16, 16, 16, 16, 16, 16, 16, 16, 16, 16, 16, 16, 16, 16, 16, 16,
    16, 16, 16, 16, 16, 16, 16, 16, 16, 16, 16, 16, 16, 16, 16, 16, 16, 16, 16, 16, 16, 16, 16, 16,
    16, 16, 16, 16, 16, 16, 16, 16, 16, 16, 16, 16, 16, 16, 16, 16, 16, 16, 16, 16, 16, 16, 16, 16,
    16, 16, 16, 16, 16, 16, 16, 16, 16, 16, 16, 16, 16, 16, 16, 16, 16, 16, 16, 16, 16, 16, 16, 16,
    16, 16, 16, 16, 16, 16, 16, 16, 16, 16, 16, 16, 16, 16,
];

// The value of a byte as a lower-case digit to base 16, if it is a digit.
#[inline(always)]
fn digit_of(byte: u8) -> Option<u64>
    ensures value { IfSome result (λ digit. digit ≡ digit_value byte) }
    ensures small { IfSome result (λ digit. digit < 16) }
{
    let digit = DIGITS[byte as usize];
    if digit < 16 {
        Some(u64::from(digit))
    } else {
        None
    }
}

// The number of at most 16 digits that come first, if there are 16 bytes or more.
#[inline(always)]
fn first_number(bytes: &[u8]) -> Option<(u64, &[u8])>
    ensures { IfSome result (λ r. HasDigits bytes.now r.0 r.1.now) }
{
    if bytes.len() < 16 {
        return None;
    }
    let mut number: u64 = 0;
    let mut at = 0;
    'digits: while at < 16 {
        match digit_of(bytes[at]) {
            Some(digit) => number = number * 16 + digit,
            None => break,
        }
        at += 1;
    }
    if at == 0 {
        return None;
    }
    Some((number, &bytes[at..]))
}

// What comes after a word.
#[inline(always)]
fn after_word<'a>(bytes: &'a [u8], word: &[u8]) -> Option<&'a [u8]>
    ensures { IfSome result (λ rest. bytes.now ≡ word.now ++ rest.now) }
{
    bytes.strip_prefix(word)
}

// The hexadecimal number of the field that comes first, after its semicolon.
#[inline(always)]
fn first_field(bytes: &[u8]) -> Option<(u64, &[u8])>
    ensures { IfSome result (λ r. HasField bytes.now r.0 r.1.now) }
{
    if bytes.len() < 19 || bytes[0] != b';' || bytes[1] != b'0' || bytes[2] != b'x' {
        return None;
    }
    first_number(&bytes[3..])
}

// The hexadecimal number of the field that comes first, whose semicolon and `0x` were read already.
#[inline(always)]
fn rest_of_field(bytes: &[u8]) -> Option<(u64, &[u8])>
    ensures { IfSome result (λ r. HasField (codes ";0x" ++ bytes.now) r.0 r.1.now) }
{
    first_number(bytes)
}

#[inline(always)]
fn first_store(bytes: &[u8]) -> Option<(Usual, &[u8])>
    ensures { IfSome result (λ r. BeginsWithEntry (codes "STORE;0x" ++ bytes.now) (usual_entry r.0) r.1.now) }
{
    let (addr, rest) = rest_of_field(bytes)?;
    let (value, rest) = first_field(rest)?;
    let (size, rest) = first_field(rest)?;
    let size = store_size(value, size)?;
    Some((Usual::Store { addr, value, size }, rest))
}

#[inline(always)]
fn first_flush(bytes: &[u8]) -> Option<(Usual, &[u8])>
    ensures { IfSome result (λ r. BeginsWithEntry (codes "FLUSH;0x" ++ bytes.now) (usual_entry r.0) r.1.now) }
{
    let (addr, rest) = rest_of_field(bytes)?;
    let (size, rest) = first_field(rest)?;
    let (addr, size) = some_lines(addr, size)?;
    Some((Usual::Flush { addr, size }, rest))
}

fn first_persist(bytes: &[u8]) -> Option<(Usual, &[u8])>
    ensures { IfSome result (λ r. BeginsWithEntry (codes "PERSIST" ++ bytes.now) (usual_entry r.0) r.1.now) }
{
    let (addr, rest) = first_field(bytes)?;
    let (size, rest) = first_field(rest)?;
    let (addr, size) = some_lines(addr, size)?;
    Some((Usual::Persist { addr, size }, rest))
}

fn first_assert(bytes: &[u8]) -> Option<(Usual, &[u8])>
    ensures { IfSome result (λ r. BeginsWithEntry (codes "ASSERT" ++ bytes.now) (usual_entry r.0) r.1.now) }
{
    let (addr, rest) = first_field(bytes)?;
    let (size, rest) = first_field(rest)?;
    Some((Usual::Assert { addr, size }, rest))
}

// The entry that comes first, by the words in the order in which most traces have them.
#[inline(always)]
fn first_entry(bytes: &[u8]) -> Option<(Usual, &[u8])>
    ensures { IfSome result (λ r. BeginsWithEntry bytes.now (usual_entry r.0) r.1.now) }
{
    match after_word(bytes, b"STORE;0x") {
        Some(rest) => first_store(rest),
        None => match after_word(bytes, b"FLUSH;0x") {
            Some(rest) => first_flush(rest),
            None => match after_word(bytes, b"FENCE") {
                Some(rest) => Some((Usual::Fence, rest)),
                None => persist_or_assert(bytes),
            },
        },
    }
}

fn persist_or_assert(bytes: &[u8]) -> Option<(Usual, &[u8])>
    ensures { IfSome result (λ r. BeginsWithEntry bytes.now (usual_entry r.0) r.1.now) }
{
    match after_word(bytes, b"PERSIST") {
        Some(rest) => first_persist(rest),
        None => first_assert(after_word(bytes, b"ASSERT")?),
    }
}

/// The line that comes first, if it is STORE, FLUSH, FENCE, PERSIST or ASSERT in its canonical text, and there are 16
/// bytes or more for the digits of each number.
#[inline(always)]
pub(crate) fn first_line(bytes: &[u8]) -> Option<EntryText>
    ensures { IfSome result (λ line. IsFirstLine bytes.now line) }
{
    let (usual, rest) = first_entry(bytes)?;
    let _next = after_word(rest, b"\n")?;
    let len = bytes.len() - rest.len();
    if len > 256 {
        return None;
    }
    Some(EntryText { usual, len })
}
