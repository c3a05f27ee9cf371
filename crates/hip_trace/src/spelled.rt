//! The entry that a text spells.

ghost use Rattle.std.specs.Prelude.{◌≡◌, ◌∷◌, Some, None, if◌then◌else◌};
ghost use Rattle.hip_trace.specs.Entries.{start, register, input, line_bytes, image_at, image, is_sized, sized_store, store, are_lines, some_lines, flush, persist, assert, stop, trap_of, trap, alone, entry_by, entry_of};
ghost use Rattle.hip_trace.specs.Seen.{fields_after};

use crate::entry::{Entry, TrapWord};
use crate::fields::{first_field, one_field, three_fields, two_fields, two_numbers};
use crate::numbers::read_signed_32;
use hip_num::{read_decimal, read_hex, read_signed};

#[tactic(auto, unfolding(crate::specs::Entries::start))]
fn start(rest: Option<&[u8]>) -> Option<Entry>
    ensures { result ≡ start (fields_after rest.entry) }
{
    let limit = read_decimal(one_field(rest)?)?;
    Some(Entry::Start { limit })
}

#[tactic(auto, unfolding(crate::specs::Entries::register))]
fn register(rest: Option<&[u8]>) -> Option<Entry>
    ensures { result ≡ register (fields_after rest.entry) }
{
    let (base, size) = two_numbers(rest)?;
    Some(Entry::Register { base, size })
}

#[tactic(auto, unfolding(crate::specs::Entries::input))]
fn input(rest: Option<&[u8]>) -> Option<Entry>
    ensures { result ≡ input (fields_after rest.entry) }
{
    let number = read_signed(one_field(rest)?)?;
    Some(Entry::Input { number })
}

/// The 64 bytes of a cache line, from their hexadecimal digits.
fn line_bytes(text: &[u8]) -> Option<[u8; 64]>
    ensures { result ≡ line_bytes text.now }
{
    let mut bytes = [0; 64];
    match hex::decode_to_slice(text, &mut bytes) {
        Ok(()) => Some(bytes),
        Err(_) => None,
    }
}

fn image_at(addr: u64, bytes: Option<[u8; 64]>) -> Option<Entry>
    ensures { result ≡ image_at addr bytes }
{
    match bytes {
        Some(bytes) => if addr % 64 == 0 {
            Some(Entry::Image { addr, bytes })
        } else {
            None
        },
        None => None,
    }
}

#[tactic(auto, unfolding(crate::specs::Entries::image))]
fn image(rest: Option<&[u8]>) -> Option<Entry>
    ensures { result ≡ image (fields_after rest.entry) }
{
    let (addr, digits) = two_fields(rest)?;
    let addr = read_hex(addr)?;
    image_at(addr, line_bytes(digits))
}

/// The size of a store, if stores have that size and the value has no more bytes.
pub(crate) fn store_size(value: u64, size: u64) -> Option<u32>
    ensures { result ≡ (if is_sized value size then Some size else None) }
{
    match size {
        1 => if value < 1 << 8 { Some(1) } else { None },
        2 => if value < 1 << 16 { Some(2) } else { None },
        4 => if value < 1 << 32 { Some(4) } else { None },
        8 => Some(8),
        _ => None,
    }
}

/// A store, if stores have that size and the value has no more bytes.
fn sized_store(addr: u64, value: u64, size: u64) -> Option<Entry>
    ensures { result ≡ sized_store addr value size }
{
    match store_size(value, size) {
        Some(size) => Some(Entry::Store { addr, value, size }),
        None => None,
    }
}

#[tactic(auto, unfolding(crate::specs::Entries::store))]
fn store(rest: Option<&[u8]>) -> Option<Entry>
    ensures { result ≡ store (fields_after rest.entry) }
{
    let (addr, value, size) = three_fields(rest)?;
    let addr = read_hex(addr)?;
    let value = read_hex(value)?;
    let size = read_hex(size)?;
    sized_store(addr, value, size)
}

fn are_lines(addr: u64, size: u64) -> bool
    ensures { result ≡ are_lines addr size }
{
    addr % 64 == 0 && size % 64 == 0 && 0 < size && u128::from(addr) + u128::from(size) <= 1 << 64
}

/// One or more whole cache lines: the first one's address, and how many bytes they have.
pub(crate) fn some_lines(addr: u64, size: u64) -> Option<(u64, u64)>
    ensures { result ≡ some_lines (addr, size) }
{
    if are_lines(addr, size) {
        Some((addr, size))
    } else {
        None
    }
}

#[tactic(auto, unfolding(crate::specs::Entries::flush))]
fn flush(rest: Option<&[u8]>) -> Option<Entry>
    ensures { result ≡ flush (fields_after rest.entry) }
{
    let (addr, size) = two_numbers(rest)?;
    let (addr, size) = some_lines(addr, size)?;
    Some(Entry::Flush { addr, size })
}

#[tactic(auto, unfolding(crate::specs::Entries::persist))]
fn persist(rest: Option<&[u8]>) -> Option<Entry>
    ensures { result ≡ persist (fields_after rest.entry) }
{
    let (addr, size) = two_numbers(rest)?;
    let (addr, size) = some_lines(addr, size)?;
    Some(Entry::Persist { addr, size })
}

#[tactic(auto, unfolding(crate::specs::Entries::assert))]
fn assert(rest: Option<&[u8]>) -> Option<Entry>
    ensures { result ≡ assert (fields_after rest.entry) }
{
    let (addr, size) = two_numbers(rest)?;
    Some(Entry::Assert { addr, size })
}

#[tactic(auto, unfolding(crate::specs::Entries::stop))]
fn stop(rest: Option<&[u8]>) -> Option<Entry>
    ensures { result ≡ stop (fields_after rest.entry) }
{
    let code = read_signed_32(one_field(rest)?)?;
    Some(Entry::Stop { code })
}

/// The kind of a trap, from its word.
#[tactic(auto, unfolding(crate::specs::Entries::trap_of))]
fn trap_of(text: &[u8]) -> Option<TrapWord>
    ensures { result ≡ trap_of text.now }
{
    if text == TrapWord::DivZero.text() {
        Some(TrapWord::DivZero)
    } else if text == TrapWord::DivOverflow.text() {
        Some(TrapWord::DivOverflow)
    } else if text == TrapWord::ShiftRange.text() {
        Some(TrapWord::ShiftRange)
    } else if text == TrapWord::Address.text() {
        Some(TrapWord::Address)
    } else if text == TrapWord::Misaligned.text() {
        Some(TrapWord::Misaligned)
    } else if text == TrapWord::Stack.text() {
        Some(TrapWord::Stack)
    } else if text == TrapWord::Depth.text() {
        Some(TrapWord::Depth)
    } else if text == TrapWord::InputEnd.text() {
        Some(TrapWord::InputEnd)
    } else if text == TrapWord::Unreachable.text() {
        Some(TrapWord::Unreachable)
    } else {
        None
    }
}

#[tactic(auto, unfolding(crate::specs::Entries::trap))]
fn trap(rest: Option<&[u8]>) -> Option<Entry>
    ensures { result ≡ trap (fields_after rest.entry) }
{
    let kind = trap_of(one_field(rest)?)?;
    Some(Entry::Trap { kind })
}

/// An entry that has no fields.
fn alone(entry: Entry, rest: Option<&[u8]>) -> Option<Entry>
    ensures { result ≡ alone entry (fields_after rest.entry) }
{
    match rest {
        None => Some(entry),
        Some(_) => None,
    }
}

/// The entry of a word, with the text after the word's semicolon.
#[tactic(auto, unfolding(crate::specs::Entries::entry_by))]
fn entry_by(word: &[u8], rest: Option<&[u8]>) -> Option<Entry>
    ensures { result ≡ entry_by (word.now ∷ fields_after rest.entry) }
{
    if word == b"STORE".as_slice() {
        store(rest)
    } else if word == b"FLUSH".as_slice() {
        flush(rest)
    } else if word == b"FENCE".as_slice() {
        alone(Entry::Fence, rest)
    } else if word == b"PERSIST".as_slice() {
        persist(rest)
    } else if word == b"ASSERT".as_slice() {
        assert(rest)
    } else if word == b"START".as_slice() {
        start(rest)
    } else if word == b"REGISTER".as_slice() {
        register(rest)
    } else if word == b"INPUT".as_slice() {
        input(rest)
    } else if word == b"IMAGE".as_slice() {
        image(rest)
    } else if word == b"STOP".as_slice() {
        stop(rest)
    } else if word == b"TRAP".as_slice() {
        trap(rest)
    } else if word == b"CUT".as_slice() {
        alone(Entry::Cut, rest)
    } else {
        None
    }
}

/// The entry that a text spells.
#[tactic(auto, unfolding(crate::specs::Entries::entry_of))]
pub(crate) fn entry_of(text: &[u8]) -> Option<Entry>
    ensures { result ≡ entry_of text.now }
{
    if text.len() > 256 {
        return None;
    }
    let (word, rest) = first_field(text);
    entry_by(word, rest)
}
