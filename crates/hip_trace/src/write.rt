//! Entries, written in their canonical texts.

ghost use Rattle.std.specs.Prelude.{◌≡◌, ◌+◌, ◌/◌, ◌%◌, ◌<◌, ◌≤◌, ◌++◌, ◌∷◌, ℕ, [], codes, decimal, drop, false, length};
ghost use Rattle.std.specs.Fmt.{digit_glyph, digits, signed_decimal};
ghost use Rattle.hex.specs.Hex.{encode_lower};
ghost use Rattle.hip_io.specs.Sinks.{HasPut, Wrote};
ghost use Rattle.hip_num.specs.Texts.{hexadecimal};
ghost use Rattle.hip_tokens.specs.Bytes.{byte};
ghost use Rattle.hip_trace.specs.Texts.{line_of, with_fields};
ghost use Rattle.hip_trace.specs.Usuals.{usual_entry};
ghost use Rattle.hip_trace.specs.declared.entry.Entry.TheVariants as entries;

use crate::entry::Entry;
use crate::usual::Usual;
use hip_io::{Put, Sink, WriteFault, put_after};
use std::marker::Model;

/// A line of a trace, built from its end: each piece is put before the pieces that are there.
#[derive(Drop)]
struct EntryLine {
    bytes: [u8; 64],
    start: usize,
}

impl Model for EntryLine {
    ghost use Rattle.std.specs.Prelude.{ℕ, List, ◌≤◌, drop};

    ghost Value = { List ℕ };

    ghost view = { λ l. drop l.start l.bytes };

    ghost invariant = { λ l. l.start ≤ 64 };
}

impl EntryLine {
    #[inline(always)]
    fn empty() -> EntryLine
        ensures { result ≡ [] }
    {
        EntryLine {
            bytes: [0; 64],
            start: 64,
        }
    }

    /// The line feed that ends a line.
    #[inline(always)]
    fn new() -> EntryLine
        ensures { result ≡ codes "\n" }
    {
        EntryLine {
            bytes: [b'\n'; 64],
            start: 63,
        }
    }

    #[inline(always)]
    fn as_slice(&self) -> &[u8]
        ensures { result.now ≡ self.now }
    {
        &self.bytes[self.start..]
    }

    #[inline(always)]
    fn put(&mut self, piece: &[u8])
        requires { length self.old + length piece.now ≤ 64 }
        ensures { self.new ≡ piece.now ++ self.old }
    {
        let start = self.start - piece.len();
        copy_before(&mut self.bytes, self.start, piece);
        self.start = start;
    }

    fn put_field(&mut self, piece: &[u8])
        requires { length self.old + length piece.now < 64 }
        ensures { self.new ≡ byte ";" ∷ (piece.now ++ self.old) }
    {
        self.put(piece);
        self.put(b";");
    }

    #[inline(always)]
    fn put_hexadecimal(&mut self, number: u64)
        requires { length self.old ≤ 45 }
        ensures text { self.new ≡ byte ";" ∷ (hexadecimal number ++ self.old) }
        ensures length { length self.new ≤ length self.old + 19 }
    {
        let at = digits_before(&mut self.bytes, self.start, number);
        self.start = prefix_before(&mut self.bytes, at);
    }
}

/// Puts a piece before a place.
#[inline(always)]
fn copy_before(bytes: &mut [u8; 64], end: usize, piece: &[u8])
    requires inside { end ≤ 64 }
    requires room { length piece.now ≤ end }
    ensures { (start : ℕ) → start + length piece.now ≡ end → drop start bytes.new ≡ piece.now ++ drop end bytes.old }
{
    let start = end - piece.len();
    bytes[start..end].copy_from_slice(piece);
}

/// Puts what comes before the digits of a number, and returns where it begins.
#[inline(always)]
fn prefix_before(bytes: &mut [u8; 64], end: usize) -> usize
    requires room { 3 ≤ end }
    requires inside { end ≤ 64 }
    ensures text { drop result bytes.new ≡ codes ";0x" ++ drop end bytes.old }
    ensures start { result + 3 ≡ end }
{
    bytes[end - 1] = b'x';
    bytes[end - 2] = b'0';
    bytes[end - 3] = b';';
    end - 3
}

/// Writes the digits of a number to base 16 before a place, and returns where they begin.
#[inline(always)]
fn digits_before(bytes: &mut [u8; 64], end: usize, number: u64) -> usize
    requires room { 16 ≤ end }
    requires inside { end ≤ 64 }
    ensures text { drop result bytes.new ≡ digits 16 false number ++ drop end bytes.old }
    ensures length { length (drop result bytes.new) ≤ length (drop end bytes.old) + 16 }
    ensures start { result < end }
    ensures few { end ≤ result + 16 }
{
    let mut at = end - 1;
    let mut rest = number;
    'pairs: while rest >= 256 {
        let pair = rest % 256;
        bytes[at] = low_digit(pair);
        bytes[at - 1] = high_digit(pair);
        rest /= 256;
        at -= 2;
    }
    bytes[at] = low_digit(rest);
    if rest < 16 {
        return at;
    }
    bytes[at - 1] = high_digit(rest);
    at - 1
}

/// The two digits to base 16 of each byte.
static HEX_PAIRS: [u8; 512] = *b"000102030405060708090a0b0c0d0e0f\
    101112131415161718191a1b1c1d1e1f\
    202122232425262728292a2b2c2d2e2f\
    303132333435363738393a3b3c3d3e3f\
    404142434445464748494a4b4c4d4e4f\
    505152535455565758595a5b5c5d5e5f\
    606162636465666768696a6b6c6d6e6f\
    707172737475767778797a7b7c7d7e7f\
    808182838485868788898a8b8c8d8e8f\
    909192939495969798999a9b9c9d9e9f\
    a0a1a2a3a4a5a6a7a8a9aaabacadaeaf\
    b0b1b2b3b4b5b6b7b8b9babbbcbdbebf\
    c0c1c2c3c4c5c6c7c8c9cacbcccdcecf\
    d0d1d2d3d4d5d6d7d8d9dadbdcdddedf\
    e0e1e2e3e4e5e6e7e8e9eaebecedeeef\
    f0f1f2f3f4f5f6f7f8f9fafbfcfdfeff";

#[inline(always)]
fn high_digit(value: u64) -> u8
    requires { value < 256 }
    ensures { result ≡ digit_glyph false (value / 16) }
{
    HEX_PAIRS[2 * value as usize]
}

#[inline(always)]
fn low_digit(value: u64) -> u8
    requires { value < 256 }
    ensures { result ≡ digit_glyph false (value % 16) }
{
    HEX_PAIRS[2 * value as usize + 1]
}

/// The 128 hexadecimal digits of a cache line.
fn line_digits(bytes: &[u8; 64], digits: &mut [u8; 128])
    ensures { digits.new ≡ encode_lower bytes.now }
{
    match hex::encode_to_slice(bytes.as_slice(), digits) {
        Ok(()) => {}
        Err(_) => unreachable!(),
    }
}

/// Writes a word with one number in decimal.
fn put_natural<S: Sink>(word: &[u8], number: u64, out: &mut S) -> Result<(), WriteFault>
    requires { length word.now ≤ 16 }
    ensures { Wrote (S.state out.old) (S.state out.new) (with_fields word.now (decimal number ∷ []) ++ codes "\n") result }
{
    let mut digits = [0; 40];
    let len = hip_num::natural_into(&mut digits, u128::from(number));
    put_word(word, &digits[..len], out)
}

/// Writes a word with one number in signed decimal.
fn put_signed<S: Sink>(word: &[u8], number: i64, out: &mut S) -> Result<(), WriteFault>
    requires { length word.now ≤ 16 }
    ensures { Wrote (S.state out.old) (S.state out.new)
        (with_fields word.now (signed_decimal number ∷ []) ++ codes "\n") result }
{
    let mut digits = [0; 40];
    let len = hip_num::decimal_into(&mut digits, number);
    put_word(word, &digits[..len], out)
}

/// Writes a word with one field.
fn put_word<S: Sink>(word: &[u8], field: &[u8], out: &mut S) -> Result<(), WriteFault>
    requires word { length word.now ≤ 16 }
    requires field { length field.now ≤ 40 }
    ensures { Wrote (S.state out.old) (S.state out.new) (with_fields word.now (field.now ∷ []) ++ codes "\n") result }
{
    let mut line = EntryLine::new();
    line.put_field(field);
    line.put(word);
    put_line(line.as_slice(), out)
}

/// Writes a word with two numbers in hexadecimal.
#[inline(always)]
fn put_numbers<S: Sink>(word: &[u8], a: u64, b: u64, out: &mut S) -> Result<(), WriteFault>
    requires { length word.now ≤ 16 }
    ensures { Wrote (S.state out.old) (S.state out.new)
        (with_fields word.now (hexadecimal a ∷ hexadecimal b ∷ []) ++ codes "\n") result }
{
    let mut line = EntryLine::new();
    line.put_hexadecimal(b);
    line.put_hexadecimal(a);
    line.put(word);
    put_line(line.as_slice(), out)
}

#[tactic(auto, unfolding(crate::specs::Texts::text_of))]
fn put_store<S: Sink>(addr: u64, value: u64, size: u32, out: &mut S) -> Result<(), WriteFault>
    ensures { Wrote (S.state out.old) (S.state out.new) (line_of (entries.Store addr value size)) result }
{
    let mut line = EntryLine::new();
    line.put_hexadecimal(u64::from(size));
    line.put_hexadecimal(value);
    line.put_hexadecimal(addr);
    line.put(b"STORE");
    put_line(line.as_slice(), out)
}

#[tactic(auto, unfolding(crate::specs::Texts::text_of))]
fn put_flush<S: Sink>(addr: u64, size: u64, out: &mut S) -> Result<(), WriteFault>
    ensures { Wrote (S.state out.old) (S.state out.new) (line_of (entries.Flush addr size)) result }
{
    put_numbers(b"FLUSH", addr, size, out)
}

#[tactic(auto, unfolding(crate::specs::Texts::text_of))]
fn put_persist<S: Sink>(addr: u64, size: u64, out: &mut S) -> Result<(), WriteFault>
    ensures { Wrote (S.state out.old) (S.state out.new) (line_of (entries.Persist addr size)) result }
{
    put_numbers(b"PERSIST", addr, size, out)
}

#[tactic(auto, unfolding(crate::specs::Texts::text_of))]
fn put_assert<S: Sink>(addr: u64, size: u64, out: &mut S) -> Result<(), WriteFault>
    ensures { Wrote (S.state out.old) (S.state out.new) (line_of (entries.Assert addr size)) result }
{
    put_numbers(b"ASSERT", addr, size, out)
}

/// Puts a line with the bytes of a cache line, in three pieces, since it is longer than an `EntryLine`.
#[tactic(auto, unfolding(crate::specs::Texts::text_of))]
fn put_pieces<S: Sink>(addr: u64, bytes: &[u8; 64], out: &mut S) -> Put
    ensures { HasPut (S.state out.old) (S.state out.new) (line_of (entries.Image addr bytes.now)) result }
{
    let mut front = EntryLine::empty();
    front.put(b";");
    front.put_hexadecimal(addr);
    front.put(b"IMAGE");
    let mut digits = [0; 128];
    line_digits(bytes, &mut digits);
    let put = put_after(Put::Done, out, front.as_slice());
    let put = put_after(put, out, digits.as_slice());
    put_after(put, out, b"\n")
}

fn put_image<S: Sink>(addr: u64, bytes: &[u8; 64], out: &mut S) -> Result<(), WriteFault>
    ensures { Wrote (S.state out.old) (S.state out.new) (line_of (entries.Image addr bytes.now)) result }
{
    match put_pieces(addr, bytes, out) {
        Put::Done => Ok(()),
        Put::Failed => Err(WriteFault),
    }
}

/// Writes the canonical text of an entry, with a line feed after it. It writes any entry, even one that no text spells,
/// such as a store of 3 bytes.
#[tactic(auto, unfolding(crate::specs::Texts::text_of))]
pub fn write_entry<S: Sink>(entry: &Entry, out: &mut S) -> Result<(), WriteFault>
    ensures { Wrote (S.state out.old) (S.state out.new) (line_of entry.now) result }
{
    match entry {
        Entry::Start { limit } => put_natural(b"START", *limit, out),
        Entry::Register { base, size } => put_numbers(b"REGISTER", *base, *size, out),
        Entry::Input { number } => put_signed(b"INPUT", *number, out),
        Entry::Image { addr, bytes } => put_image(*addr, bytes, out),
        Entry::Store { addr, value, size } => put_store(*addr, *value, *size, out),
        Entry::Flush { addr, size } => put_flush(*addr, *size, out),
        Entry::Fence => put_line(b"FENCE\n", out),
        Entry::Persist { addr, size } => put_persist(*addr, *size, out),
        Entry::Assert { addr, size } => put_assert(*addr, *size, out),
        Entry::Stop { code } => put_signed(b"STOP", i64::from(*code), out),
        Entry::Trap { kind } => put_word(b"TRAP", kind.text(), out),
        Entry::Cut => put_line(b"CUT\n", out),
    }
}

/// Writes the canonical text of a usual entry, with a line feed after it.
#[inline(always)]
#[tactic(auto, unfolding(crate::specs::Texts::text_of))]
pub fn write_usual<S: Sink>(usual: Usual, out: &mut S) -> Result<(), WriteFault>
    ensures { Wrote (S.state out.old) (S.state out.new) (line_of (usual_entry usual)) result }
{
    match usual {
        Usual::Store { addr, value, size } => put_store(addr, value, size, out),
        Usual::Flush { addr, size } => put_flush(addr, size, out),
        Usual::Fence => put_line(b"FENCE\n", out),
        Usual::Persist { addr, size } => put_persist(addr, size, out),
        Usual::Assert { addr, size } => put_assert(addr, size, out),
    }
}

/// Writes a complete line.
#[inline(always)]
fn put_line<S: Sink>(line: &[u8], out: &mut S) -> Result<(), WriteFault>
    ensures { Wrote (S.state out.old) (S.state out.new) line.now result }
{
    match out.put(line) {
        Put::Done => Ok(()),
        Put::Failed => Err(WriteFault),
    }
}
