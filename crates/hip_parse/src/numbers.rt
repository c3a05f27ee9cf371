//! The values of numbers.

ghost use Rattle.std.specs.Prelude.{◌≡◌, ◌^◌, ◌-◌, ◌<◌, ◌*◌, Some, None, Option};
ghost use Rattle.hip_types.specs.Widths.{bits_of};
ghost use Rattle.hip_grammar.specs.Numbers.{below, digits_from, is_negative, magnitude, negated, value_of, count_of, alignment_of, is_alignment};

use hip_types::{LARGEST_ALIGNMENT, LARGEST_COUNT, Width};

/// The value of digits, if it fits 64 bits.
fn decimal(digits: &[u8]) -> Option<u64>
    ensures { result ≡ below (2 ^ 64) (digits_from 0 digits.now) }
{
    let mut n: u64 = 0;
    for d in digits {
        let v = u64::from(d.saturating_sub(b'0'));
        if n > (u64::MAX - v) / 10 {
            return None;
        }
        n = 10 * n + v;
    }
    Some(n)
}

fn is_negative(t: &[u8]) -> bool
    ensures { result ≡ is_negative t.now }
{
    match t.split_first() {
        None => false,
        Some((d, _)) => *d == b'-',
    }
}

/// The value without the sign, if it fits 64 bits.
fn magnitude(t: &[u8]) -> Option<u64>
    ensures { result ≡ below (2 ^ 64) (magnitude t.now) }
{
    match t.split_first() {
        None => Some(0),
        Some((d, digits)) => {
            if *d == b'-' {
                decimal(digits)
            } else {
                decimal(t)
            }
        }
    }
}

fn negated(width: Width, n: u64) -> Option<u64>
    ensures { result ≡ negated width n }
{
    if n == 0 {
        return Some(0);
    }
    let half = width.sign_bit();
    if n <= half {
        Some(half - n + half)
    } else {
        None
    }
}

fn below_width(width: Width, n: u64) -> Option<u64>
    ensures { result ≡ below (2 ^ bits_of width) n }
{
    if n / 2 < width.sign_bit() {
        Some(n)
    } else {
        None
    }
}

/// A number from -2^(w-1) to 2^w - 1, modulo 2^w.
#[tactic(auto, using(crate::proofs::Digits::value_of_big))]
pub(crate) fn value_of(width: Width, t: &[u8]) -> Option<u64>
    ensures { result ≡ value_of width t.now }
{
    match magnitude(t) {
        None => None,
        Some(n) => {
            if is_negative(t) {
                negated(width, n)
            } else {
                below_width(width, n)
            }
        }
    }
}

/// The count of an array.
#[tactic(auto, using(crate::proofs::Digits::count_of_big))]
pub(crate) fn count_of(t: &[u8]) -> Option<u64>
    ensures { result ≡ count_of t.now }
{
    match magnitude(t) {
        None => None,
        Some(n) => {
            if is_negative(t) && n != 0 {
                None
            } else if n <= LARGEST_COUNT {
                Some(n)
            } else {
                None
            }
        }
    }
}

fn is_alignment(n: u64) -> bool
    ensures { result ≡ is_alignment n }
{
    n != 0 && LARGEST_ALIGNMENT % n == 0
}

/// The number after `align`.
#[tactic(auto, using(crate::proofs::Digits::alignment_of_big))]
pub(crate) fn alignment_of(t: &[u8]) -> Option<u64>
    ensures { result ≡ alignment_of t.now }
{
    match magnitude(t) {
        None => None,
        Some(n) => {
            if !is_negative(t) && is_alignment(n) {
                Some(n)
            } else {
                None
            }
        }
    }
}
