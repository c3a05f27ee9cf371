//! Numbers as they are spelled in a trace.

ghost use Rattle.std.specs.Prelude.{◌≡◌, ◌^◌, Some, None, if◌then◌else◌};
ghost use Rattle.hip_num.specs.Texts.{in_range, signed_of};

fn narrow(number: i64) -> Option<i32>
    ensures { result ≡ (if in_range (2 ^ 31) number then Some number else None) }
{
    if number >= -0x8000_0000 && number <= 0x7fff_ffff {
        Some(number as i32)
    } else {
        None
    }
}

/// Digits with an optional `-` before them, in the range of an `i32`.
pub(crate) fn read_signed_32(text: &[u8]) -> Option<i32>
    ensures { result ≡ signed_of (2 ^ 31) text.now }
{
    match hip_num::read_signed(text) {
        Some(number) => narrow(number),
        None => None,
    }
}
