ghost use Rattle.std.specs.Prelude.{◌≡◌};
ghost use Rattle.hip_types.specs.Numbers.{bits, signed, wrapped};

use hip_types::{Bits, Width};

/// The integer read with a sign.
pub fn signed_value(a: Bits) -> i64
    ensures { result ≡ signed a.width a.value }
{
    let sign = a.width.sign_bit();
    if a.value < sign {
        a.value as i64
    } else {
        -((a.width.all_bits() - a.value) as i64) - 1
    }
}

/// A number with a sign modulo 2^N, as an integer of width N.
pub fn from_signed(width: Width, value: i64) -> Bits
    ensures { result ≡ bits width (wrapped width value) }
{
    Bits::new(width, value.cast_unsigned())
}
