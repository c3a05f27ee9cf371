ghost use Rattle.std.specs.Prelude.{◌≡◌};
ghost use Rattle.hip_globals.specs.Constants.{index_of};

use hip_types::Bits;

/// An index, sign-extended to 64 bits.
pub fn index(bits: Bits) -> u64
    ensures { result ≡ index_of bits }
{
    let sign = 1 << (bits.width.bits() - 1);
    if bits.value < sign {
        bits.value
    } else {
        bits.value.wrapping_sub(sign).wrapping_sub(sign)
    }
}
