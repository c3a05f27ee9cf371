ghost use Rattle.std.specs.Prelude.{◌≡◌, ◌<◌};
ghost use Rattle.hip_types.specs.Widths.{bits_of};
ghost use Rattle.hip_num.specs.Casts.{widened, narrowed};

use crate::sign::{from_signed, signed_value};
use hip_types::{Bits, Width};

/// The same number at a greater width: zeros come before it or, if it is read with a sign, copies of its sign.
pub fn widen(a: Bits, to: Width, signed: bool) -> Bits
    requires { bits_of a.width < bits_of to }
    ensures { result ≡ widened a to signed }
{
    if signed {
        from_signed(to, signed_value(a))
    } else {
        Bits::new(to, a.value)
    }
}

/// The number modulo 2^N, where N is the smaller width.
pub fn narrow(a: Bits, to: Width) -> Bits
    requires { bits_of to < bits_of a.width }
    ensures { result ≡ narrowed a to }
{
    Bits::new(to, a.value)
}
