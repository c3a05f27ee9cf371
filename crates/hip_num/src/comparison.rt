ghost use Rattle.std.specs.Prelude.{◌≡◌};
ghost use Rattle.hip_num.specs.Comparisons.{holds};

use crate::sign::signed_value;
use hip_types::{Bits, Pred};

/// Whether a comparison holds of two integers of the same width.
pub fn compare(pred: Pred, a: Bits, b: Bits) -> bool
    requires { a.width ≡ b.width }
    ensures { result ≡ holds pred a.width a.value b.value }
{
    match pred {
        Pred::Eq => a.value == b.value,
        Pred::Ne => a.value != b.value,
        Pred::Ugt => a.value > b.value,
        Pred::Uge => a.value >= b.value,
        Pred::Ult => a.value < b.value,
        Pred::Ule => a.value <= b.value,
        Pred::Sgt => signed_value(a) > signed_value(b),
        Pred::Sge => signed_value(a) >= signed_value(b),
        Pred::Slt => signed_value(a) < signed_value(b),
        Pred::Sle => signed_value(a) <= signed_value(b),
    }
}
