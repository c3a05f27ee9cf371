//! The picks of `crash`.
ghost use Rattle.std.specs.Prelude.{◌≡◌};
ghost use Rattle.hip_words.specs.Order.{pick_of};

use hip_num::read_decimal;
use hip_types::Pick;

/// `LINE:UPTO`
pub fn pick_of(text: &str) -> Option<Pick>
    ensures { result ≡ pick_of text.now }
{
    match text.split_once(':') {
        Some((line, upto)) => match (read_decimal(line.as_bytes()), read_decimal(upto.as_bytes())) {
            (Some(line), Some(upto)) => Some(Pick { line, upto }),
            _ => None,
        },
        None => None,
    }
}
