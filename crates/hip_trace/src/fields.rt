//! The fields of an entry's text.

ghost use Rattle.std.specs.Prelude.{◌≡◌, ◌≤◌, ◌∷◌, length, not, ◌==◌};
ghost use Rattle.std.specs.List.{prefix_len};
ghost use Rattle.std.specs.Option.{option_copied, option_map};
ghost use Rattle.hip_tokens.specs.Bytes.{byte};
ghost use Rattle.hip_trace.specs.Entries.{fields, one_field, two_fields, three_fields, two_numbers};
ghost use Rattle.hip_trace.specs.Seen.{fields_after, pair_seen, triple_seen};

use hip_num::read_hex;

/// How many bytes come before the first semicolon.
fn field_len(text: &[u8]) -> usize
    ensures value { result ≡ prefix_len (λ b. not (b == byte ";")) text.now }
    ensures within { result ≤ length text.now }
{
    text.iter().take_while(|b| **b != b';').count()
}

/// The first field of a text, and the text after its semicolon.
pub(crate) fn first_field(text: &[u8]) -> (&[u8], Option<&[u8]>)
    ensures { fields text.now ≡ result.0.now ∷ fields_after result.1 }
{
    let n = field_len(text);
    if n < text.len() {
        (text.split_at(n).0, Some(text.split_at(n + 1).1))
    } else {
        (text, None)
    }
}

pub(crate) fn one_field<'a>(rest: Option<&'a [u8]>) -> Option<&'a [u8]>
    ensures { option_copied result ≡ one_field (fields_after rest.entry) }
{
    match rest {
        Some(text) => {
            let (a, rest) = first_field(text);
            match rest {
                None => Some(a),
                Some(_) => None,
            }
        }
        None => None,
    }
}

pub(crate) fn two_fields<'a>(rest: Option<&'a [u8]>) -> Option<(&'a [u8], &'a [u8])>
    ensures { option_map pair_seen result ≡ two_fields (fields_after rest.entry) }
{
    match rest {
        Some(text) => {
            let (a, rest) = first_field(text);
            match one_field(rest) {
                Some(b) => Some((a, b)),
                None => None,
            }
        }
        None => None,
    }
}

pub(crate) fn three_fields<'a>(rest: Option<&'a [u8]>) -> Option<(&'a [u8], &'a [u8], &'a [u8])>
    ensures { option_map triple_seen result ≡ three_fields (fields_after rest.entry) }
{
    match rest {
        Some(text) => {
            let (a, rest) = first_field(text);
            match two_fields(rest) {
                Some((b, c)) => Some((a, b, c)),
                None => None,
            }
        }
        None => None,
    }
}

/// Two fields, both hexadecimal numbers.
#[tactic(auto, unfolding(crate::specs::Entries::two_numbers))]
pub(crate) fn two_numbers(rest: Option<&[u8]>) -> Option<(u64, u64)>
    ensures { result ≡ two_numbers (fields_after rest.entry) }
{
    let (a, b) = two_fields(rest)?;
    let a = read_hex(a)?;
    let b = read_hex(b)?;
    Some((a, b))
}
