//! Classes of bytes.

ghost use Rattle.std.specs.Prelude.{◌≡◌, ◌≤◌, length};
ghost use Rattle.std.specs.List.{prefix_len, list_all};
ghost use Rattle.hip_tokens.specs.Bytes.{is_blank, is_digit, begins_name, goes_on_name, is_mark, in_string, in_comment};
ghost use Rattle.hip_tokens.specs.Longest.{is_name};

pub fn is_blank(b: u8) -> bool
    ensures { result ≡ is_blank b }
{
    b == b' ' || b == b'\t' || b == b'\r' || b == b'\n'
}

pub fn is_digit(b: u8) -> bool
    ensures { result ≡ is_digit b }
{
    b >= b'0' && b <= b'9'
}

pub fn begins_name(b: u8) -> bool
    ensures { result ≡ begins_name b }
{
    (b >= b'A' && b <= b'Z') || (b >= b'a' && b <= b'z') || b == b'$' || b == b'.' || b == b'_'
}

fn goes_on_name(b: u8) -> bool
    ensures { result ≡ goes_on_name b }
{
    begins_name(b) || is_digit(b) || b == b'-'
}

fn all_go_on_name(bytes: &[u8]) -> bool
    ensures { result ≡ list_all goes_on_name bytes.now }
{
    bytes.iter().all(|b| goes_on_name(*b))
}

/// Whether the text has the form of a name: a letter, `$`, `.` or `_`, and then such bytes, digits and `-`.
pub fn is_name(text: &[u8]) -> bool
    ensures { result ≡ is_name text.now }
{
    match text.split_first() {
        Some((first, others)) => begins_name(*first) && all_go_on_name(others),
        None => false,
    }
}

pub fn is_mark(b: u8) -> bool
    ensures { result ≡ is_mark b }
{
    matches!(b, b'=' | b',' | b'(' | b')' | b'{' | b'}' | b'[' | b']')
}

pub fn name_len(bytes: &[u8]) -> usize
    ensures value { result ≡ prefix_len goes_on_name bytes.now }
    ensures within { result ≤ length bytes.now }
{
    bytes.iter().take_while(|b| goes_on_name(**b)).count()
}

pub fn digits_len(bytes: &[u8]) -> usize
    ensures value { result ≡ prefix_len is_digit bytes.now }
    ensures within { result ≤ length bytes.now }
{
    bytes.iter().take_while(|b| is_digit(**b)).count()
}

pub fn string_len(bytes: &[u8]) -> usize
    ensures value { result ≡ prefix_len in_string bytes.now }
    ensures within { result ≤ length bytes.now }
{
    bytes
        .iter()
        .take_while(|b| **b != b'"' && **b != b'\n')
        .count()
}

pub fn comment_len(bytes: &[u8]) -> usize
    ensures value { result ≡ prefix_len in_comment bytes.now }
    ensures within { result ≤ length bytes.now }
{
    bytes.iter().take_while(|b| **b != b'\n').count()
}
