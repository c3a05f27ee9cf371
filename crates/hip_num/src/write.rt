ghost use Rattle.std.specs.Prelude.{◌≡◌, ◌≤◌, ◌<◌, length, take, drop, decimal, false};
ghost use Rattle.std.specs.Fmt.{digits, digit_glyph, signed_decimal};
ghost use Rattle.hip_num.specs.Texts.{hexadecimal};

use itoa::Buffer;

/// Writes a text at the start of the buffer, and answers its length.
fn put(buf: &mut [u8; 40], text: &[u8]) -> usize
    requires { length text.now ≤ 40 }
    ensures text { take result buf.new ≡ text.now }
    ensures length { result ≤ 40 }
{
    let len = text.len();
    buf[..len].copy_from_slice(text);
    len
}

/// Writes the decimal text of a number, and answers its length.
pub fn decimal_into(buf: &mut [u8; 40], v: i64) -> usize
    ensures text { take result buf.new ≡ signed_decimal v }
    ensures length { result ≤ 40 }
{
    put(buf, Buffer::new().format(v).as_bytes())
}

/// Writes the decimal text of a natural number, and answers its length.
pub fn natural_into(buf: &mut [u8; 40], v: u128) -> usize
    ensures text { take result buf.new ≡ decimal v }
    ensures length { result ≤ 40 }
{
    let mut digits = Buffer::new();
    put(buf, digits.format(v).as_bytes())
}

/// Writes `0x` and the least number of hexadecimal digits in lower case, and answers the length.
pub fn hex_into(buf: &mut [u8; 40], v: u64) -> usize
    ensures text { take result buf.new ≡ hexadecimal v }
    ensures length { result ≤ 40 }
{
    let mut digits = [0u8; 16];
    let start = hex_digits(&mut digits, v);
    let text = &digits[start..];
    let end = 2 + text.len();
    buf[0] = b'0';
    buf[1] = b'x';
    buf[2..end].copy_from_slice(text);
    end
}

/// Writes the digits of a number to base 16 at the end of `text`, and answers where they begin.
fn hex_digits(text: &mut [u8; 16], v: u64) -> usize
    ensures text { drop result text.new ≡ digits 16 false v }
    ensures start { result < 16 }
{
    let mut at: usize = 15;
    let mut rest = v;
    while rest >= 16 {
        text[at] = hex_digit(rest % 16);
        rest /= 16;
        at -= 1;
    }
    text[at] = hex_digit(rest);
    at
}

fn hex_digit(value: u64) -> u8
    requires { value < 16 }
    ensures { result ≡ digit_glyph false value }
{
    if value < 10 {
        b'0' + value as u8
    } else {
        b'a' + (value - 10) as u8
    }
}
