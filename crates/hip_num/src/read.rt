ghost use Rattle.std.specs.Prelude.{◌≡◌, ◌≤◌, ◌<◌, ◌^◌, pos, neg_ℤ};
ghost use Rattle.std.specs.Option.{SomeIff};
ghost use Rattle.std.specs.Str.Parse.{IsNumeral, digits_value};
ghost use Rattle.hip_num.specs.Texts.{decimal_of, hex_of, number_of, signed_of};

/// The number that one or more decimal digits write. None if a byte is no digit, if there is no byte, or if the number
/// is 2^64 or more.
pub fn read_decimal(text: &[u8]) -> Option<u64>
    ensures { result ≡ decimal_of text.now }
{
    read_number(text, 10)
}

/// The number that `0x` and one or more hexadecimal digits of either case write. None if the text has another form, and
/// if the number is 2^64 or more.
pub fn read_hex(text: &[u8]) -> Option<u64>
    ensures { result ≡ hex_of text.now }
{
    if text.starts_with(b"0x") {
        read_number(&text[2..], 16)
    } else {
        None
    }
}

/// The number that one or more decimal digits write, negated if a `-` comes before them. None if the text has another
/// form, and if the number is outside of i64.
pub fn read_signed(text: &[u8]) -> Option<i64>
    ensures { result ≡ signed_of (2 ^ 63) text.now }
{
    if text.starts_with(b"-") {
        negated(read_number(&text[1..], 10)?)
    } else {
        i64::try_from(read_number(text, 10)?).ok()
    }
}

fn negated(magnitude: u64) -> Option<i64>
    ensures { SomeIff result (magnitude ≤ 2 ^ 63) (neg_ℤ (pos magnitude)) }
{
    if magnitude == 0 {
        Some(0)
    } else if magnitude <= 0x8000_0000_0000_0000 {
        Some(-((magnitude - 1) as i64) - 1)
    } else {
        None
    }
}

fn read_number(text: &[u8], base: u32) -> Option<u64>
    requires low { 2 ≤ base }
    requires high { base ≤ 16 }
    ensures { result ≡ number_of base text.now }
{
    read_digits(text, base)
}

fn read_digits(text: &[u8], base: u32) -> Option<u64>
    requires low { 2 ≤ base }
    requires high { base ≤ 16 }
    ensures { SomeIff result (IsNumeral base text.now × (digits_value base text.now < 2 ^ 64))
        (digits_value base text.now) }
{
    if text.is_empty() {
        return None;
    }
    let most = u64::MAX / u64::from(base);
    let mut value: u64 = 0;
    for byte in text {
        let digit = match char::from(*byte).to_digit(base) {
            Some(digit) => digit,
            None => return None,
        };
        if value > most {
            return None;
        }
        value = match (value * u64::from(base)).checked_add(u64::from(digit)) {
            Some(value) => value,
            None => return None,
        };
    }
    Some(value)
}
