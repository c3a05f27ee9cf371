//! Numbers as texts.

use hip_num::{decimal_into, hex_into, natural_into, read_decimal, read_hex, read_signed};
use std::process::Abort;

fn assert_text(rt: &impl Abort, buffer: &[u8; 40], length: usize, text: &str) {
    assert!(rt; length <= 40);
    assert_eq!(rt; &buffer[..length], text.as_bytes());
}

#[test]
fn written_numbers(rt: HostRuntime) {
    let mut buffer = [0u8; 40];
    let length = decimal_into(&mut buffer, i64::MIN);
    assert_text(&rt, &buffer, length, "-9223372036854775808");
    let length = natural_into(&mut buffer, u128::MAX);
    assert_text(
        &rt,
        &buffer,
        length,
        "340282366920938463463374607431768211455",
    );
    for (number, text) in [
        (0, "0x0"),
        (1 << 32, "0x100000000"),
        (u64::MAX, "0xffffffffffffffff"),
    ] {
        let length = hex_into(&mut buffer, number);
        assert_text(&rt, &buffer, length, text);
    }
}

const DECIMALS: &[(&str, Option<u64>)] = &[
    ("18446744073709551615", Some(u64::MAX)),
    ("18446744073709551616", None),
    ("00000000000000000000007", Some(7)),
    ("+7", None),
    ("", None),
];

#[test]
fn decimal_numbers(rt: HostRuntime) {
    for (text, number) in DECIMALS {
        assert!(rt; read_decimal(text.as_bytes()) == *number, "{text}");
    }
}

const SIGNED: &[(&str, Option<i64>)] = &[
    ("-9223372036854775808", Some(i64::MIN)),
    ("-9223372036854775809", None),
    ("9223372036854775808", None),
    ("-0", Some(0)),
    ("-", None),
];

#[test]
fn signed_numbers(rt: HostRuntime) {
    for (text, number) in SIGNED {
        assert!(rt; read_signed(text.as_bytes()) == *number, "{text}");
    }
}

const HEXADECIMALS: &[(&str, Option<u64>)] = &[
    ("0x00FFfF", Some(0xffff)),
    ("0x", None),
    ("0X1", None),
    ("0x10000000000000000", None),
];

#[test]
fn hexadecimal_numbers(rt: HostRuntime) {
    for (text, number) in HEXADECIMALS {
        assert!(rt; read_hex(text.as_bytes()) == *number, "{text}");
    }
}
