//! Lists and texts on the heap.

use hip_examples::AMPLE;
use hip_types::{Bits, Row, Text, Width};

#[test]
fn lists(rt: HostRuntime) {
    let mut row = Row::from_slice(rt.alloc(), &[1u8, 2]).expect(&rt, AMPLE);
    row.reserve(3).expect(&rt, AMPLE);
    row.extend_from_slice(&[3]).expect(&rt, AMPLE);
    row.append(Row::from_slice(rt.alloc(), &[4]).expect(&rt, AMPLE))
        .expect(&rt, AMPLE);
    assert!(rt; row.as_slice() == [1, 2, 3, 4].as_slice());
    assert!(rt; row.get(3).copied() == Some(4));
}

#[test]
fn texts_and_numbers(rt: HostRuntime) {
    let text = Text::new(rt.alloc(), "pm").expect(&rt, AMPLE);
    assert!(rt; text.as_str() == "pm");
    assert!(rt; Bits::new(Width::W8, 300).value == 44);
}
