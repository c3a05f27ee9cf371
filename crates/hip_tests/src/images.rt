//! Images: bytes, and the zeros after them.

use hip_examples::AMPLE;
use hip_image::Image;

/// A line of zeros, a byte in the second line, and zeros up to the end of a third one.
#[test]
fn zeros_at_the_end_are_not_stored(rt: HostRuntime) {
    let mut image = Image::new(rt.alloc());
    image.push_zeros(64).expect(&rt, AMPLE);
    image.extend_from_slice(&[0, 7, 0]).expect(&rt, AMPLE);
    image.push_zeros(125).expect(&rt, AMPLE);
    assert!(rt; image.len() == 192);
    assert!(rt; image.stored().len() == 66);
    assert!(rt; image.line(0)[63] == 0);
    assert!(rt; image.line(1)[1] == 7);
    assert!(rt; image.line(2)[0] == 0);
}

/// A cut in the zeros, and one in the stored bytes.
#[test]
fn images_are_cut(rt: HostRuntime) {
    let mut image = Image::new(rt.alloc());
    image.push(7).expect(&rt, AMPLE);
    image.push(0).expect(&rt, AMPLE);
    image.push(0).expect(&rt, AMPLE);
    image.truncate(2);
    assert!(rt; image.len() == 2 && image.stored().len() == 1);
    image.truncate(0);
    assert!(rt; image.is_empty());
}
