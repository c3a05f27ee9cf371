//! Types and their layout.

use hip_examples::AMPLE;
use hip_types::{Link, Row, Ty, Width, align, copy_ty, fits, gep_offset, same_ty, size};
use std::alloc::Global;
use std::process::Abort;

fn int(width: Width) -> Ty {
    Ty::Int(width)
}

/// `{ i8, i64, i16 }`
fn mixed(rt: &impl Abort, alloc: Global) -> Ty {
    let mut fields = Row::new(alloc);
    for width in [Width::W8, Width::W64, Width::W16] {
        fields.push(int(width)).expect(rt, AMPLE);
    }
    Ty::Struct(fields)
}

/// Indices into a type, and the offset that they lead to.
struct Place {
    indices: &'static [u64],
    offset: Option<u64>,
}

const MIXED_PLACES: &[Place] = &[
    Place {
        indices: &[0, 0],
        offset: Some(0),
    },
    Place {
        indices: &[0, 1],
        offset: Some(8),
    },
    Place {
        indices: &[0, 2],
        offset: Some(16),
    },
    Place {
        indices: &[1, 1],
        offset: Some(32),
    },
    Place {
        indices: &[0, 3],
        offset: None,
    },
    Place {
        indices: &[0, 1, 0],
        offset: None,
    },
];

const WORD_PLACES: &[Place] = &[Place {
    indices: &[u64::MAX],
    offset: Some(u64::MAX - 7),
}];

const ARRAY_PLACES: &[Place] = &[Place {
    indices: &[0, 5],
    offset: Some(20),
}];

fn assert_offsets(rt: &impl Abort, ty: &Ty, places: &[Place]) {
    for place in places {
        assert!(rt; fits(ty) && !place.indices.is_empty());
        assert!(rt; gep_offset(ty, place.indices) == place.offset);
    }
}

/// Asserts that a type fits, and how many bytes it takes.
fn assert_size(rt: &impl Abort, ty: &Ty, bytes: u64) {
    assert!(rt; fits(ty));
    assert_eq!(rt; size(ty), bytes);
}

/// An array type.
fn array(rt: &impl Abort, alloc: Global, length: u64, element: Ty) -> Ty {
    Ty::Array(length, Link::new(alloc, element).expect(rt, AMPLE))
}

fn assert_mixed(rt: &impl Abort, ty: &Ty) {
    assert_size(rt, ty, 24);
    assert!(rt; fits(ty) && align(ty) == 8);
    assert_offsets(rt, ty, MIXED_PLACES);
}

#[test]
fn layout_edges(rt: HostRuntime) {
    assert_mixed(&rt, &mixed(&rt, rt.alloc()));
    assert_offsets(&rt, &int(Width::W64), WORD_PLACES);
    let words = array(&rt, rt.alloc(), 3, int(Width::W32));
    assert_offsets(&rt, &words, ARRAY_PLACES);
}

fn assert_copied(rt: &impl Abort, alloc: Global, ty: &Ty) {
    let copy = copy_ty(alloc, ty).expect(rt, AMPLE);
    assert!(rt; same_ty(ty, &copy));
}

#[test]
fn copied_type(rt: HostRuntime) {
    let ty = mixed(&rt, rt.alloc());
    assert_copied(&rt, rt.alloc(), &ty);
    assert!(rt; !same_ty(&ty, &int(Width::W8)));
}

/// An array type that is nested this deep.
fn nested(rt: &impl Abort, alloc: Global, depth: u8) -> Ty {
    let mut ty = int(Width::W8);
    for _ in 0..depth {
        ty = array(rt, alloc, 1, ty);
    }
    ty
}

/// The largest array type.
fn largest(rt: &impl Abort, alloc: Global) -> Ty {
    array(rt, alloc, 67_108_864, int(Width::W8))
}

/// An array of no elements, whose element type is too large.
fn none_of_large(rt: &impl Abort, alloc: Global) -> Ty {
    let two = array(rt, alloc, 2, largest(rt, alloc));
    array(rt, alloc, 0, two)
}

/// Whether a type fits; it takes the type.
fn type_fits(ty: Ty) -> bool {
    fits(&ty)
}

#[test]
fn deepest_types(rt: HostRuntime) {
    assert!(rt; type_fits(nested(&rt, rt.alloc(), 32)));
    assert!(rt; !type_fits(nested(&rt, rt.alloc(), 33)));
    assert!(rt; type_fits(largest(&rt, rt.alloc())));
    assert!(rt; !type_fits(none_of_large(&rt, rt.alloc())));
}

/// `{ i8, i32, i8, i32, .. }`
fn large_struct(rt: &impl Abort, alloc: Global) -> Ty {
    let mut fields = Row::new(alloc);
    for _ in 0..100_000u32 {
        fields.push(int(Width::W8)).expect(rt, AMPLE);
        fields.push(int(Width::W32)).expect(rt, AMPLE);
    }
    Ty::Struct(fields)
}

#[test]
fn many_fields(rt: HostRuntime) {
    let ty = large_struct(&rt, rt.alloc());
    assert_size(&rt, &ty, 800_000);
    assert_copied(&rt, rt.alloc(), &ty);
}
