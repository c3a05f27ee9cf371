//! What a stream writes to.

ghost use Rattle.std.specs.Prelude.{true, false, refl};

use std::alloc::Allocator;
use std::io::{Stderr, Stdout, Write};

/// Where a stream sends its bytes.
pub trait Device: Write {
    ghost use Rattle.std.specs.Prelude.{◌≡◌, Bool, true, is_some};

    // Whether contracts see what such a device holds: one answer for the whole type.
    ghost reveals: { Bool };

    // If they do, each device reveals its bytes, at any time.
    ghost revealed: { (device : Self) → reveals ≡ true → is_some (Self.contents device) ≡ true };
}

/// The standard streams reveal nothing.
impl Device for Stdout {
    ghost reveals = { false };

    ghost revealed = { λ _ is. absurd (let z : ⊥ = cc in z) };
}

impl Device for Stderr {
    ghost reveals = { false };

    ghost revealed = { λ _ is. absurd (let z : ⊥ = cc in z) };
}

impl<A: Allocator> Device for Vec<u8, A> {
    ghost reveals = { true };

    ghost revealed = { λ _ _. refl };
}

impl<W: Device> Device for &mut W {
    ghost reveals = { W.reveals };

    ghost revealed = { λ w is. W.revealed w.now is };
}
