ghost use Rattle.std.specs.Prelude.{◌≡◌, ◌↔◌, IsTrue};

use crate::structural::Structural;

/// Whether the values of each of two pairs are equal.
pub fn same_two<A: Structural, B: Structural>(a: (&A, &A), b: (&B, &B)) -> bool
    ensures { IsTrue result ↔ ((a.entry.0.now ≡ a.entry.1.now) × (b.entry.0.now ≡ b.entry.1.now)) }
{
    a.0.same(a.1) && b.0.same(b.1)
}

/// Whether the values of each of three pairs are equal.
pub fn same_three<A: Structural, B: Structural, C: Structural>(
    a: (&A, &A),
    b: (&B, &B),
    c: (&C, &C),
) -> bool
    ensures { IsTrue result
        ↔ ((a.entry.0.now ≡ a.entry.1.now) × ((b.entry.0.now ≡ b.entry.1.now) × (c.entry.0.now ≡ c.entry.1.now))) }
{
    a.0.same(a.1) && same_two(b, c)
}

/// Whether the values of each of four pairs are equal.
pub fn same_four<A: Structural, B: Structural, C: Structural, D: Structural>(
    a: (&A, &A),
    b: (&B, &B),
    c: (&C, &C),
    d: (&D, &D),
) -> bool
    ensures { IsTrue result
        ↔ ((a.entry.0.now ≡ a.entry.1.now) × ((b.entry.0.now ≡ b.entry.1.now) × ((c.entry.0.now ≡ c.entry.1.now)
        × (d.entry.0.now ≡ d.entry.1.now)))) }
{
    a.0.same(a.1) && same_three(b, c, d)
}

/// Whether the values of each of five pairs are equal.
pub fn same_five<A: Structural, B: Structural, C: Structural, D: Structural, E: Structural>(
    a: (&A, &A),
    b: (&B, &B),
    c: (&C, &C),
    d: (&D, &D),
    e: (&E, &E),
) -> bool
    ensures { IsTrue result
        ↔ ((a.entry.0.now ≡ a.entry.1.now) × ((b.entry.0.now ≡ b.entry.1.now) × ((c.entry.0.now ≡ c.entry.1.now)
        × ((d.entry.0.now ≡ d.entry.1.now) × (e.entry.0.now ≡ e.entry.1.now))))) }
{
    a.0.same(a.1) && same_four(b, c, d, e)
}
