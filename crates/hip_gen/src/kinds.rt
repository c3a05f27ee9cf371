//! The kind of each group of a generated program.

ghost use Rattle.std.specs.Prelude.{◌≡◌, ◌<◌};
ghost use Rattle.hip_gen.specs.Kinds.{kind_by, next_draw};
ghost use Rattle.hip_gen.specs.declared.limits.TheConstants.{SEED_END};

use crate::limits::SEED_END;

/// What a group of instructions does.
#[derive(Clone, Copy, PartialEq, Eq)]
pub enum GroupKind {
    /// It stores into the persistent array.
    Store,
    /// It stores into the persistent array and flushes what it stored.
    FlushedStore,
    /// It calls a function that stores into the persistent array.
    PersistentCall,
    /// It calls the same function for the volatile array.
    VolatileCall,
}

/// The number that is drawn after another one.
pub fn next_draw(draw: u64) -> u64
    requires { draw < SEED_END }
    ensures { result ≡ next_draw draw }
{
    (1_103_515_245 * draw + 12_345) % SEED_END
}

/// The kind of the group that a number was drawn for.
pub fn kind_by(draw: u64) -> GroupKind
    ensures { result ≡ kind_by draw }
{
    match draw / 65_536 % 4 {
        0 => GroupKind::Store,
        1 => GroupKind::FlushedStore,
        2 => GroupKind::PersistentCall,
        _ => GroupKind::VolatileCall,
    }
}
