ghost use Rattle.std.specs.Prelude.{◌≡◌, length};
ghost use Rattle.hip_vol.specs.Numbered.{RuleIsWithin, LeastIsWithin, offset_rank, reached, rises, risen};

/// The number of the level Free; the others are 0 to 32.
pub const FREE: u8 = 33;

/// An offset below this one leads at most one level higher.
const LEVEL_SIZE: u64 = 67_108_864;

/// The least level that a rule allows: a known one, or the one at an offset from a variable's.
#[derive(Clone, Copy)]
pub enum Least {
    Known(u8),
    AtOffset { offset: u64, variable: usize },
}

/// A variable, by its number, and the least level that it may have.
#[derive(Clone, Copy)]
pub struct LevelRule {
    pub variable: usize,
    pub least: Least,
}

/// The level at an offset from a level.
pub fn at_offset(level: u8, offset: u64) -> u8
    ensures { result ≡ offset_rank level offset }
{
    if offset == 0 {
        level
    } else if offset < LEVEL_SIZE && level < FREE - 1 {
        level + 1
    } else {
        FREE
    }
}

/// The least level of a rule, by the levels of the variables.
fn least_level(levels: &[u8], least: Least) -> u8
    requires { LeastIsWithin (length levels.now) least }
    ensures { result ≡ reached levels.now least }
{
    match least {
        Least::Known(level) => level,
        Least::AtOffset { offset, variable } => at_offset(levels[variable], offset),
    }
}

/// Raises the variable of a rule to its least level, and answers whether it was lower.
pub fn raise(levels: &mut [u8], rule: LevelRule) -> bool
    requires { RuleIsWithin (length levels.old) rule }
    ensures new { levels.new ≡ risen levels.old rule }
    ensures rose { result ≡ rises levels.old rule }
{
    let least = least_level(levels, rule.least);
    if levels[rule.variable] < least {
        levels[rule.variable] = least;
        return true;
    }
    false
}
