//! The text of a generated program.

ghost use Rattle.std.specs.Prelude.{◌≡◌, ◌<◌, ◌≤◌, IfOk, OnOk};
ghost use Rattle.hip_gen.specs.Appends.{Appends};
ghost use Rattle.hip_gen.specs.Lines.{first_lines, generated_text, lines_before};
ghost use Rattle.hip_gen.specs.declared.limits.TheConstants.{LARGEST_SIZE, SEED_END};

use crate::kinds::{kind_by, next_draw};
use crate::lines::{push, push_group, push_with_number};
use hip_types::{NoMemory, Row};
use std::alloc::Global;

/// Appends the text before the groups.
fn push_first_lines(text: &mut Row<u8>, size: u64) -> Result<(), NoMemory>
    ensures { OnOk result (Appends text.old text.new (first_lines size)) }
{
    push_with_number(text, b"@data = global [", size)?;
    push(
        text,
        b" x i64] zeroinitializer, section \".pm\"\n\
        @temp = global [8 x i64] zeroinitializer\n\
        declare void @llvm.x86.clwb(ptr)\n\
        define void @put(ptr %p, i64 %v) {\n\
        entry:\n  store i64 %v, ptr %p\n  ret void\n}\n\
        define i32 @main() {\n\
        entry:\n",
    )
}

/// Puts the lines of all groups at the end of the text.
fn push_groups(text: &mut Row<u8>, seed: u64, size: u64) -> Result<(), NoMemory>
    requires seed { seed < SEED_END }
    requires size { size ≤ LARGEST_SIZE }
    ensures { OnOk result (Appends text.old text.new (lines_before seed size size)) }
{
    let mut draw = seed;
    'groups: for group in 0..size {
        draw = next_draw(draw);
        push_group(text, size, group, kind_by(draw))?;
    }
    Ok(())
}

/// The text of the generated program for a seed below 2^31 and a size from 1 to 50,000. It takes time and memory in
/// proportion to the size.
pub fn generate(alloc: Global, seed: u64, size: u64) -> Result<Row<u8>, NoMemory>
    requires seed { seed < SEED_END }
    requires some { 1 ≤ size }
    requires small { size ≤ LARGEST_SIZE }
    ensures { IfOk result (λ text. text ≡ generated_text seed size) }
{
    let mut text = Row::new(alloc);
    push_first_lines(&mut text, size)?;
    push_groups(&mut text, seed, size)?;
    push(&mut text, b"  ret i32 0\n}\n")?;
    Ok(text)
}
