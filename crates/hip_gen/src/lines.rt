//! The lines of a group.

ghost use Rattle.std.specs.Prelude.{◌+◌, ◌<◌, OnOk};
ghost use Rattle.std.specs.Fmt.{decimal};
ghost use Rattle.hip_gen.specs.Appends.{Appends, AppendsBoth};
ghost use Rattle.hip_gen.specs.Lines.{element_text, persistent_element, store_line, flush_line, put_line, group_lines};
ghost use Rattle.hip_gen.specs.declared.limits.TheConstants.{LARGEST_SIZE};

use crate::kinds::GroupKind;
use crate::limits::{LARGEST_SIZE, VOLATILE_LENGTH};
use hip_num::natural_into;
use hip_types::{NoMemory, Row};

/// Puts a piece at the end of the text.
pub fn push(text: &mut Row<u8>, piece: &[u8]) -> Result<(), NoMemory>
    ensures { OnOk result (Appends text.old text.new piece.now) }
{
    text.extend_from_slice(piece)
}

fn push_number(text: &mut Row<u8>, number: u64) -> Result<(), NoMemory>
    ensures { OnOk result (Appends text.old text.new (decimal number)) }
{
    let mut digits = [0; 40];
    let len = natural_into(&mut digits, u128::from(number));
    push(text, &digits[..len])
}

/// Puts a piece and then a number at the end of the text.
pub fn push_with_number(text: &mut Row<u8>, piece: &[u8], number: u64) -> Result<(), NoMemory>
    ensures { OnOk result (AppendsBoth text.old text.new piece.now (decimal number)) }
{
    push(text, piece)?;
    push_number(text, number)
}

fn push_element(text: &mut Row<u8>, name: &[u8], length: u64, index: u64) -> Result<(), NoMemory>
    ensures { OnOk result (Appends text.old text.new (element_text name.now length index)) }
{
    push_with_number(text, b"getelementptr ([", length)?;
    push(text, b" x i64], ptr @")?;
    push(text, name)?;
    push_with_number(text, b", i64 0, i64 ", index)?;
    push(text, b")")
}

fn push_store(text: &mut Row<u8>, size: u64, group: u64) -> Result<(), NoMemory>
    requires { group < LARGEST_SIZE }
    ensures { OnOk result (Appends text.old text.new (store_line (persistent_element size group) (group + 1))) }
{
    push_with_number(text, b"  store i64 ", group + 1)?;
    push(text, b", ptr ")?;
    push_element(text, b"data", size, group)?;
    push(text, b"\n")
}

fn push_flush(text: &mut Row<u8>, size: u64, group: u64) -> Result<(), NoMemory>
    ensures { OnOk result (Appends text.old text.new (flush_line (persistent_element size group))) }
{
    push(text, b"  call void @llvm.x86.clwb(ptr ")?;
    push_element(text, b"data", size, group)?;
    push(text, b")\n")
}

/// Puts a call of `put`, with an element and a value, at the end of the text.
fn push_call(
    text: &mut Row<u8>,
    name: &[u8],
    length: u64,
    index: u64,
    value: u64,
) -> Result<(), NoMemory>
    ensures { OnOk result (Appends text.old text.new (put_line (element_text name.now length index) value)) }
{
    push(text, b"  call void @put(ptr ")?;
    push_element(text, name, length, index)?;
    push_with_number(text, b", i64 ", value)?;
    push(text, b")\n")
}

/// Puts the lines of a group at the end of the text.
pub fn push_group(
    text: &mut Row<u8>,
    size: u64,
    group: u64,
    kind: GroupKind,
) -> Result<(), NoMemory>
    requires { group < LARGEST_SIZE }
    ensures { OnOk result (Appends text.old text.new (group_lines size group kind)) }
{
    match kind {
        GroupKind::Store => push_store(text, size, group),
        GroupKind::FlushedStore => {
            push_store(text, size, group)?;
            push_flush(text, size, group)?;
            Ok(())
        }
        GroupKind::PersistentCall => push_call(text, b"data", size, group, group + 1),
        GroupKind::VolatileCall => {
            let index = group % VOLATILE_LENGTH;
            push_call(text, b"temp", VOLATILE_LENGTH, index, group + 1)
        }
    }
}
