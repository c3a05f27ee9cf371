ghost use Rattle.std.specs.Prelude.{◌≡◌, ◌%◌, ◌^◌};
ghost use Rattle.hip_code.specs.Numbers.{HasSpan, entries_of, numbers, operand_value, is_within};
ghost use Rattle.hip_code.specs.Values.{value_result, gep_value, rest_result, other_result, sum_of, GepWithin, OtherWithin, ReadsWithin, RestWithin, TermsWithin};

use crate::code::Code;
use crate::integers::{compared, divide, extend, operated};
use crate::op::{Gep, OpOperand, Other, Rest, Span, Value};
use hip_num::NumTrap;
use hip_types::{Bits, Width};

/// The value of an operand in the frame whose slots begin at a base.
#[inline(always)]
pub fn read(code: &Code, slots: &[u64], base: usize, operand: OpOperand) -> u64
    requires { is_within (numbers code.now slots.now base) operand }
    ensures { result ≡ operand_value (numbers code.now slots.now base) operand }
{
    match operand {
        OpOperand::Register(slot) => slots[base + slot as usize],
        OpOperand::Constant(place) => code.constants[place as usize],
    }
}

fn sum_of_terms(code: &Code, slots: &[u64], base: usize, terms: Span) -> u64
    requires span { HasSpan terms code.now.terms.items }
    requires terms { TermsWithin (numbers code.now slots.now base) (entries_of terms code.now.terms.items) }
    ensures { result ≡ sum_of (numbers code.now slots.now base) (entries_of terms code.now.terms.items) % 2 ^ 64 }
{
    let from = terms.from as usize;
    let chosen = &code.terms[from..from + terms.count as usize];
    let mut at = chosen.len();
    let mut sum = 0u64;
    'adding: while at > 0 {
        at -= 1;
        let term = chosen[at];
        let index = extend(term.width, read(code, slots, base, term.index));
        sum = sum.wrapping_add(index.wrapping_mul(term.scale as u64));
    }
    sum
}

#[inline(always)]
fn address_of(code: &Code, slots: &[u64], base: usize, gep: &Gep) -> u64
    requires { GepWithin (numbers code.now slots.now base) gep.now }
    ensures { result ≡ gep_value (numbers code.now slots.now base) gep.now }
{
    match gep {
        Gep::Fixed { base: from, offset } => {
            read(code, slots, base, *from).wrapping_add(*offset)
        }
        Gep::Scaled {
            base: from,
            index,
            width,
            scale,
            offset,
        } => {
            let start = read(code, slots, base, *from);
            let steps = extend(*width, read(code, slots, base, *index));
            let far = steps
                .wrapping_mul(*scale as u64)
                .wrapping_add(*offset as u64);
            start.wrapping_add(far)
        }
        Gep::Terms {
            base: from,
            offset,
            terms,
        } => {
            let start = read(code, slots, base, *from);
            let far = sum_of_terms(code, slots, base, *terms).wrapping_add(*offset);
            start.wrapping_add(far)
        }
    }
}

fn other_of(code: &Code, slots: &[u64], base: usize, other: &Other) -> Result<u64, NumTrap>
    requires { OtherWithin (numbers code.now slots.now base) other.now }
    ensures { result ≡ other_result (numbers code.now slots.now base) other.now }
{
    match other {
        Other::Select { test, a, b } => {
            if read(code, slots, base, *test) == 1 {
                Ok(read(code, slots, base, *a))
            } else {
                Ok(read(code, slots, base, *b))
            }
        }
        Other::Divide { op, width, a, b } => {
            let left = read(code, slots, base, *a);
            let right = read(code, slots, base, *b);
            match divide(*op, Bits::new(*width, left), Bits::new(*width, right)) {
                Ok(bits) => Ok(bits.value),
                Err(trap) => Err(trap),
            }
        }
    }
}

#[inline(always)]
fn rest_of(code: &Code, slots: &[u64], base: usize, rest: &Rest) -> Result<u64, NumTrap>
    requires { RestWithin (numbers code.now slots.now base) rest.now }
    ensures { result ≡ rest_result (numbers code.now slots.now base) rest.now }
{
    match rest {
        Rest::Compare {
            test,
            negated,
            width,
            a,
            b,
        } => {
            let left = read(code, slots, base, *a);
            let right = read(code, slots, base, *b);
            Ok((compared(*test, *width, left, right) != *negated) as u64)
        }
        Rest::Cast {
            signed,
            from,
            to,
            a,
        } => {
            let value = read(code, slots, base, *a);
            let wide = if *signed { extend(*from, value) } else { value };
            Ok(Bits::new(*to, wide).value)
        }
        Rest::Other(other) => other_of(code, slots, base, other),
    }
}

/// What an op gives, or why it traps.
#[inline(always)]
pub fn result_of(code: &Code, slots: &[u64], base: usize, value: &Value) -> Result<u64, NumTrap>
    requires { ReadsWithin (numbers code.now slots.now base) value.now }
    ensures { result ≡ value_result (numbers code.now slots.now base) value.now }
{
    match value {
        Value::Integer { op, width, a, b } => {
            let left = read(code, slots, base, *a);
            let right = read(code, slots, base, *b);
            operated(*op, *width, left, right)
        }
        Value::Gep(gep) => Ok(address_of(code, slots, base, gep)),
        Value::Rest(rest) => rest_of(code, slots, base, rest),
    }
}
