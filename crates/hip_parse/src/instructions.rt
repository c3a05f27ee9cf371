//! Instructions.

ghost use Rattle.std.specs.Prelude.{◌≡◌, None};
ghost use Rattle.hip_grammar.specs.Production.{one_more_by, separated};
ghost use Rattle.hip_grammar.specs.Reader.{next};
ghost use Rattle.hip_grammar.specs.Words.{comma};
ghost use Rattle.hip_grammar.specs.Grammar.{operand, index};
ghost use Rattle.hip_grammar.specs.Bodies.{align, maybe_align, assigned, with_flag, flags, binary, compare, next_of_type, alternatives, select, to_int, int_cast, ptrtoint, inttoptr, alloca, next_address, aligned_address, load, gep, plain_call, call, store, memory_instr, cast_instr, value_instr, effect_instr, assigning_instr, instr, begins_effect, begins_instr};
ghost use Rattle.hip_parse.specs.Left.{left, Gives, Takes};

use crate::constants::{Argument, Index};
use crate::error::ReadError;
use crate::parser::Parser;
use crate::words::{BinaryOps, FlagsAfter, IntCasts, Preds, Results, Scalars, Widths};
use hip_grammar::{Keyword, TextFault};
use hip_tree::{Arg, Flag, Flags, Instr, Operand};
use hip_types::{BinaryOp, CastOp, DEEPEST_NESTING, Link, Name, Row, Scalar, Width};
use std::alloc::Global;

/// The flags and one more.
fn with_flag(flags: Flags, flag: Flag) -> Flags
    ensures { result ≡ with_flag flags flag }
{
    match flag {
        Flag::Nuw => Flags { nuw: true, ..flags },
        Flag::Nsw => Flags { nsw: true, ..flags },
        Flag::Exact => Flags {
            exact: true,
            ..flags
        },
    }
}

impl<'a> Parser<'a> {
    #[tactic(auto, unfolding(hip_grammar::specs::Bodies::align))]
    fn align(&mut self) -> Result<u64, Option<TextFault>>
        ensures { Gives (λ x. x) result (align.read (left self.old)) (left self.new) }
    {
        self.mark(b',')?;
        self.word(b"align")?;
        self.alignment()
    }

    pub(crate) fn maybe_align(&mut self) -> Result<Option<u64>, Option<TextFault>>
        ensures { Gives (λ x. x) result (maybe_align.read (left self.old)) (left self.new) }
    {
        if self.at_mark(b',') {
            let n = self.align()?;
            Ok(Some(n))
        } else {
            Ok(None)
        }
    }

    #[tactic(auto, unfolding(hip_grammar::specs::Bodies::flags))]
    fn flags(&mut self, op: BinaryOp) -> Result<Flags, Option<TextFault>>
        ensures { Gives (λ x. x) result ((flags op).read (left self.old)) (left self.new) }
    {
        let mut set = Flags {
            nuw: false,
            nsw: false,
            exact: false,
        };
        'more: while self.at_keyword(FlagsAfter(op)) {
            let item = self.keyword(FlagsAfter(op))?;
            set = with_flag(set, item);
        }
        Ok(set)
    }

    /// The operand after a comma.
    #[tactic(auto, unfolding(hip_grammar::specs::Production::one_more_by))]
    fn next_operand(&mut self, alloc: Global, scalar: Scalar) -> Result<Operand, ReadError>
        ensures { Takes (λ x. x) result ((one_more_by comma (operand scalar)).read (left self.old)) (left self.new) }
    {
        self.mark(b',')?;
        self.operand(alloc, scalar)
    }

    #[tactic(auto, unfolding(hip_grammar::specs::Bodies::binary))]
    fn binary(&mut self, alloc: Global, dest: Name) -> Result<Instr, ReadError>
        ensures { Takes (λ x. x) result ((binary dest).read (left self.old)) (left self.new) }
    {
        let op = self.keyword(BinaryOps)?;
        let flags = self.flags(op)?;
        let width = self.keyword(Widths)?;
        let a = self.operand(alloc, Scalar::Int(width))?;
        let b = self.next_operand(alloc, Scalar::Int(width))?;
        Ok(Instr::Binary {
            dest,
            op,
            flags,
            width,
            a,
            b,
        })
    }

    #[tactic(auto, unfolding(hip_grammar::specs::Bodies::compare))]
    fn compare(&mut self, alloc: Global, dest: Name) -> Result<Instr, ReadError>
        ensures { Takes (λ x. x) result ((compare dest).read (left self.old)) (left self.new) }
    {
        self.word(b"icmp")?;
        let pred = self.keyword(Preds)?;
        let ty = self.keyword(Scalars)?;
        let a = self.operand(alloc, ty)?;
        let b = self.next_operand(alloc, ty)?;
        Ok(Instr::Compare {
            dest,
            pred,
            ty,
            a,
            b,
        })
    }

    /// The operand after a comma and this type.
    #[tactic(auto, unfolding(hip_grammar::specs::Bodies::next_of_type))]
    fn next_of_type(&mut self, alloc: Global, ty: Scalar) -> Result<Operand, ReadError>
        ensures { Takes (λ x. x) result ((next_of_type ty).read (left self.old)) (left self.new) }
    {
        self.mark(b',')?;
        self.word(ty.keyword())?;
        self.operand(alloc, ty)
    }

    /// The two operands of a `select`, after their type.
    #[tactic(auto, unfolding(hip_grammar::specs::Bodies::alternatives))]
    fn alternatives(&mut self, alloc: Global) -> Result<(Scalar, Operand, Operand), ReadError>
        ensures { Takes (λ x. x) result (alternatives.read (left self.old)) (left self.new) }
    {
        self.mark(b',')?;
        let ty = self.keyword(Scalars)?;
        let a = self.operand(alloc, ty)?;
        let b = self.next_of_type(alloc, ty)?;
        Ok((ty, a, b))
    }

    #[tactic(auto, unfolding(hip_grammar::specs::Bodies::select))]
    fn select(&mut self, alloc: Global, dest: Name) -> Result<Instr, ReadError>
        ensures { Takes (λ x. x) result ((select dest).read (left self.old)) (left self.new) }
    {
        self.word(b"select")?;
        self.word(b"i1")?;
        let cond = self.operand(alloc, Scalar::Int(Width::W1))?;
        let (ty, a, b) = self.alternatives(alloc)?;
        Ok(Instr::Select {
            dest,
            cond: Link::new(alloc, cond)?,
            ty,
            a,
            b,
        })
    }

    /// The type after `to`.
    #[tactic(auto, unfolding(hip_grammar::specs::Bodies::to_int))]
    fn to_int(&mut self) -> Result<Width, Option<TextFault>>
        ensures { Gives (λ x. x) result (to_int.read (left self.old)) (left self.new) }
    {
        self.word(b"to")?;
        self.keyword(Widths)
    }

    #[tactic(auto, unfolding(hip_grammar::specs::Bodies::int_cast))]
    fn int_cast(&mut self, alloc: Global, dest: Name) -> Result<Instr, ReadError>
        ensures { Takes (λ x. x) result ((int_cast dest).read (left self.old)) (left self.new) }
    {
        let op = self.keyword(IntCasts)?;
        let width = self.keyword(Widths)?;
        let from = Scalar::Int(width);
        let a = self.operand(alloc, from)?;
        let width = self.to_int()?;
        let to = Scalar::Int(width);
        Ok(Instr::Cast {
            dest,
            op,
            from,
            a,
            to,
        })
    }

    #[tactic(auto, unfolding(hip_grammar::specs::Bodies::ptrtoint))]
    fn ptrtoint(&mut self, alloc: Global, dest: Name) -> Result<Instr, ReadError>
        ensures { Takes (λ x. x) result ((ptrtoint dest).read (left self.old)) (left self.new) }
    {
        self.word(b"ptrtoint")?;
        self.word(b"ptr")?;
        let a = self.operand(alloc, Scalar::Ptr)?;
        let width = self.to_int()?;
        Ok(Instr::Cast {
            dest,
            op: CastOp::Ptrtoint,
            from: Scalar::Ptr,
            a,
            to: Scalar::Int(width),
        })
    }

    #[tactic(auto, unfolding(hip_grammar::specs::Bodies::inttoptr))]
    fn inttoptr(&mut self, alloc: Global, dest: Name) -> Result<Instr, ReadError>
        ensures { Takes (λ x. x) result ((inttoptr dest).read (left self.old)) (left self.new) }
    {
        self.word(b"inttoptr")?;
        let width = self.keyword(Widths)?;
        let a = self.operand(alloc, Scalar::Int(width))?;
        self.word(b"to")?;
        self.word(b"ptr")?;
        Ok(Instr::Cast {
            dest,
            op: CastOp::Inttoptr,
            from: Scalar::Int(width),
            a,
            to: Scalar::Ptr,
        })
    }

    #[tactic(auto, unfolding(hip_grammar::specs::Bodies::alloca))]
    fn alloca(&mut self, alloc: Global, dest: Name) -> Result<Instr, ReadError>
        ensures { Takes (λ x. x) result ((alloca dest).read (left self.old)) (left self.new) }
    {
        self.word(b"alloca")?;
        let ty = self.ty(alloc, DEEPEST_NESTING)?;
        let align = self.maybe_align()?;
        Ok(Instr::Alloca { dest, ty, align })
    }

    /// The address after a comma.
    #[tactic(auto, unfolding(hip_grammar::specs::Bodies::next_address))]
    fn next_address(&mut self, alloc: Global) -> Result<Operand, ReadError>
        ensures { Takes (λ x. x) result (next_address.read (left self.old)) (left self.new) }
    {
        self.mark(b',')?;
        self.word(b"ptr")?;
        self.operand(alloc, Scalar::Ptr)
    }

    /// The address after a comma, and the alignment that is written.
    #[tactic(auto, unfolding(hip_grammar::specs::Bodies::aligned_address))]
    fn aligned_address(&mut self, alloc: Global) -> Result<(Operand, Option<u64>), ReadError>
        ensures { Takes (λ x. x) result (aligned_address.read (left self.old)) (left self.new) }
    {
        let addr = self.next_address(alloc)?;
        let align = self.maybe_align()?;
        Ok((addr, align))
    }

    #[tactic(auto, unfolding(hip_grammar::specs::Bodies::load))]
    fn load(&mut self, alloc: Global, dest: Name) -> Result<Instr, ReadError>
        ensures { Takes (λ x. x) result ((load dest).read (left self.old)) (left self.new) }
    {
        self.word(b"load")?;
        let ty = self.keyword(Scalars)?;
        let (addr, align) = self.aligned_address(alloc)?;
        Ok(Instr::Load {
            dest,
            ty,
            addr,
            align,
        })
    }

    #[tactic(auto, unfolding(hip_grammar::specs::Bodies::store))]
    fn store(&mut self, alloc: Global) -> Result<Instr, ReadError>
        ensures { Takes (λ x. x) result (store.read (left self.old)) (left self.new) }
    {
        self.word(b"store")?;
        let ty = self.keyword(Scalars)?;
        let value = self.operand(alloc, ty)?;
        let (addr, align) = self.aligned_address(alloc)?;
        Ok(Instr::Store {
            ty,
            value,
            addr,
            align,
        })
    }

    /// The indices after a comma.
    #[tactic(auto, unfolding(hip_grammar::specs::Production::one_more_by))]
    fn next_indices(&mut self, alloc: Global) -> Result<Row<Arg>, ReadError>
        ensures { Takes (λ x. x) result
            ((one_more_by comma (separated comma index)).read (left self.old))
            (left self.new) }
    {
        self.mark(b',')?;
        self.separated(alloc, Index)
    }

    #[tactic(auto, unfolding(hip_grammar::specs::Bodies::gep))]
    fn gep(&mut self, alloc: Global, dest: Name) -> Result<Instr, ReadError>
        ensures { Takes (λ x. x) result ((gep dest).read (left self.old)) (left self.new) }
    {
        self.word(b"getelementptr")?;
        let inbounds = self.maybe_word(b"inbounds")?;
        let ty = self.ty(alloc, DEEPEST_NESTING)?;
        let base = self.next_address(alloc)?;
        let indices = self.next_indices(alloc)?;
        Ok(Instr::Gep {
            dest,
            inbounds,
            ty,
            base,
            indices,
        })
    }

    #[tactic(auto, unfolding(hip_grammar::specs::Bodies::plain_call))]
    fn plain_call(&mut self, alloc: Global, dest: Option<Name>) -> Result<Instr, ReadError>
        ensures { Takes (λ x. x) result ((plain_call dest).read (left self.old)) (left self.new) }
    {
        self.word(b"call")?;
        let ret = self.keyword(Results)?;
        let callee = self.global_name()?;
        self.mark(b'(')?;
        let args = self.listed(alloc, b')', Argument)?;
        let callee = Row::from_slice(alloc, callee)?;
        Ok(Instr::Call {
            dest,
            ret,
            callee,
            args,
        })
    }

    #[tactic(auto, unfolding(hip_grammar::specs::Bodies::call))]
    fn call(&mut self, alloc: Global, dest: Option<Name>) -> Result<Instr, ReadError>
        ensures { Takes (λ x. x) result ((call dest).read (left self.old)) (left self.new) }
    {
        if self.at_word(b"tail") {
            self.word(b"tail")?;
            self.plain_call(alloc, dest)
        } else {
            self.plain_call(alloc, dest)
        }
    }

    /// An instruction on memory, or a call.
    #[tactic(auto, unfolding(hip_grammar::specs::Bodies::memory_instr))]
    fn memory_instr(&mut self, alloc: Global, dest: Name) -> Result<Instr, ReadError>
        ensures { Takes (λ x. x) result ((memory_instr dest).read (left self.old)) (left self.new) }
    {
        if self.at_word(b"alloca") {
            self.alloca(alloc, dest)
        } else if self.at_word(b"load") {
            self.load(alloc, dest)
        } else if self.at_word(b"getelementptr") {
            self.gep(alloc, dest)
        } else {
            self.call(alloc, Some(dest))
        }
    }

    #[tactic(auto, unfolding(hip_grammar::specs::Bodies::cast_instr))]
    fn cast_instr(&mut self, alloc: Global, dest: Name) -> Result<Instr, ReadError>
        ensures { Takes (λ x. x) result ((cast_instr dest).read (left self.old)) (left self.new) }
    {
        if self.at_keyword(IntCasts) {
            self.int_cast(alloc, dest)
        } else if self.at_word(b"ptrtoint") {
            self.ptrtoint(alloc, dest)
        } else if self.at_word(b"inttoptr") {
            self.inttoptr(alloc, dest)
        } else {
            self.memory_instr(alloc, dest)
        }
    }

    /// An instruction that assigns a register, after the register and `=`.
    #[tactic(auto, unfolding(hip_grammar::specs::Bodies::value_instr))]
    pub(crate) fn value_instr(&mut self, alloc: Global, dest: Name) -> Result<Instr, ReadError>
        ensures { Takes (λ x. x) result ((value_instr dest).read (left self.old)) (left self.new) }
    {
        if self.at_keyword(BinaryOps) {
            self.binary(alloc, dest)
        } else if self.at_word(b"icmp") {
            self.compare(alloc, dest)
        } else if self.at_word(b"select") {
            self.select(alloc, dest)
        } else {
            self.cast_instr(alloc, dest)
        }
    }

    /// An instruction that assigns no register.
    #[tactic(auto, unfolding(hip_grammar::specs::Bodies::effect_instr))]
    pub(crate) fn effect_instr(&mut self, alloc: Global) -> Result<Instr, ReadError>
        ensures { Takes (λ x. x) result (effect_instr.read (left self.old)) (left self.new) }
    {
        if self.at_word(b"store") {
            self.store(alloc)
        } else {
            self.call(alloc, None)
        }
    }

    #[tactic(auto, unfolding(crate::specs::Left::left))]
    pub(crate) fn at_effect(&self) -> bool
        ensures { result ≡ next begins_effect (left self.now) }
    {
        self.at_word(b"store") || self.at_word(b"tail") || self.at_word(b"call")
    }

    #[tactic(auto, unfolding(crate::specs::Left::left))]
    pub(crate) fn at_instr(&self) -> bool
        ensures { result ≡ next begins_instr (left self.now) }
    {
        self.at_local() || self.at_effect()
    }

    /// The register that an instruction assigns.
    #[tactic(auto, unfolding(hip_grammar::specs::Bodies::assigned))]
    pub(crate) fn assigned(&mut self, alloc: Global) -> Result<Name, ReadError>
        ensures { Takes (λ x. x) result (assigned.read (left self.old)) (left self.new) }
    {
        let name = self.local()?;
        self.mark(b'=')?;
        Ok(Row::from_slice(alloc, name)?)
    }

    #[tactic(auto, unfolding(hip_grammar::specs::Bodies::assigning_instr))]
    fn assigning_instr(&mut self, alloc: Global) -> Result<Instr, ReadError>
        ensures { Takes (λ x. x) result (assigning_instr.read (left self.old)) (left self.new) }
    {
        let dest = self.assigned(alloc)?;
        self.value_instr(alloc, dest)
    }

    #[tactic(auto, unfolding(hip_grammar::specs::Bodies::instr))]
    pub(crate) fn instr(&mut self, alloc: Global) -> Result<Instr, ReadError>
        ensures { Takes (λ x. x) result (instr.read (left self.old)) (left self.new) }
    {
        if self.at_local() {
            self.assigning_instr(alloc)
        } else {
            self.effect_instr(alloc)
        }
    }
}
