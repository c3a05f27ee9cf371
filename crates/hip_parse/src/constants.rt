//! Constants and operands.

ghost use Rattle.hip_types.specs.declared.number.Scalar.TheVariants.{Ptr};
ghost use Rattle.hip_tokens.specs.Bytes.{byte};
ghost use Rattle.hip_grammar.specs.Production.{token, either, one_more_by, separated, listed};
ghost use Rattle.hip_grammar.specs.Reader.{many_at, with_front};
ghost use Rattle.hip_grammar.specs.Words.{is_mark, comma, too_deep};
ghost use Rattle.hip_grammar.specs.Grammar.{a_pointer, zero_const, literal_index, gep_inside, gep_const, pointer_within, typed_const, const_list, array_const, struct_const, const_within, scalar_const, register, fixed_operand, operand, arg, index};
ghost use Rattle.hip_parse.specs.Lengths.{literal_index_within, arg_within, index_within};
ghost use Rattle.hip_parse.specs.Left.{left, Gives, Takes};

use crate::error::ReadError;
use crate::parser::Parser;
use crate::productions::Production;
use crate::words::{Scalars, Widths};
use hip_grammar::TextFault;
use hip_tokens::Token;
use hip_tree::{Arg, Const, ConstGep, Operand, TypedConst};
use hip_types::{Bits, DEEPEST_NESTING, Link, Row, Scalar, Ty};
use std::alloc::Global;

/// An integer type and a literal of it.
#[derive(Clone, Copy)]
struct LiteralIndex;

impl Production for LiteralIndex {
    type Value = Bits;

    ghost part = { λ _. literal_index };

    fn read<'a>(self, parser: &mut Parser<'a>, _alloc: Global) -> Result<Bits, ReadError> {
        let index = parser.literal_index()?;
        Ok(index)
    }

    ghost within = { λ _. literal_index_within };
}

/// An operand with its type.
#[derive(Clone, Copy)]
pub(crate) struct Argument;

impl Production for Argument {
    type Value = Arg;

    ghost part = { λ _. arg };

    fn read<'a>(self, parser: &mut Parser<'a>, alloc: Global) -> Result<Arg, ReadError> {
        parser.arg(alloc)
    }

    ghost within = { λ _. arg_within };
}

/// An operand with its integer type.
#[derive(Clone, Copy)]
pub(crate) struct Index;

impl Production for Index {
    type Value = Arg;

    ghost part = { λ _. index };

    fn read<'a>(self, parser: &mut Parser<'a>, alloc: Global) -> Result<Arg, ReadError> {
        parser.index(alloc)
    }

    ghost within = { λ _. index_within };
}

impl<'a> Parser<'a> {
    // ---- constants under `ptr`

    #[tactic(auto, unfolding(hip_grammar::specs::Grammar::literal_index))]
    fn literal_index(&mut self) -> Result<Bits, Option<TextFault>>
        ensures { Gives (λ x. x) result (literal_index.read (left self.old)) (left self.new) }
    {
        let width = self.keyword(Widths)?;
        self.literal(width)
    }

    /// A constant under `ptr` that opens no parenthesis.
    #[tactic(auto, unfolding(crate::specs::Left::left))]
    fn simple_pointer(&mut self, alloc: Global) -> Result<Const, ReadError>
        ensures { Takes (λ x. x) result ((token a_pointer).read (left self.old)) (left self.new) }
    {
        match self.token {
            Some((Token::Word(t), _)) => {
                if t == b"null".as_slice() {
                    self.advance();
                    Ok(Const::Null)
                } else if t == b"zeroinitializer".as_slice() {
                    self.advance();
                    Ok(Const::Zero)
                } else {
                    Err(ReadError::Refused(None))
                }
            }
            Some((Token::Global(t), _)) => {
                self.advance();
                Ok(Const::Address(Row::from_slice(alloc, t)?))
            }
            _ => Err(ReadError::Refused(None)),
        }
    }

    /// A `getelementptr` at the greatest depth: it is refused.
    #[tactic(auto, unfolding(crate::specs::Left::left, hip_grammar::specs::Grammar::gep_const))]
    fn shallow_gep(&mut self) -> Result<Const, Option<TextFault>>
        ensures { Gives (λ x. x) result
            ((gep_const (λ inbounds. token (too_deep (byte "(")))).read (left self.old))
            (left self.new) }
    {
        self.word(b"getelementptr")?;
        let _inbounds = self.maybe_word(b"inbounds")?;
        if self.at_mark(b'(') {
            Err(Some(TextFault::TooDeep))
        } else {
            Err(None)
        }
    }

    /// A constant under `ptr`, with at most `depth` nested `getelementptr`.
    #[cycle(pointers)]
    #[tactic(auto, unfolding(hip_grammar::specs::Grammar::pointer_within, hip_grammar::specs::Grammar::pointer_by))]
    pub(crate) fn pointer(&mut self, alloc: Global, depth: u64) -> Result<Const, ReadError>
        ensures { Takes (λ x. x) result ((pointer_within depth).read (left self.old)) (left self.new) }
    {
        if !self.at_word(b"getelementptr") {
            self.simple_pointer(alloc)
        } else if depth == 0 {
            let value = self.shallow_gep()?;
            Ok(value)
        } else {
            self.gep_const(alloc, depth - 1)
        }
    }

    #[cycle(pointers)]
    #[tactic(auto, unfolding(hip_grammar::specs::Grammar::gep_const))]
    fn gep_const(&mut self, alloc: Global, depth: u64) -> Result<Const, ReadError>
        ensures { Takes (λ x. x) result
            ((gep_const (gep_inside (pointer_within depth))).read (left self.old))
            (left self.new) }
    {
        self.word(b"getelementptr")?;
        let inbounds = self.maybe_word(b"inbounds")?;
        self.gep_inside(alloc, depth, inbounds)
    }

    #[cycle(pointers)]
    #[tactic(auto, unfolding(hip_grammar::specs::Grammar::gep_inside))]
    fn gep_inside(&mut self, alloc: Global, depth: u64, inbounds: bool) -> Result<Const, ReadError>
        ensures { Takes (λ x. x) result
            ((gep_inside (pointer_within depth) inbounds).read (left self.old))
            (left self.new) }
    {
        self.mark(b'(')?;
        let ty = self.ty(alloc, DEEPEST_NESTING)?;
        self.mark(b',')?;
        self.word(b"ptr")?;
        let base = self.pointer(alloc, depth)?;
        self.mark(b',')?;
        let indices = self.separated(alloc, LiteralIndex)?;
        self.mark(b')')?;
        let gep = ConstGep {
            inbounds,
            ty,
            base,
            indices,
        };
        Ok(Const::Gep(Link::new(alloc, gep)?))
    }

    // ---- constants under any type

    #[tactic(auto, unfolding(crate::specs::Left::left))]
    fn zero_const(&mut self) -> Result<Const, Option<TextFault>>
        ensures { Gives (λ x. x) result ((token zero_const).read (left self.old)) (left self.new) }
    {
        if self.at_word(b"zeroinitializer") {
            self.advance();
            Ok(Const::Zero)
        } else {
            Err(None)
        }
    }

    /// An aggregate constant with no level left.
    #[tactic(auto, unfolding(crate::specs::Left::left, hip_grammar::specs::Grammar::array_const))]
    fn shallow_array(&mut self) -> Result<Const, Option<TextFault>>
        ensures { Gives (λ x. x) result
            ((either (is_mark (byte "[")) (array_const (token (too_deep (byte "[")))) (token zero_const)).read
            (left self.old))
            (left self.new) }
    {
        if self.at_mark(b'[') {
            Err(Some(TextFault::TooDeep))
        } else {
            self.zero_const()
        }
    }

    #[tactic(auto, unfolding(crate::specs::Left::left, hip_grammar::specs::Grammar::struct_const))]
    fn shallow_struct(&mut self) -> Result<Const, Option<TextFault>>
        ensures { Gives (λ x. x) result
            ((either (is_mark (byte "{")) (struct_const (token (too_deep (byte "{")))) (token zero_const)).read
            (left self.old))
            (left self.new) }
    {
        if self.at_mark(b'{') {
            Err(Some(TextFault::TooDeep))
        } else {
            self.zero_const()
        }
    }

    /// A constant under the type, with no level left.
    #[tactic(auto, unfolding(hip_grammar::specs::Grammar::const_within, hip_grammar::specs::Grammar::const_by))]
    fn shallow_const(&mut self, alloc: Global, ty: &Ty) -> Result<Const, ReadError>
        ensures { Takes (λ x. x) result ((const_within 0 ty.now).read (left self.old)) (left self.new) }
    {
        match ty {
            Ty::Int(width) => {
                let value = self.int_const(*width)?;
                Ok(value)
            }
            Ty::Ptr => self.pointer(alloc, DEEPEST_NESTING),
            Ty::Array(_, _) => {
                let value = self.shallow_array()?;
                Ok(value)
            }
            Ty::Struct(_) => {
                let value = self.shallow_struct()?;
                Ok(value)
            }
        }
    }

    /// A constant under the type, whose bracketed and braced constants are nested at most `depth` deep.
    #[cycle(constants)]
    #[tactic(auto, unfolding(hip_grammar::specs::Grammar::const_within, hip_grammar::specs::Grammar::const_by))]
    pub(crate) fn const_value(
        &mut self,
        alloc: Global,
        depth: u64,
        ty: &Ty,
    ) -> Result<Const, ReadError>
        ensures { Takes (λ x. x) result ((const_within depth ty.now).read (left self.old)) (left self.new) }
    {
        if depth == 0 {
            return self.shallow_const(alloc, ty);
        }
        match ty {
            Ty::Int(width) => {
                let value = self.int_const(*width)?;
                Ok(value)
            }
            Ty::Ptr => self.pointer(alloc, DEEPEST_NESTING),
            Ty::Array(_, _) => self.array_value(alloc, depth - 1),
            Ty::Struct(_) => self.struct_value(alloc, depth - 1),
        }
    }

    #[cycle(constants)]
    #[tactic(auto, unfolding(hip_grammar::specs::Grammar::array_const))]
    fn array_value(&mut self, alloc: Global, depth: u64) -> Result<Const, ReadError>
        ensures { Takes (λ x. x) result
            ((either (is_mark (byte "["))
            (array_const (const_list (byte "[") (byte "]") (const_within depth)))
            (token zero_const)).read (left self.old))
            (left self.new) }
    {
        if self.at_mark(b'[') {
            let elements = self.items(alloc, depth, b'[', b']')?;
            Ok(Const::Array(elements))
        } else {
            let value = self.zero_const()?;
            Ok(value)
        }
    }

    #[cycle(constants)]
    #[tactic(auto, unfolding(hip_grammar::specs::Grammar::struct_const))]
    fn struct_value(&mut self, alloc: Global, depth: u64) -> Result<Const, ReadError>
        ensures { Takes (λ x. x) result
            ((either (is_mark (byte "{"))
            (struct_const (const_list (byte "{") (byte "}") (const_within depth)))
            (token zero_const)).read (left self.old))
            (left self.new) }
    {
        if self.at_mark(b'{') {
            let fields = self.items(alloc, depth, b'{', b'}')?;
            Ok(Const::Struct(fields))
        } else {
            let value = self.zero_const()?;
            Ok(value)
        }
    }

    /// The constants of a list, between the marks that open and close it.
    #[cycle(constants)]
    #[tactic(auto, unfolding(hip_grammar::specs::Grammar::const_list, hip_grammar::specs::Production::listed, hip_grammar::specs::Production::none_up_to, hip_grammar::specs::Production::some_up_to))]
    fn items(
        &mut self,
        alloc: Global,
        depth: u64,
        start: u8,
        end: u8,
    ) -> Result<Row<TypedConst>, ReadError>
        ensures { Takes (λ x. x) result
            ((const_list start end (const_within depth)).read (left self.old))
            (left self.new) }
    {
        self.mark(start)?;
        if self.at_mark(end) {
            self.mark(end)?;
            return Ok(Row::new(alloc));
        }
        let items = self.some_consts(alloc, depth)?;
        self.mark(end)?;
        Ok(items)
    }

    #[cycle(constants)]
    #[tactic(auto, unfolding(hip_grammar::specs::Grammar::typed_const))]
    fn typed_const(&mut self, alloc: Global, depth: u64) -> Result<TypedConst, ReadError>
        ensures { Takes (λ x. x) result ((typed_const (const_within depth)).read (left self.old)) (left self.new) }
    {
        let ty = self.ty(alloc, DEEPEST_NESTING)?;
        let value = self.const_value(alloc, depth, &ty)?;
        Ok(TypedConst { ty, value })
    }

    #[cycle(constants)]
    #[tactic(auto, unfolding(hip_grammar::specs::Production::separated))]
    fn some_consts(&mut self, alloc: Global, depth: u64) -> Result<Row<TypedConst>, ReadError>
        ensures { Takes (λ x. x) result
            ((separated comma (typed_const (const_within depth))).read (left self.old))
            (left self.new) }
    {
        let first = self.typed_const(alloc, depth)?;
        let mut items = Row::new(alloc);
        items.push(first)?;
        self.more_consts(alloc, depth, items)
    }

    #[cycle(constants)]
    #[tactic(auto, unfolding(hip_grammar::specs::Production::one_more_by))]
    fn next_const(&mut self, alloc: Global, depth: u64) -> Result<TypedConst, ReadError>
        ensures { Takes (λ x. x) result
            ((one_more_by comma (typed_const (const_within depth))).read (left self.old))
            (left self.new) }
    {
        self.mark(b',')?;
        self.typed_const(alloc, depth)
    }

    #[cycle(constants)]
    fn more_consts(
        &mut self,
        alloc: Global,
        depth: u64,
        items: Row<TypedConst>,
    ) -> Result<Row<TypedConst>, ReadError>
        ensures { Takes (λ x. x) result
            (with_front items
            (many_at comma (one_more_by comma (typed_const (const_within depth))).read (left self.old)))
            (left self.new) }
    {
        let mut items = items;
        'more: while self.at_mark(b',') {
            let item = self.next_const(alloc, depth)?;
            items.push(item)?;
        }
        Ok(items)
    }

    // ---- operands

    #[tactic(auto, unfolding(hip_grammar::specs::Grammar::scalar_const))]
    fn scalar_const(&mut self, alloc: Global, scalar: Scalar) -> Result<Const, ReadError>
        ensures { Takes (λ x. x) result ((scalar_const scalar).read (left self.old)) (left self.new) }
    {
        match scalar {
            Scalar::Int(width) => {
                let value = self.int_const(width)?;
                Ok(value)
            }
            Scalar::Ptr => self.pointer(alloc, DEEPEST_NESTING),
        }
    }

    /// A register, or a constant under the type.
    #[tactic(auto, unfolding(hip_grammar::specs::Grammar::operand, hip_grammar::specs::Grammar::register, hip_grammar::specs::Grammar::fixed_operand))]
    pub(crate) fn operand(&mut self, alloc: Global, scalar: Scalar) -> Result<Operand, ReadError>
        ensures { Takes (λ x. x) result ((operand scalar).read (left self.old)) (left self.new) }
    {
        if self.at_local() {
            let name = self.local()?;
            Ok(Operand::Reg(Row::from_slice(alloc, name)?))
        } else {
            let value = self.scalar_const(alloc, scalar)?;
            Ok(Operand::Fixed(value))
        }
    }

    #[tactic(auto, unfolding(hip_grammar::specs::Grammar::arg))]
    pub(crate) fn arg(&mut self, alloc: Global) -> Result<Arg, ReadError>
        ensures { Takes (λ x. x) result (arg.read (left self.old)) (left self.new) }
    {
        let ty = self.keyword(Scalars)?;
        let value = self.operand(alloc, ty)?;
        Ok(Arg { ty, value })
    }

    #[tactic(auto, unfolding(hip_grammar::specs::Grammar::index))]
    fn index(&mut self, alloc: Global) -> Result<Arg, ReadError>
        ensures { Takes (λ x. x) result (index.read (left self.old)) (left self.new) }
    {
        let width = self.keyword(Widths)?;
        let ty = Scalar::Int(width);
        let value = self.operand(alloc, ty)?;
        Ok(Arg { ty, value })
    }
}
