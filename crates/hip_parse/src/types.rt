//! Types, which nest.

ghost use Rattle.hip_tokens.specs.Bytes.{byte};
ghost use Rattle.hip_grammar.specs.Production.{one_more_by, separated, listed};
ghost use Rattle.hip_grammar.specs.Reader.{many_at, with_front};
ghost use Rattle.hip_grammar.specs.Words.{is_mark, comma};
ghost use Rattle.hip_grammar.specs.Grammar.{array_type, struct_type, type_within};
ghost use Rattle.hip_parse.specs.Left.{left, Gives, Takes};

use crate::error::ReadError;
use crate::parser::Parser;
use crate::words::TypeWords;
use hip_grammar::TextFault;
use hip_types::{Link, Row, Ty};
use std::alloc::Global;

impl<'a> Parser<'a> {
    /// A type with no level left.
    #[tactic(auto, unfolding(crate::specs::Left::left, hip_grammar::specs::Grammar::type_within, hip_grammar::specs::Grammar::type_by))]
    fn shallow_type(&mut self) -> Result<Ty, Option<TextFault>>
        ensures { Gives (λ x. x) result ((type_within 0).read (left self.old)) (left self.new) }
    {
        if self.at_mark(b'[') || self.at_mark(b'{') {
            Err(Some(TextFault::TooDeep))
        } else {
            self.keyword(TypeWords)
        }
    }

    /// A type that is nested at most `depth` deep.
    #[cycle(types)]
    #[tactic(auto, unfolding(hip_grammar::specs::Grammar::type_within, hip_grammar::specs::Grammar::type_by))]
    pub(crate) fn ty(&mut self, alloc: Global, depth: u64) -> Result<Ty, ReadError>
        ensures { Takes (λ x. x) result ((type_within depth).read (left self.old)) (left self.new) }
    {
        if depth == 0 {
            let ty = self.shallow_type()?;
            Ok(ty)
        } else if self.at_mark(b'[') {
            self.array(alloc, depth - 1)
        } else if self.at_mark(b'{') {
            self.structure(alloc, depth - 1)
        } else {
            let ty = self.keyword(TypeWords)?;
            Ok(ty)
        }
    }

    #[cycle(types)]
    #[tactic(auto, unfolding(hip_grammar::specs::Grammar::array_type))]
    fn array(&mut self, alloc: Global, depth: u64) -> Result<Ty, ReadError>
        ensures { Takes (λ x. x) result ((array_type (type_within depth)).read (left self.old)) (left self.new) }
    {
        self.mark(b'[')?;
        let count = self.count()?;
        self.word(b"x")?;
        let element = self.ty(alloc, depth)?;
        self.mark(b']')?;
        Ok(Ty::Array(count, Link::new(alloc, element)?))
    }

    #[cycle(types)]
    #[tactic(auto, unfolding(hip_grammar::specs::Grammar::struct_type))]
    fn structure(&mut self, alloc: Global, depth: u64) -> Result<Ty, ReadError>
        ensures { Takes (λ x. x) result ((struct_type (type_within depth)).read (left self.old)) (left self.new) }
    {
        self.mark(b'{')?;
        let fields = self.fields(alloc, depth)?;
        Ok(Ty::Struct(fields))
    }

    #[cycle(types)]
    #[tactic(auto, unfolding(hip_grammar::specs::Production::listed, hip_grammar::specs::Production::none_up_to, hip_grammar::specs::Production::some_up_to))]
    fn fields(&mut self, alloc: Global, depth: u64) -> Result<Row<Ty>, ReadError>
        ensures { Takes (λ x. x) result
            ((listed comma (is_mark (byte "}")) (type_within depth)).read (left self.old))
            (left self.new) }
    {
        if self.at_mark(b'}') {
            self.mark(b'}')?;
            return Ok(Row::new(alloc));
        }
        let items = self.some_fields(alloc, depth)?;
        self.mark(b'}')?;
        Ok(items)
    }

    #[cycle(types)]
    #[tactic(auto, unfolding(hip_grammar::specs::Production::separated))]
    fn some_fields(&mut self, alloc: Global, depth: u64) -> Result<Row<Ty>, ReadError>
        ensures { Takes (λ x. x) result ((separated comma (type_within depth)).read (left self.old)) (left self.new) }
    {
        let first = self.ty(alloc, depth)?;
        let mut items = Row::new(alloc);
        items.push(first)?;
        self.more_fields(alloc, depth, items)
    }

    #[cycle(types)]
    #[tactic(auto, unfolding(hip_grammar::specs::Production::one_more_by))]
    fn next_field(&mut self, alloc: Global, depth: u64) -> Result<Ty, ReadError>
        ensures { Takes (λ x. x) result ((one_more_by comma (type_within depth)).read (left self.old))
            (left self.new) }
    {
        self.mark(b',')?;
        self.ty(alloc, depth)
    }

    #[cycle(types)]
    fn more_fields(
        &mut self,
        alloc: Global,
        depth: u64,
        items: Row<Ty>,
    ) -> Result<Row<Ty>, ReadError>
        ensures { Takes (λ x. x) result
            (with_front items (many_at comma (one_more_by comma (type_within depth)).read (left self.old)))
            (left self.new) }
    {
        let mut items = items;
        'more: while self.at_mark(b',') {
            let item = self.next_field(alloc, depth)?;
            items.push(item)?;
        }
        Ok(items)
    }
}
