//! Lists: parts that are repeated.

ghost use Rattle.std.specs.Prelude.{◌≡◌, ◌≤◌, Bool, List, Result, Ok, length};
ghost use Rattle.hip_tokens.specs.Tokens.{Tok, At};
ghost use Rattle.hip_grammar.specs.Reader.{Reader, many_at, next, with_front};
ghost use Rattle.hip_grammar.specs.Production.{Production, one_more_by, separated, listed};
ghost use Rattle.hip_grammar.specs.Laws.Loops.{TakesSome, another_some};
ghost use Rattle.hip_grammar.specs.declared.fault.TextFault.{TextFault};
ghost use Rattle.hip_grammar.specs.Words.{is_mark, comma};
ghost use Rattle.hip_parse.specs.Left.{left, Takes};

use crate::error::ReadError;
use crate::parser::Parser;
use hip_types::Row;
use std::alloc::Global;

/// A production of the grammar that may be an item of a list.
pub(crate) trait Production: Copy {
    type Value: Drop;

    ghost part: { Self → Production TextFault Self.Value };

    /// Reads the production from the next token on.
    fn read<'a>(self, parser: &mut Parser<'a>, alloc: Global) -> Result<Self::Value, ReadError>
        ensures { Takes (λ x. x) result ((part self).read (left parser.old)) (left parser.new) };

    ghost within: { (x : Self) (ts : List At) (v : Self.Value × List At) → (part x).read ts ≡ Ok v
        → length v.1 ≤ length ts };
}

/// A part that is read again as long as the next token begins one.
pub(crate) trait Repeated: Copy {
    type Item: Drop;

    ghost begins: { Self → Tok → Bool };

    ghost reading: { Self → Reader TextFault Self.Item };

    /// Whether the next token begins such a part.
    fn is_next<'a>(self, parser: &Parser<'a>) -> bool
        ensures { result ≡ next (begins self) (left parser.now) };

    /// Reads the part from the next token on.
    fn read_next<'a>(self, parser: &mut Parser<'a>, alloc: Global) -> Result<Self::Item, ReadError>
        ensures { Takes (λ x. x) result (reading self (left parser.old)) (left parser.new) };

    ghost some: { (x : Self) → TakesSome (reading x) };
}

/// A comma, and then a production.
#[derive(Clone, Copy)]
struct Another<P> {
    of: P,
}

impl<P: Production> Repeated for Another<P> {
    type Item = P::Value;

    ghost begins = { λ _. comma };

    ghost reading = { λ s. (one_more_by comma (P.part s.of)).read };

    fn is_next<'a>(self, parser: &Parser<'a>) -> bool {
        parser.at_mark(b',')
    }

    #[tactic(auto, unfolding(hip_grammar::specs::Production::one_more_by))]
    fn read_next<'a>(self, parser: &mut Parser<'a>, alloc: Global) -> Result<P::Value, ReadError> {
        parser.mark(b',')?;
        self.of.read(parser, alloc)
    }

    ghost some = { λ s. another_some comma (P.part s.of) (P.within s.of) };
}

/// The same list, without room for more items. While a list grows it takes up to twice the memory of its items, and at
/// least that of four items.
pub(crate) fn fitted<T: Drop>(items: Row<T>) -> Row<T>
    ensures { result ≡ items }
{
    let mut items = items.into_vec();
    items.shrink_to_fit();
    Row::from_vec(items)
}

impl<'a> Parser<'a> {
    /// Reads parts to the end of a list, as long as the next token begins one.
    pub(crate) fn repeated<R: Repeated>(
        &mut self,
        alloc: Global,
        part: R,
        items: Row<R::Item>,
    ) -> Result<Row<R::Item>, ReadError>
        ensures { Takes (λ x. x) result
            (with_front items (many_at (R.begins part) (R.reading part) (left self.old)))
            (left self.new) }
    {
        let mut items = items;
        'more: while part.is_next(self) {
            let item = part.read_next(self, alloc)?;
            items.push(item)?;
        }
        Ok(fitted(items))
    }

    /// Reads one or more parts, with a comma between each two.
    #[tactic(auto, unfolding(hip_grammar::specs::Production::separated))]
    pub(crate) fn separated<P: Production>(
        &mut self,
        alloc: Global,
        part: P,
    ) -> Result<Row<P::Value>, ReadError>
        ensures { Takes (λ x. x) result ((separated comma (P.part part)).read (left self.old)) (left self.new) }
    {
        let first = part.read(self, alloc)?;
        let mut items = Row::new(alloc);
        items.push(first)?;
        self.repeated(alloc, Another { of: part }, items)
    }

    /// Reads parts, or none, up to the closing mark.
    #[tactic(auto, unfolding(hip_grammar::specs::Production::listed, hip_grammar::specs::Production::none_up_to, hip_grammar::specs::Production::some_up_to))]
    pub(crate) fn listed<P: Production>(
        &mut self,
        alloc: Global,
        close: u8,
        part: P,
    ) -> Result<Row<P::Value>, ReadError>
        ensures { Takes (λ x. x) result
            ((listed comma (is_mark close) (P.part part)).read (left self.old))
            (left self.new) }
    {
        if self.at_mark(close) {
            self.mark(close)?;
            return Ok(Row::new(alloc));
        }
        let items = self.separated(alloc, part)?;
        self.mark(close)?;
        Ok(items)
    }
}
