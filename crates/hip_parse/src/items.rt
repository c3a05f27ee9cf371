//! Globals, externs, functions and whole texts.

ghost use Rattle.std.specs.Prelude.{◌≡◌, OnOk, codes};
ghost use Rattle.hip_grammar.specs.Production.{either, listed};
ghost use Rattle.hip_grammar.specs.Reader.{next};
ghost use Rattle.hip_grammar.specs.Words.{is_word, is_label};
ghost use Rattle.hip_grammar.specs.Grammar.{scalar};
ghost use Rattle.hip_grammar.specs.Bodies.{block};
ghost use Rattle.hip_grammar.specs.Text.{source_filename, target_item, section, only_align, placement, place, global, maybe_unnamed, extern_item, param, blocks, function, item, begins_item, with_item, text};
ghost use Rattle.hip_parse.specs.Items.{item_of};
ghost use Rattle.hip_parse.specs.Lengths.{scalar_within, param_within, block_some};
ghost use Rattle.hip_parse.specs.Left.{left, Gives, Takes};

use crate::error::ReadError;
use crate::parser::Parser;
use crate::productions::{Production, Repeated};
use crate::words::{Fixed, Linkages, Links, Results, Scalars, TargetWords, Unnamed};
use hip_grammar::TextFault;
use hip_tree::{Block, Extern, Function, GlobalVar, Param, Program};
use hip_types::{DEEPEST_NESTING, NoMemory, Row, Scalar};
use std::alloc::Global;

/// An item of a text.
#[derive(Drop)]
pub(crate) enum Item {
    Global(GlobalVar),
    Extern(Extern),
    Function(Function),
    /// An item that is read and not kept.
    Dropped,
}

/// Puts the item at the end of its list.
fn add(program: &mut Program, item: Item) -> Result<(), NoMemory>
    ensures { OnOk result (program.new ≡ with_item program.old (item_of item)) }
{
    match item {
        Item::Global(global) => program.globals.push(global),
        Item::Extern(extern_item) => program.externs.push(extern_item),
        Item::Function(function) => program.functions.push(function),
        Item::Dropped => Ok(()),
    }
}

/// The type of a parameter of a declared function.
#[derive(Clone, Copy)]
struct ParamType;

impl Production for ParamType {
    type Value = Scalar;

    ghost part = { λ _. scalar };

    fn read<'a>(self, parser: &mut Parser<'a>, _alloc: Global) -> Result<Scalar, ReadError> {
        let scalar = parser.keyword(Scalars)?;
        Ok(scalar)
    }

    ghost within = { λ _. scalar_within };
}

/// A parameter of a function.
#[derive(Clone, Copy)]
struct Parameter;

impl Production for Parameter {
    type Value = Param;

    ghost part = { λ _. param };

    fn read<'a>(self, parser: &mut Parser<'a>, alloc: Global) -> Result<Param, ReadError> {
        parser.param(alloc)
    }

    ghost within = { λ _. param_within };
}

/// The basic blocks of a function.
#[derive(Clone, Copy)]
struct Blocks;

impl Repeated for Blocks {
    type Item = Block;

    ghost begins = { λ _. is_label };

    ghost reading = { λ _. block.read };

    fn is_next<'a>(self, parser: &Parser<'a>) -> bool {
        parser.at_label()
    }

    fn read_next<'a>(self, parser: &mut Parser<'a>, alloc: Global) -> Result<Block, ReadError> {
        parser.block(alloc)
    }

    ghost some = { λ _. block_some };
}

impl<'a> Parser<'a> {
    fn skip_unnamed(&mut self) -> Result<Option<()>, Option<TextFault>>
        ensures { Gives (λ x. x) result (maybe_unnamed.read (left self.old)) (left self.new) }
    {
        if self.at_keyword(Unnamed) {
            self.keyword(Unnamed)?;
            Ok(Some(()))
        } else {
            Ok(None)
        }
    }

    #[tactic(auto, unfolding(hip_grammar::specs::Text::source_filename))]
    fn source_filename(&mut self) -> Result<Item, Option<TextFault>>
        ensures { Gives item_of result (source_filename.read (left self.old)) (left self.new) }
    {
        self.word(b"source_filename")?;
        self.mark(b'=')?;
        self.string()?;
        Ok(Item::Dropped)
    }

    #[tactic(auto, unfolding(hip_grammar::specs::Text::target_item))]
    fn target_item(&mut self) -> Result<Item, Option<TextFault>>
        ensures { Gives item_of result (target_item.read (left self.old)) (left self.new) }
    {
        self.word(b"target")?;
        self.keyword(TargetWords)?;
        self.mark(b'=')?;
        self.string()?;
        Ok(Item::Dropped)
    }

    #[tactic(auto, unfolding(hip_grammar::specs::Text::section))]
    fn section(&mut self) -> Result<(bool, Option<u64>), Option<TextFault>>
        ensures { Gives (λ x. x) result (section.read (left self.old)) (left self.new) }
    {
        self.word(b"section")?;
        self.section_name()?;
        let align = self.maybe_align()?;
        Ok((true, align))
    }

    #[tactic(auto, unfolding(hip_grammar::specs::Text::only_align))]
    fn only_align(&mut self) -> Result<(bool, Option<u64>), Option<TextFault>>
        ensures { Gives (λ x. x) result (only_align.read (left self.old)) (left self.new) }
    {
        self.word(b"align")?;
        let align = self.alignment()?;
        Ok((false, Some(align)))
    }

    #[tactic(auto, unfolding(hip_grammar::specs::Text::placement))]
    fn placement(&mut self) -> Result<(bool, Option<u64>), Option<TextFault>>
        ensures { Gives (λ x. x) result (placement.read (left self.old)) (left self.new) }
    {
        self.mark(b',')?;
        if self.at_word(b"section") {
            self.section()
        } else {
            self.only_align()
        }
    }

    /// Whether a global is persistent, and its alignment.
    #[tactic(auto, unfolding(hip_grammar::specs::Text::place))]
    fn place(&mut self) -> Result<(bool, Option<u64>), Option<TextFault>>
        ensures { Gives (λ x. x) result (place.read (left self.old)) (left self.new) }
    {
        if self.at_mark(b',') {
            self.placement()
        } else {
            Ok((false, None))
        }
    }

    #[tactic(auto, unfolding(hip_grammar::specs::Text::global))]
    fn global(&mut self, alloc: Global) -> Result<Item, ReadError>
        ensures { Takes item_of result (global.read (left self.old)) (left self.new) }
    {
        let name = self.global_name()?;
        self.mark(b'=')?;
        self.skip_keywords(Linkages)?;
        let fixed = self.keyword(Fixed)?;
        let ty = self.ty(alloc, DEEPEST_NESTING)?;
        let init = self.const_value(alloc, DEEPEST_NESTING, &ty)?;
        let (persistent, align) = self.place()?;
        let name = Row::from_slice(alloc, name)?;
        Ok(Item::Global(GlobalVar {
            name,
            fixed,
            ty,
            init,
            persistent,
            align,
        }))
    }

    #[tactic(auto, unfolding(hip_grammar::specs::Text::extern_item))]
    fn extern_item(&mut self, alloc: Global) -> Result<Item, ReadError>
        ensures { Takes item_of result (extern_item.read (left self.old)) (left self.new) }
    {
        self.word(b"declare")?;
        let ret = self.keyword(Results)?;
        let name = self.global_name()?;
        self.mark(b'(')?;
        let params = self.listed(alloc, b')', ParamType)?;
        let _unnamed = self.skip_unnamed()?;
        let name = Row::from_slice(alloc, name)?;
        Ok(Item::Extern(Extern { ret, name, params }))
    }

    #[tactic(auto, unfolding(hip_grammar::specs::Text::param))]
    fn param(&mut self, alloc: Global) -> Result<Param, ReadError>
        ensures { Takes (λ x. x) result (param.read (left self.old)) (left self.new) }
    {
        let ty = self.keyword(Scalars)?;
        let name = self.local()?;
        let name = Row::from_slice(alloc, name)?;
        Ok(Param { ty, name })
    }

    #[tactic(auto, unfolding(hip_grammar::specs::Text::blocks))]
    fn blocks(&mut self, alloc: Global) -> Result<Row<Block>, ReadError>
        ensures { Takes (λ x. x) result (blocks.read (left self.old)) (left self.new) }
    {
        let first = self.block(alloc)?;
        let mut blocks = Row::new(alloc);
        blocks.push(first)?;
        self.repeated(alloc, Blocks, blocks)
    }

    #[tactic(auto, unfolding(hip_grammar::specs::Text::function))]
    fn function(&mut self, alloc: Global) -> Result<Item, ReadError>
        ensures { Takes item_of result (function.read (left self.old)) (left self.new) }
    {
        self.word(b"define")?;
        self.skip_keywords(Links)?;
        let ret = self.keyword(Results)?;
        let name = self.global_name()?;
        self.mark(b'(')?;
        let params = self.listed(alloc, b')', Parameter)?;
        let _unnamed = self.skip_unnamed()?;
        self.mark(b'{')?;
        let blocks = self.blocks(alloc)?;
        self.mark(b'}')?;
        let name = Row::from_slice(alloc, name)?;
        Ok(Item::Function(Function {
            ret,
            name,
            params,
            blocks,
        }))
    }

    fn dropped(&mut self) -> Result<Item, Option<TextFault>>
        ensures { Gives item_of result
            ((either (is_word (codes "source_filename")) source_filename target_item).read (left self.old))
            (left self.new) }
    {
        if self.at_word(b"source_filename") {
            self.source_filename()
        } else {
            self.target_item()
        }
    }

    #[tactic(auto, unfolding(hip_grammar::specs::Text::item))]
    fn item(&mut self, alloc: Global) -> Result<Item, ReadError>
        ensures { Takes item_of result (item.read (left self.old)) (left self.new) }
    {
        if self.at_global() {
            self.global(alloc)
        } else if self.at_word(b"declare") {
            self.extern_item(alloc)
        } else if self.at_word(b"define") {
            self.function(alloc)
        } else {
            let item = self.dropped()?;
            Ok(item)
        }
    }

    #[tactic(auto, unfolding(crate::specs::Left::left))]
    fn at_item(&self) -> bool
        ensures { result ≡ next begins_item (left self.now) }
    {
        self.at_global()
            || self.at_word(b"declare")
            || self.at_word(b"define")
            || self.at_word(b"source_filename")
            || self.at_word(b"target")
    }

    #[tactic(auto, unfolding(hip_grammar::specs::Text::text))]
    pub(crate) fn program(&mut self, alloc: Global) -> Result<Program, ReadError>
        ensures { Takes (λ x. x) result (text.read (left self.old)) (left self.new) }
    {
        let mut program = Program {
            globals: Row::new(alloc),
            externs: Row::new(alloc),
            functions: Row::new(alloc),
        };
        'more: while self.at_item() {
            let item = self.item(alloc)?;
            add(&mut program, item)?;
        }
        Ok(program)
    }
}
