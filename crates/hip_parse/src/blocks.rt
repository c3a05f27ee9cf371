//! Blocks.

ghost use Rattle.std.specs.Prelude.{codes};
ghost use Rattle.hip_grammar.specs.Production.{one_more_by, separated};
ghost use Rattle.hip_grammar.specs.Reader.{leaders_at};
ghost use Rattle.hip_grammar.specs.Words.{comma, is_local, is_word};
ghost use Rattle.hip_grammar.specs.Grammar.{is_width};
ghost use Rattle.hip_grammar.specs.Bodies.{assigned, edge_label, edge, phi, instr, begins_instr, target, jump, branch, br, case, cases, switch, ret_void, ret_arg, ret_end, unreachable, end, closing, after_first, after_name, from_effect, after_phis, block};
ghost use Rattle.hip_parse.specs.Lengths.{edge_within, case_some, instr_some};
ghost use Rattle.hip_parse.specs.Left.{left, Gives, Takes};

use crate::error::ReadError;
use crate::parser::Parser;
use crate::productions::{Production, Repeated, fitted};
use crate::words::{Scalars, Widths};
use hip_grammar::{Keyword, TextFault};
use hip_tree::{Block, Case, Edge, End, Instr, Phi};
use hip_types::{Link, Name, Row, Scalar, Width};
use std::alloc::Global;

/// An edge of a phi of this type.
#[derive(Clone, Copy)]
struct EdgeOf(Scalar);

impl Production for EdgeOf {
    type Value = Edge;

    ghost part = { λ s. edge s.0 };

    fn read<'a>(self, parser: &mut Parser<'a>, alloc: Global) -> Result<Edge, ReadError> {
        parser.edge(alloc, self.0)
    }

    ghost within = { λ s. edge_within s.0 };
}

/// A case of a switch over integers of this width.
#[derive(Clone, Copy)]
struct CaseOf(Width);

impl Repeated for CaseOf {
    type Item = Case;

    ghost begins = { λ s. is_width s.0 };

    ghost reading = { λ s. (case s.0).read };

    fn is_next<'a>(self, parser: &Parser<'a>) -> bool {
        parser.at_word(self.0.keyword())
    }

    fn read_next<'a>(self, parser: &mut Parser<'a>, alloc: Global) -> Result<Case, ReadError> {
        parser.case(alloc, self.0)
    }

    ghost some = { λ s. case_some s.0 };
}

/// The instructions of a basic block.
#[derive(Clone, Copy)]
struct Instructions;

impl Repeated for Instructions {
    type Item = Instr;

    ghost begins = { λ _. begins_instr };

    ghost reading = { λ _. instr.read };

    fn is_next<'a>(self, parser: &Parser<'a>) -> bool {
        parser.at_instr()
    }

    fn read_next<'a>(self, parser: &mut Parser<'a>, alloc: Global) -> Result<Instr, ReadError> {
        parser.instr(alloc)
    }

    ghost some = { λ _. instr_some };
}

impl<'a> Parser<'a> {
    // ---- phis

    /// The label of an edge after a comma, and the bracket that closes the edge.
    #[tactic(auto, unfolding(hip_grammar::specs::Bodies::edge_label))]
    fn edge_label(&mut self, alloc: Global) -> Result<Name, ReadError>
        ensures { Takes (λ x. x) result (edge_label.read (left self.old)) (left self.new) }
    {
        self.mark(b',')?;
        let label = self.local()?;
        self.mark(b']')?;
        Ok(Row::from_slice(alloc, label)?)
    }

    #[tactic(auto, unfolding(hip_grammar::specs::Bodies::edge))]
    fn edge(&mut self, alloc: Global, scalar: Scalar) -> Result<Edge, ReadError>
        ensures { Takes (λ x. x) result ((edge scalar).read (left self.old)) (left self.new) }
    {
        self.mark(b'[')?;
        let value = self.operand(alloc, scalar)?;
        let label = self.edge_label(alloc)?;
        Ok(Edge { value, label })
    }

    #[tactic(auto, unfolding(hip_grammar::specs::Bodies::phi))]
    fn phi(&mut self, alloc: Global, dest: Name) -> Result<Phi, ReadError>
        ensures { Takes (λ x. x) result ((phi dest).read (left self.old)) (left self.new) }
    {
        self.word(b"phi")?;
        let ty = self.keyword(Scalars)?;
        let edges = self.separated(alloc, EdgeOf(ty))?;
        Ok(Phi { dest, ty, edges })
    }

    /// The phis of a block, and the register that the block assigns next, if its next line assigns one.
    fn leading_phis(&mut self, alloc: Global) -> Result<(Row<Phi>, Option<Name>), ReadError>
        ensures { Takes (λ x. x) result
            (leaders_at is_local assigned.read (is_word (codes "phi")) (λ dest. (phi dest).read) (left self.old))
            (left self.new) }
    {
        let mut phis = Row::new(alloc);
        'more: while self.at_local() {
            let name = self.assigned(alloc)?;
            if !self.at_word(b"phi") {
                return Ok((fitted(phis), Some(name)));
            }
            let item = self.phi(alloc, name)?;
            phis.push(item)?;
        }
        Ok((fitted(phis), None))
    }

    // ---- ends of blocks

    #[tactic(auto, unfolding(hip_grammar::specs::Bodies::target))]
    fn target(&mut self) -> Result<&'a [u8], Option<TextFault>>
        ensures { Gives (λ x. x.now) result (target.read (left self.old)) (left self.new) }
    {
        self.word(b"label")?;
        self.local()
    }

    #[tactic(auto, unfolding(hip_grammar::specs::Bodies::jump))]
    fn jump(&mut self, alloc: Global) -> Result<End, ReadError>
        ensures { Takes (λ x. x) result (jump.read (left self.old)) (left self.new) }
    {
        let label = self.target()?;
        let label = Row::from_slice(alloc, label)?;
        Ok(End::Br { label })
    }

    /// The label after a comma.
    #[tactic(auto, unfolding(hip_grammar::specs::Production::one_more_by))]
    fn next_target(&mut self, alloc: Global) -> Result<Name, ReadError>
        ensures { Takes (λ x. x) result ((one_more_by comma target).read (left self.old)) (left self.new) }
    {
        self.mark(b',')?;
        let label = self.target()?;
        Ok(Row::from_slice(alloc, label)?)
    }

    #[tactic(auto, unfolding(hip_grammar::specs::Bodies::branch))]
    fn branch(&mut self, alloc: Global) -> Result<End, ReadError>
        ensures { Takes (λ x. x) result (branch.read (left self.old)) (left self.new) }
    {
        self.word(b"i1")?;
        let cond = self.operand(alloc, Scalar::Int(Width::W1))?;
        let yes = self.next_target(alloc)?;
        let no = self.next_target(alloc)?;
        let cond = Link::new(alloc, cond)?;
        Ok(End::CondBr { cond, yes, no })
    }

    #[tactic(auto, unfolding(hip_grammar::specs::Bodies::br))]
    fn br(&mut self, alloc: Global) -> Result<End, ReadError>
        ensures { Takes (λ x. x) result (br.read (left self.old)) (left self.new) }
    {
        self.word(b"br")?;
        if self.at_word(b"label") {
            self.jump(alloc)
        } else {
            self.branch(alloc)
        }
    }

    #[tactic(auto, unfolding(hip_grammar::specs::Bodies::case))]
    fn case(&mut self, alloc: Global, width: Width) -> Result<Case, ReadError>
        ensures { Takes (λ x. x) result ((case width).read (left self.old)) (left self.new) }
    {
        self.word(width.keyword())?;
        let value = self.literal(width)?;
        let label = self.next_target(alloc)?;
        Ok(Case { value, label })
    }

    /// The cases of a switch, with their brackets.
    #[tactic(auto, using(crate::proofs::Loops::nothing_before), unfolding(hip_grammar::specs::Bodies::cases))]
    fn cases(&mut self, alloc: Global, width: Width) -> Result<Row<Case>, ReadError>
        ensures { Takes (λ x. x) result ((cases width).read (left self.old)) (left self.new) }
    {
        self.mark(b'[')?;
        let cases = self.repeated(alloc, CaseOf(width), Row::new(alloc))?;
        self.mark(b']')?;
        Ok(cases)
    }

    #[tactic(auto, unfolding(hip_grammar::specs::Bodies::switch))]
    fn switch(&mut self, alloc: Global) -> Result<End, ReadError>
        ensures { Takes (λ x. x) result (switch.read (left self.old)) (left self.new) }
    {
        self.word(b"switch")?;
        let width = self.keyword(Widths)?;
        let value = self.operand(alloc, Scalar::Int(width))?;
        let other = self.next_target(alloc)?;
        let cases = self.cases(alloc, width)?;
        Ok(End::Switch {
            width,
            value: Link::new(alloc, value)?,
            other,
            cases,
        })
    }

    #[tactic(auto, unfolding(hip_grammar::specs::Bodies::ret_end, hip_grammar::specs::Bodies::ret_void, hip_grammar::specs::Bodies::ret_arg))]
    fn ret_end(&mut self, alloc: Global) -> Result<End, ReadError>
        ensures { Takes (λ x. x) result (ret_end.read (left self.old)) (left self.new) }
    {
        self.word(b"ret")?;
        if self.at_word(b"void") {
            self.word(b"void")?;
            Ok(End::Ret(None))
        } else {
            let value = self.arg(alloc)?;
            Ok(End::Ret(Some(value)))
        }
    }

    #[tactic(auto, unfolding(hip_grammar::specs::Bodies::unreachable))]
    fn unreachable(&mut self) -> Result<End, Option<TextFault>>
        ensures { Gives (λ x. x) result (unreachable.read (left self.old)) (left self.new) }
    {
        self.word(b"unreachable")?;
        Ok(End::Unreachable)
    }

    #[tactic(auto, unfolding(hip_grammar::specs::Bodies::end))]
    fn end(&mut self, alloc: Global) -> Result<End, ReadError>
        ensures { Takes (λ x. x) result (end.read (left self.old)) (left self.new) }
    {
        if self.at_word(b"br") {
            self.br(alloc)
        } else if self.at_word(b"switch") {
            self.switch(alloc)
        } else if self.at_word(b"ret") {
            self.ret_end(alloc)
        } else {
            let end = self.unreachable()?;
            Ok(end)
        }
    }

    // ---- blocks

    #[tactic(auto, unfolding(hip_grammar::specs::Bodies::closing))]
    fn closing(
        &mut self,
        alloc: Global,
        label: Name,
        phis: Row<Phi>,
        body: Row<Instr>,
    ) -> Result<Block, ReadError>
        ensures { Takes (λ x. x) result ((closing label phis body).read (left self.old)) (left self.new) }
    {
        let end = self.end(alloc)?;
        Ok(Block {
            label,
            phis,
            body,
            end,
        })
    }

    #[tactic(auto, unfolding(hip_grammar::specs::Bodies::after_first))]
    fn after_first(
        &mut self,
        alloc: Global,
        label: Name,
        phis: Row<Phi>,
        first: Instr,
    ) -> Result<Block, ReadError>
        ensures { Takes (λ x. x) result ((after_first label phis first).read (left self.old)) (left self.new) }
    {
        let mut body = Row::new(alloc);
        body.push(first)?;
        let body = self.repeated(alloc, Instructions, body)?;
        self.closing(alloc, label, phis, body)
    }

    #[tactic(auto, unfolding(hip_grammar::specs::Bodies::after_name))]
    fn after_name(
        &mut self,
        alloc: Global,
        label: Name,
        phis: Row<Phi>,
        dest: Name,
    ) -> Result<Block, ReadError>
        ensures { Takes (λ x. x) result ((after_name label phis dest).read (left self.old)) (left self.new) }
    {
        let first = self.value_instr(alloc, dest)?;
        self.after_first(alloc, label, phis, first)
    }

    #[tactic(auto, unfolding(hip_grammar::specs::Bodies::after_phis, hip_grammar::specs::Bodies::from_effect))]
    fn after_phis(&mut self, alloc: Global, label: Name, phis: Row<Phi>) -> Result<Block, ReadError>
        ensures { Takes (λ x. x) result ((after_phis label phis).read (left self.old)) (left self.new) }
    {
        if self.at_effect() {
            let first = self.effect_instr(alloc)?;
            self.after_first(alloc, label, phis, first)
        } else {
            self.closing(alloc, label, phis, Row::new(alloc))
        }
    }

    #[tactic(auto, unfolding(hip_grammar::specs::Bodies::block))]
    pub(crate) fn block(&mut self, alloc: Global) -> Result<Block, ReadError>
        ensures { Takes (λ x. x) result (block.read (left self.old)) (left self.new) }
    {
        let label = self.label()?;
        let (phis, pending) = self.leading_phis(alloc)?;
        let label = Row::from_slice(alloc, label)?;
        match pending {
            Some(dest) => self.after_name(alloc, label, phis, dest),
            None => self.after_phis(alloc, label, phis),
        }
    }
}
