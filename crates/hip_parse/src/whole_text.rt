//! The program of a text.

ghost use Rattle.std.specs.Prelude.{◌≡◌, [], IfOk, IfErr, IsTrue, ◌↔◌, Option};
ghost use Rattle.hip_grammar.specs.declared.fault.TextFault.{TextFault};
ghost use Rattle.hip_tree.specs.declared.program.Program.{Program};
ghost use Rattle.hip_grammar.specs.ReadTexts.{Reads, IsSpelled, line_at};
ghost use Rattle.hip_grammar.specs.Laws.TextExact.{whole_text, fault_at};
ghost use Rattle.hip_grammar.specs.Unsupported.{usual};
ghost use Rattle.hip_parse.specs.Left.{left, Takes};
ghost use Rattle.hip_grammar.specs.Refusals.{IsCause, GivesProgram, refusal_of};

use crate::error::ReadError;
use crate::parser::Parser;
use crate::unsupported::is_unsupported;
use hip_grammar::{ParseRefusal, TextFault};
use hip_tokens::last_line;
use hip_tree::Program;
use std::alloc::Global;

impl<'a> Parser<'a> {
    /// The line of the next token, or of the text's last byte.
    #[tactic(auto, unfolding(crate::specs::Left::left))]
    fn line(&self, text: &[u8]) -> u64
        ensures { result ≡ line_at text.now (left self.now) }
    {
        match self.token {
            Some((_, line)) => line,
            None => last_line(text),
        }
    }

    #[tactic(auto, unfolding(crate::specs::Left::left))]
    fn is_at_end(&self) -> bool
        ensures { IsTrue result ↔ left self.now ≡ [] }
    {
        self.token.is_none()
    }

    /// The fault of the next token, or of the end, if its place has no reason of its own.
    #[tactic(auto, unfolding(crate::specs::Left::left))]
    fn usual(&self) -> TextFault
        ensures { result ≡ usual (left self.now) }
    {
        match &self.token {
            Some((token, _)) => {
                if is_unsupported(token) {
                    TextFault::Unsupported
                } else {
                    TextFault::Syntax
                }
            }
            None => TextFault::Syntax,
        }
    }

    fn fault(&self, why: Option<TextFault>) -> TextFault
        ensures { result ≡ fault_at why (left self.now) }
    {
        match why {
            Some(fault) => fault,
            None => self.usual(),
        }
    }

    #[tactic(auto, unfolding(hip_grammar::specs::Laws::TextExact::whole_text))]
    fn whole(&mut self, alloc: Global) -> Result<Program, ReadError>
        ensures { Takes (λ x. x) result (whole_text (left self.old)) (left self.new) }
    {
        let program = self.program(alloc)?;
        if self.is_at_end() {
            Ok(program)
        } else {
            Err(ReadError::Refused(None))
        }
    }
}

fn refusal(fault: TextFault, line: u64) -> ParseRefusal
    ensures { result ≡ refusal_of fault line }
{
    match fault {
        TextFault::Syntax => ParseRefusal::Syntax { line },
        TextFault::Unsupported => ParseRefusal::Unsupported { line },
        TextFault::Range => ParseRefusal::Range { line },
        TextFault::TooDeep => ParseRefusal::TooDeep { line },
    }
}

/// The program that the text reads as.
///
/// It reads in one pass with one token of look-ahead, in time and memory linear in the text. Recursion is bounded by
/// the limits of nesting.
pub fn parse(alloc: Global, text: &[u8]) -> Result<Program, ParseRefusal>
    // The answer is what the text reads as.
    ensures read { IfOk result (λ program. Reads text.now program) }
    // It is also what its canonical text reads as.
    ensures spelled { IfOk result (λ program. IsSpelled program) }
    // If the text reads as a program, the answer is this program, unless memory runs out.
    ensures only { (program : Program) → Reads text.now program → GivesProgram result program }
    // Each refusal has its cause.
    ensures refused { IfErr result (λ e. IsCause text.now e) }
{
    let mut parser = Parser::new(text);
    match parser.whole(alloc) {
        Ok(program) => Ok(program),
        Err(ReadError::Memory) => Err(ParseRefusal::NoMemory),
        Err(ReadError::Refused(why)) => Err(refusal(parser.fault(why), parser.line(text))),
    }
}
