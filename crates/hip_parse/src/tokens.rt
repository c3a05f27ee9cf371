//! The values of the numbers in a text, which depend on their places.

ghost use Rattle.std.specs.Prelude.{◌≡◌};
ghost use Rattle.hip_grammar.specs.Production.{token};
ghost use Rattle.hip_grammar.specs.Numbers.{a_literal, an_int_const, a_count, an_alignment, truth_word};
ghost use Rattle.hip_parse.specs.Left.{left, Gives};

use crate::numbers::{alignment_of, count_of, value_of};
use crate::parser::Parser;
use hip_grammar::TextFault;
use hip_tokens::Token;
use hip_tree::Const;
use hip_types::{Bits, Width};

fn truth_word(width: Width, t: &[u8]) -> Option<Bits>
    ensures { result ≡ truth_word width t.now }
{
    match width {
        Width::W1 => {
            if t == b"true".as_slice() {
                Some(Bits::new(Width::W1, 1))
            } else if t == b"false".as_slice() {
                Some(Bits::new(Width::W1, 0))
            } else {
                None
            }
        }
        Width::W8 => None,
        Width::W16 => None,
        Width::W32 => None,
        Width::W64 => None,
    }
}

impl<'a> Parser<'a> {
    #[tactic(auto, unfolding(crate::specs::Left::left))]
    pub(crate) fn count(&mut self) -> Result<u64, Option<TextFault>>
        ensures { Gives (λ x. x) result ((token a_count).read (left self.old)) (left self.new) }
    {
        match self.token {
            Some((Token::Num(t), _)) => match count_of(t) {
                Some(n) => {
                    self.advance();
                    Ok(n)
                }
                None => Err(Some(TextFault::Range)),
            },
            _ => Err(None),
        }
    }

    #[tactic(auto, unfolding(crate::specs::Left::left))]
    pub(crate) fn alignment(&mut self) -> Result<u64, Option<TextFault>>
        ensures { Gives (λ x. x) result ((token an_alignment).read (left self.old)) (left self.new) }
    {
        match self.token {
            Some((Token::Num(t), _)) => match alignment_of(t) {
                Some(n) => {
                    self.advance();
                    Ok(n)
                }
                None => Err(Some(TextFault::Range)),
            },
            _ => Err(None),
        }
    }

    /// A number, or `true` or `false` of one bit.
    #[tactic(auto, unfolding(crate::specs::Left::left))]
    pub(crate) fn literal(&mut self, width: Width) -> Result<Bits, Option<TextFault>>
        ensures { Gives (λ x. x) result ((token (a_literal width)).read (left self.old)) (left self.new) }
    {
        match self.token {
            Some((Token::Num(t), _)) => match value_of(width, t) {
                Some(n) => {
                    self.advance();
                    Ok(Bits::new(width, n))
                }
                None => Err(Some(TextFault::Range)),
            },
            Some((Token::Word(t), _)) => match truth_word(width, t) {
                Some(bits) => {
                    self.advance();
                    Ok(bits)
                }
                None => Err(None),
            },
            _ => Err(None),
        }
    }

    /// A constant under an integer type.
    #[tactic(auto, using(crate::proofs::Consts::zero_here, crate::proofs::Consts::literal_here, crate::proofs::Consts::refused_here))]
    pub(crate) fn int_const(&mut self, width: Width) -> Result<Const, Option<TextFault>>
        ensures { Gives (λ x. x) result ((token (an_int_const width)).read (left self.old)) (left self.new) }
    {
        if self.at_word(b"zeroinitializer") {
            self.advance();
            return Ok(Const::Zero);
        }
        match self.literal(width) {
            Ok(bits) => Ok(Const::Int(bits)),
            Err(why) => Err(why),
        }
    }
}
