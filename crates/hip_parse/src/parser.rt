//! A parser with one token of look-ahead.

ghost use Rattle.std.specs.Prelude.{◌≡◌};
ghost use Rattle.hip_tokens.specs.Tokens.{tokens};
ghost use Rattle.hip_grammar.specs.Reader.{next};
ghost use Rattle.hip_grammar.specs.Production.{token};
ghost use Rattle.hip_grammar.specs.Grammar.{word, mark, maybe_word};
ghost use Rattle.hip_grammar.specs.Words.{is_word, is_mark, is_local, is_global, is_label, a_local, a_global, a_label, a_string, a_section};
ghost use Rattle.hip_parse.specs.Left.{left, tail, Gives};

use hip_grammar::TextFault;
use hip_tokens::{Lexer, Token};

#[derive(Drop)]
pub(crate) struct Parser<'a> {
    lexer: Lexer<'a>,
    pub(crate) token: Option<(Token<'a>, u64)>,
}

impl<'a> Parser<'a> {
    #[tactic(auto, unfolding(crate::specs::Left::left))]
    pub(crate) fn new(text: &'a [u8]) -> Parser<'a>
        ensures { left result ≡ tokens text.now }
    {
        let mut lexer = Lexer::new(text);
        let token = lexer.next_token();
        Parser { lexer, token }
    }

    #[tactic(auto, unfolding(crate::specs::Left::left))]
    pub(crate) fn advance(&mut self)
        ensures { left self.new ≡ tail (left self.old) }
    {
        if self.token.is_some() {
            self.token = self.lexer.next_token();
        }
    }

    #[tactic(auto, unfolding(crate::specs::Left::left))]
    pub(crate) fn at_mark(&self, b: u8) -> bool
        ensures { result ≡ next (is_mark b) (left self.now) }
    {
        match self.token {
            Some((Token::Punctuation(c), _)) => c == b,
            _ => false,
        }
    }

    #[tactic(auto, unfolding(crate::specs::Left::left))]
    pub(crate) fn at_word(&self, w: &[u8]) -> bool
        ensures { result ≡ next (is_word w.now) (left self.now) }
    {
        match self.token {
            Some((Token::Word(t), _)) => t == w,
            _ => false,
        }
    }

    #[tactic(auto, unfolding(crate::specs::Left::left))]
    pub(crate) fn at_local(&self) -> bool
        ensures { result ≡ next is_local (left self.now) }
    {
        matches!(self.token, Some((Token::Local(_), _)))
    }

    #[tactic(auto, unfolding(crate::specs::Left::left))]
    pub(crate) fn at_global(&self) -> bool
        ensures { result ≡ next is_global (left self.now) }
    {
        matches!(self.token, Some((Token::Global(_), _)))
    }

    #[tactic(auto, unfolding(crate::specs::Left::left))]
    pub(crate) fn at_label(&self) -> bool
        ensures { result ≡ next is_label (left self.now) }
    {
        matches!(self.token, Some((Token::Label(_), _)))
    }

    #[tactic(auto, unfolding(crate::specs::Left::left))]
    pub(crate) fn mark(&mut self, b: u8) -> Result<(), Option<TextFault>>
        ensures { Gives (λ x. x) result ((mark b).read (left self.old)) (left self.new) }
    {
        if !self.at_mark(b) {
            return Err(None);
        }
        self.advance();
        Ok(())
    }

    #[tactic(auto, unfolding(crate::specs::Left::left))]
    pub(crate) fn word(&mut self, w: &[u8]) -> Result<(), Option<TextFault>>
        ensures { Gives (λ x. x) result ((word w.now).read (left self.old)) (left self.new) }
    {
        if !self.at_word(w) {
            return Err(None);
        }
        self.advance();
        Ok(())
    }

    /// Whether the word was here.
    #[tactic(auto, unfolding(hip_grammar::specs::Grammar::maybe_word))]
    pub(crate) fn maybe_word(&mut self, w: &[u8]) -> Result<bool, Option<TextFault>>
        ensures { Gives (λ x. x) result ((maybe_word w.now).read (left self.old)) (left self.new) }
    {
        if self.at_word(w) {
            self.word(w)?;
            Ok(true)
        } else {
            Ok(false)
        }
    }

    #[tactic(auto, unfolding(crate::specs::Left::left))]
    pub(crate) fn local(&mut self) -> Result<&'a [u8], Option<TextFault>>
        ensures { Gives (λ x. x.now) result ((token a_local).read (left self.old)) (left self.new) }
    {
        match self.token {
            Some((Token::Local(t), _)) => {
                self.advance();
                Ok(t)
            }
            _ => Err(None),
        }
    }

    #[tactic(auto, unfolding(crate::specs::Left::left))]
    pub(crate) fn global_name(&mut self) -> Result<&'a [u8], Option<TextFault>>
        ensures { Gives (λ x. x.now) result ((token a_global).read (left self.old)) (left self.new) }
    {
        match self.token {
            Some((Token::Global(t), _)) => {
                self.advance();
                Ok(t)
            }
            _ => Err(None),
        }
    }

    #[tactic(auto, unfolding(crate::specs::Left::left))]
    pub(crate) fn label(&mut self) -> Result<&'a [u8], Option<TextFault>>
        ensures { Gives (λ x. x.now) result ((token a_label).read (left self.old)) (left self.new) }
    {
        match self.token {
            Some((Token::Label(t), _)) => {
                self.advance();
                Ok(t)
            }
            _ => Err(None),
        }
    }

    #[tactic(auto, unfolding(crate::specs::Left::left))]
    pub(crate) fn string(&mut self) -> Result<&'a [u8], Option<TextFault>>
        ensures { Gives (λ x. x.now) result ((token a_string).read (left self.old)) (left self.new) }
    {
        match self.token {
            Some((Token::Str(t), _)) => {
                self.advance();
                Ok(t)
            }
            _ => Err(None),
        }
    }

    /// The string after `section`.
    #[tactic(auto, unfolding(crate::specs::Left::left))]
    pub(crate) fn section_name(&mut self) -> Result<(), Option<TextFault>>
        ensures { Gives (λ x. x) result ((token a_section).read (left self.old)) (left self.new) }
    {
        match self.token {
            Some((Token::Str(t), _)) => {
                if t == b".pm".as_slice() {
                    self.advance();
                    Ok(())
                } else {
                    Err(Some(TextFault::Unsupported))
                }
            }
            _ => Err(None),
        }
    }
}
