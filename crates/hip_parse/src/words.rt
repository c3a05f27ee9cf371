//! The meanings of words, which depend on their places.

ghost use Rattle.std.specs.Prelude.{◌≡◌, ℕ, List, Option};
ghost use Rattle.hip_grammar.specs.Reader.{next};
ghost use Rattle.hip_grammar.specs.Production.{token, skipped};
ghost use Rattle.hip_grammar.specs.Words.{a_word_of, is_word_of, width_word, scalar_word, ret_word, type_word, binary_word, pred_word, int_cast_word, flag_word, link_word, unnamed_word, linkage_word, target_word, fixed_word};
ghost use Rattle.hip_parse.specs.Left.{left, Gives};

use crate::parser::Parser;
use hip_grammar::{
    TextFault, binary_word, flag_word, int_cast_word, pred_word, ret_word, scalar_word, type_word,
    width_word,
};
use hip_tokens::Token;
use hip_tree::Flag;
use hip_types::{BinaryOp, CastOp, Pred, Scalar, Ty, Width};

/// The words that are allowed at one place, each with its meaning there.
pub(crate) trait Words: Copy {
    type Meaning: Drop;

    ghost meaning: { Self → List ℕ → Option Self.Meaning };

    /// What the word means; none if it is not allowed there.
    fn meaning(self, word: &[u8]) -> Option<Self::Meaning>
        ensures { result ≡ meaning self word.now };
}

impl<'a> Parser<'a> {
    /// Takes a word with a meaning.
    #[tactic(auto, unfolding(crate::specs::Left::left))]
    pub(crate) fn keyword<W: Words>(&mut self, words: W) -> Result<W::Meaning, Option<TextFault>>
        ensures { Gives (λ x. x) result ((token (a_word_of (W.meaning words))).read (left self.old)) (left self.new) }
    {
        match self.token {
            Some((Token::Word(t), _)) => match words.meaning(t) {
                Some(found) => {
                    self.advance();
                    Ok(found)
                }
                None => Err(None),
            },
            _ => Err(None),
        }
    }

    #[tactic(auto, unfolding(crate::specs::Left::left))]
    pub(crate) fn at_keyword<W: Words>(&self, words: W) -> bool
        ensures { result ≡ next (is_word_of (W.meaning words)) (left self.now) }
    {
        match self.token {
            Some((Token::Word(t), _)) => words.meaning(t).is_some(),
            _ => false,
        }
    }

    /// Takes all words with a meaning here, and keeps nothing of them.
    #[tactic(auto, unfolding(hip_grammar::specs::Production::skipped))]
    pub(crate) fn skip_keywords<W: Words>(&mut self, words: W) -> Result<(), Option<TextFault>>
        ensures { Gives (λ x. x) result
            ((skipped (is_word_of (W.meaning words)) (token (a_word_of (W.meaning words)))).read (left self.old))
            (left self.new) }
    {
        'more: while self.at_keyword(words) {
            self.keyword(words)?;
        }
        Ok(())
    }
}

/// The integer types.
#[derive(Clone, Copy)]
pub(crate) struct Widths;

impl Words for Widths {
    type Meaning = Width;

    ghost meaning = { λ _. width_word };

    fn meaning(self, word: &[u8]) -> Option<Width> {
        width_word(word)
    }
}

/// The types of registers.
#[derive(Clone, Copy)]
pub(crate) struct Scalars;

impl Words for Scalars {
    type Meaning = Scalar;

    ghost meaning = { λ _. scalar_word };

    fn meaning(self, word: &[u8]) -> Option<Scalar> {
        scalar_word(word)
    }
}

/// The types of results.
#[derive(Clone, Copy)]
pub(crate) struct Results;

impl Words for Results {
    type Meaning = Option<Scalar>;

    ghost meaning = { λ _. ret_word };

    fn meaning(self, word: &[u8]) -> Option<Option<Scalar>> {
        ret_word(word)
    }
}

/// The types that are one word.
#[derive(Clone, Copy)]
pub(crate) struct TypeWords;

impl Words for TypeWords {
    type Meaning = Ty;

    ghost meaning = { λ _. type_word };

    fn meaning(self, word: &[u8]) -> Option<Ty> {
        type_word(word)
    }
}

/// The operations on integers.
#[derive(Clone, Copy)]
pub(crate) struct BinaryOps;

impl Words for BinaryOps {
    type Meaning = BinaryOp;

    ghost meaning = { λ _. binary_word };

    fn meaning(self, word: &[u8]) -> Option<BinaryOp> {
        binary_word(word)
    }
}

/// The flags that may follow an operation.
#[derive(Clone, Copy)]
pub(crate) struct FlagsAfter(pub(crate) BinaryOp);

impl Words for FlagsAfter {
    type Meaning = Flag;

    ghost meaning = { λ s. flag_word s.0 };

    fn meaning(self, word: &[u8]) -> Option<Flag> {
        flag_word(self.0, word)
    }
}

/// The predicates of `icmp`.
#[derive(Clone, Copy)]
pub(crate) struct Preds;

impl Words for Preds {
    type Meaning = Pred;

    ghost meaning = { λ _. pred_word };

    fn meaning(self, word: &[u8]) -> Option<Pred> {
        pred_word(word)
    }
}

/// The casts from an integer type to an integer type.
#[derive(Clone, Copy)]
pub(crate) struct IntCasts;

impl Words for IntCasts {
    type Meaning = CastOp;

    ghost meaning = { λ _. int_cast_word };

    fn meaning(self, word: &[u8]) -> Option<CastOp> {
        int_cast_word(word)
    }
}

/// The words of linkage before a function's result.
#[derive(Clone, Copy)]
pub(crate) struct Links;

impl Words for Links {
    type Meaning = ();

    ghost meaning = { λ _. link_word };

    fn meaning(self, word: &[u8]) -> Option<()> {
        let is_link = word == b"private".as_slice()
            || word == b"internal".as_slice()
            || word == b"dso_local".as_slice();
        if is_link { Some(()) } else { None }
    }
}

/// The words for an address that is not significant.
#[derive(Clone, Copy)]
pub(crate) struct Unnamed;

impl Words for Unnamed {
    type Meaning = ();

    ghost meaning = { λ _. unnamed_word };

    fn meaning(self, word: &[u8]) -> Option<()> {
        let is_unnamed = word == b"unnamed_addr".as_slice()
            || word == b"local_unnamed_addr".as_slice();
        if is_unnamed { Some(()) } else { None }
    }
}

/// The words of linkage before a global.
#[derive(Clone, Copy)]
pub(crate) struct Linkages;

impl Words for Linkages {
    type Meaning = ();

    ghost meaning = { λ _. linkage_word };

    fn meaning(self, word: &[u8]) -> Option<()> {
        if Links.meaning(word).is_some() {
            Some(())
        } else {
            Unnamed.meaning(word)
        }
    }
}

/// What a text may state of the target.
#[derive(Clone, Copy)]
pub(crate) struct TargetWords;

impl Words for TargetWords {
    type Meaning = ();

    ghost meaning = { λ _. target_word };

    fn meaning(self, word: &[u8]) -> Option<()> {
        let is_target = word == b"triple".as_slice() || word == b"datalayout".as_slice();
        if is_target { Some(()) } else { None }
    }
}

/// Whether a global is a `constant`.
#[derive(Clone, Copy)]
pub(crate) struct Fixed;

impl Words for Fixed {
    type Meaning = bool;

    ghost meaning = { λ _. fixed_word };

    fn meaning(self, word: &[u8]) -> Option<bool> {
        if word == b"global".as_slice() {
            Some(false)
        } else if word == b"constant".as_slice() {
            Some(true)
        } else {
            None
        }
    }
}
