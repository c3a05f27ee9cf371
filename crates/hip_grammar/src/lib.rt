//! The words and the grammar of the text form, which text reads as which tree, and the canonical text, as definitions
//! with their laws; productions and their readings, for any language; the tables of words.
#![tactic(auto)]

mod fault;
mod refusal;
mod words;

pub use fault::TextFault;
pub use refusal::ParseRefusal;
pub use words::{
    Keyword, binary_word, flag_word, int_cast_word, may_be_exact, may_wrap, pred_word, ret_text,
    ret_word, scalar_word, type_of, type_word, width_word,
};
