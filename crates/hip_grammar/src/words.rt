//! The words of types, operations, predicates, casts and flags.

ghost use Rattle.std.specs.Prelude.{◌≡◌, ℕ, List};
ghost use Rattle.hip_grammar.specs.Words.{written_as, width_text, width_word, scalar_text, scalar_word, ret_text, ret_word, type_of, type_word, binary_text, binary_word, pred_text, pred_word, cast_text, int_cast_word, flag_text, may_wrap, may_be_exact, flag_word};

use hip_tree::Flag;
use hip_types::{BinaryOp, CastOp, Pred, Scalar, Ty, Width};

/// A value that is written as one word.
pub trait Keyword: Copy {
    ghost text: { Self → List ℕ };

    /// The word.
    fn keyword(self) -> &'static [u8]
        ensures { result.now ≡ text self };
}

/// The first of the values that is written as the word.
fn written_as<T: Keyword>(values: &[T], word: &[u8]) -> Option<T>
    ensures { result ≡ written_as T.text values.now word.now }
{
    'each_value: for value in values {
        if word == (*value).keyword() {
            return Some(*value);
        }
    }
    None
}

// ---- types

impl Keyword for Width {
    ghost text = { width_text };

    fn keyword(self) -> &'static [u8] {
        match self {
            Width::W1 => b"i1".as_slice(),
            Width::W8 => b"i8".as_slice(),
            Width::W16 => b"i16".as_slice(),
            Width::W32 => b"i32".as_slice(),
            Width::W64 => b"i64".as_slice(),
        }
    }
}

impl Keyword for Scalar {
    ghost text = { scalar_text };

    fn keyword(self) -> &'static [u8] {
        match self {
            Scalar::Int(width) => width.keyword(),
            Scalar::Ptr => b"ptr".as_slice(),
        }
    }
}

const WIDTHS: [Width; 5] = [Width::W1, Width::W8, Width::W16, Width::W32, Width::W64];

/// The integer type that the word names.
pub fn width_word(word: &[u8]) -> Option<Width>
    ensures { result ≡ width_word word.now }
{
    written_as(WIDTHS.as_slice(), word)
}

/// The type of a register's value that the word names.
pub fn scalar_word(word: &[u8]) -> Option<Scalar>
    ensures { result ≡ scalar_word word.now }
{
    if word == b"ptr".as_slice() {
        return Some(Scalar::Ptr);
    }
    match width_word(word) {
        Some(width) => Some(Scalar::Int(width)),
        None => None,
    }
}

/// The type of a result that the word names, where `void` names no result; none for any other word.
pub fn ret_word(word: &[u8]) -> Option<Option<Scalar>>
    ensures { result ≡ ret_word word.now }
{
    if word == b"void".as_slice() {
        return Some(None);
    }
    match scalar_word(word) {
        Some(scalar) => Some(Some(scalar)),
        None => None,
    }
}

/// How the type of a result is written; `void` for none.
pub fn ret_text(ret: Option<Scalar>) -> &'static [u8]
    ensures { result.now ≡ ret_text ret }
{
    match ret {
        None => b"void".as_slice(),
        Some(scalar) => scalar.keyword(),
    }
}

/// The type in memory of a register's value.
pub fn type_of(scalar: Scalar) -> Ty
    ensures { result ≡ type_of scalar }
{
    match scalar {
        Scalar::Int(width) => Ty::Int(width),
        Scalar::Ptr => Ty::Ptr,
    }
}

/// The type that the word names alone.
pub fn type_word(word: &[u8]) -> Option<Ty>
    ensures { result ≡ type_word word.now }
{
    match scalar_word(word) {
        Some(scalar) => Some(type_of(scalar)),
        None => None,
    }
}

// ---- operations on integers

impl Keyword for BinaryOp {
    ghost text = { binary_text };

    fn keyword(self) -> &'static [u8] {
        match self {
            BinaryOp::Add => b"add".as_slice(),
            BinaryOp::Sub => b"sub".as_slice(),
            BinaryOp::Mul => b"mul".as_slice(),
            BinaryOp::Udiv => b"udiv".as_slice(),
            BinaryOp::Sdiv => b"sdiv".as_slice(),
            BinaryOp::Urem => b"urem".as_slice(),
            BinaryOp::Srem => b"srem".as_slice(),
            BinaryOp::And => b"and".as_slice(),
            BinaryOp::Or => b"or".as_slice(),
            BinaryOp::Xor => b"xor".as_slice(),
            BinaryOp::Shl => b"shl".as_slice(),
            BinaryOp::Lshr => b"lshr".as_slice(),
            BinaryOp::Ashr => b"ashr".as_slice(),
        }
    }
}

const BINARY_OPS: [BinaryOp; 13] = [
    BinaryOp::Add,
    BinaryOp::Sub,
    BinaryOp::Mul,
    BinaryOp::Udiv,
    BinaryOp::Sdiv,
    BinaryOp::Urem,
    BinaryOp::Srem,
    BinaryOp::And,
    BinaryOp::Or,
    BinaryOp::Xor,
    BinaryOp::Shl,
    BinaryOp::Lshr,
    BinaryOp::Ashr,
];

/// The operation that the word names.
pub fn binary_word(word: &[u8]) -> Option<BinaryOp>
    ensures { result ≡ binary_word word.now }
{
    written_as(BINARY_OPS.as_slice(), word)
}

impl Keyword for Pred {
    ghost text = { pred_text };

    fn keyword(self) -> &'static [u8] {
        match self {
            Pred::Eq => b"eq".as_slice(),
            Pred::Ne => b"ne".as_slice(),
            Pred::Ugt => b"ugt".as_slice(),
            Pred::Uge => b"uge".as_slice(),
            Pred::Ult => b"ult".as_slice(),
            Pred::Ule => b"ule".as_slice(),
            Pred::Sgt => b"sgt".as_slice(),
            Pred::Sge => b"sge".as_slice(),
            Pred::Slt => b"slt".as_slice(),
            Pred::Sle => b"sle".as_slice(),
        }
    }
}

const PREDS: [Pred; 10] = [
    Pred::Eq,
    Pred::Ne,
    Pred::Ugt,
    Pred::Uge,
    Pred::Ult,
    Pred::Ule,
    Pred::Sgt,
    Pred::Sge,
    Pred::Slt,
    Pred::Sle,
];

/// The predicate of `icmp` that the word names.
pub fn pred_word(word: &[u8]) -> Option<Pred>
    ensures { result ≡ pred_word word.now }
{
    written_as(PREDS.as_slice(), word)
}

impl Keyword for CastOp {
    ghost text = { cast_text };

    fn keyword(self) -> &'static [u8] {
        match self {
            CastOp::Zext => b"zext".as_slice(),
            CastOp::Sext => b"sext".as_slice(),
            CastOp::Trunc => b"trunc".as_slice(),
            CastOp::Ptrtoint => b"ptrtoint".as_slice(),
            CastOp::Inttoptr => b"inttoptr".as_slice(),
        }
    }
}

const INT_CASTS: [CastOp; 3] = [CastOp::Zext, CastOp::Sext, CastOp::Trunc];

/// The cast from an integer type to an integer type that the word names.
pub fn int_cast_word(word: &[u8]) -> Option<CastOp>
    ensures { result ≡ int_cast_word word.now }
{
    written_as(INT_CASTS.as_slice(), word)
}

// ---- flags of operations on integers

impl Keyword for Flag {
    ghost text = { flag_text };

    fn keyword(self) -> &'static [u8] {
        match self {
            Flag::Nuw => b"nuw".as_slice(),
            Flag::Nsw => b"nsw".as_slice(),
            Flag::Exact => b"exact".as_slice(),
        }
    }
}

/// Whether the operation may have `nuw` and `nsw`.
pub fn may_wrap(op: BinaryOp) -> bool
    ensures { result ≡ may_wrap op }
{
    match op {
        BinaryOp::Add | BinaryOp::Sub | BinaryOp::Mul | BinaryOp::Shl => true,
        _ => false,
    }
}

/// Whether the operation may have `exact`.
pub fn may_be_exact(op: BinaryOp) -> bool
    ensures { result ≡ may_be_exact op }
{
    match op {
        BinaryOp::Udiv | BinaryOp::Sdiv | BinaryOp::Lshr | BinaryOp::Ashr => true,
        _ => false,
    }
}

const WRAP_FLAGS: [Flag; 2] = [Flag::Nuw, Flag::Nsw];

const EXACT_FLAGS: [Flag; 1] = [Flag::Exact];

/// The flag that the word names, if the operation may have it.
pub fn flag_word(op: BinaryOp, word: &[u8]) -> Option<Flag>
    ensures { result ≡ flag_word op word.now }
{
    if may_wrap(op) {
        written_as(WRAP_FLAGS.as_slice(), word)
    } else if may_be_exact(op) {
        written_as(EXACT_FLAGS.as_slice(), word)
    } else {
        None
    }
}
