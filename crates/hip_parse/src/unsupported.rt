//! Tokens of LLVM's text that belong to forms which are not read.

ghost use Rattle.std.specs.Prelude.{◌≡◌};
ghost use Rattle.std.specs.List.{list_all};
ghost use Rattle.std.specs.Str.{bytes_eq};
ghost use Rattle.hip_tokens.specs.Bytes.{is_digit};
ghost use Rattle.hip_tokens.specs.Seen.{seen};
ghost use Rattle.hip_grammar.specs.Unsupported.{is_int_name, one_of, type_words, other_type_words, constant_words, float_words, cast_words, aggregate_words, memory_words, control_words, call_words, linkage_words, flag_words, attribute_words, function_words, is_unsupported_word, is_unsupported_byte, is_unsupported};

use hip_tokens::{Token, is_digit};

fn are_digits(t: &[u8]) -> bool
    ensures { result ≡ list_all is_digit t.now }
{
    t.iter().all(|d| is_digit(*d))
}

fn is_int_name(t: &[u8]) -> bool
    ensures { result ≡ is_int_name t.now }
{
    match t.split_first() {
        None => false,
        Some((a, rest)) => !rest.is_empty() && *a == b'i' && are_digits(rest),
    }
}

fn is_word(t: &[u8], word: &[u8]) -> bool
    ensures { result ≡ bytes_eq t.now word.now }
{
    t == word
}

fn is_type(t: &[u8]) -> bool
    ensures { result ≡ one_of type_words t.now }
{
    is_word(t, b"half")
        || is_word(t, b"bfloat")
        || is_word(t, b"float")
        || is_word(t, b"double")
        || is_word(t, b"fp128")
        || is_word(t, b"x86_fp80")
        || is_word(t, b"ppc_fp128")
}

fn is_other_type(t: &[u8]) -> bool
    ensures { result ≡ one_of other_type_words t.now }
{
    is_word(t, b"metadata")
        || is_word(t, b"label")
        || is_word(t, b"token")
        || is_word(t, b"vector")
        || is_word(t, b"opaque")
        || is_word(t, b"type")
}

fn is_constant(t: &[u8]) -> bool
    ensures { result ≡ one_of constant_words t.now }
{
    is_word(t, b"undef")
        || is_word(t, b"poison")
        || is_word(t, b"freeze")
        || is_word(t, b"c")
        || is_word(t, b"none")
}

fn is_float_operation(t: &[u8]) -> bool
    ensures { result ≡ one_of float_words t.now }
{
    is_word(t, b"fadd")
        || is_word(t, b"fsub")
        || is_word(t, b"fmul")
        || is_word(t, b"fdiv")
        || is_word(t, b"frem")
        || is_word(t, b"fneg")
        || is_word(t, b"fcmp")
}

fn is_cast(t: &[u8]) -> bool
    ensures { result ≡ one_of cast_words t.now }
{
    is_word(t, b"fptoui")
        || is_word(t, b"fptosi")
        || is_word(t, b"uitofp")
        || is_word(t, b"sitofp")
        || is_word(t, b"fpext")
        || is_word(t, b"fptrunc")
        || is_word(t, b"bitcast")
        || is_word(t, b"addrspacecast")
}

fn is_aggregate_operation(t: &[u8]) -> bool
    ensures { result ≡ one_of aggregate_words t.now }
{
    is_word(t, b"extractelement")
        || is_word(t, b"insertelement")
        || is_word(t, b"shufflevector")
        || is_word(t, b"extractvalue")
        || is_word(t, b"insertvalue")
}

fn is_memory_operation(t: &[u8]) -> bool
    ensures { result ≡ one_of memory_words t.now }
{
    is_word(t, b"atomicrmw")
        || is_word(t, b"cmpxchg")
        || is_word(t, b"fence")
        || is_word(t, b"atomic")
        || is_word(t, b"volatile")
}

fn is_control(t: &[u8]) -> bool
    ensures { result ≡ one_of control_words t.now }
{
    is_word(t, b"invoke")
        || is_word(t, b"resume")
        || is_word(t, b"landingpad")
        || is_word(t, b"catchswitch")
        || is_word(t, b"cleanupret")
        || is_word(t, b"callbr")
        || is_word(t, b"indirectbr")
        || is_word(t, b"va_arg")
}

fn is_call_or_module(t: &[u8]) -> bool
    ensures { result ≡ one_of call_words t.now }
{
    is_word(t, b"asm")
        || is_word(t, b"musttail")
        || is_word(t, b"notail")
        || is_word(t, b"attributes")
        || is_word(t, b"module")
        || is_word(t, b"comdat")
        || is_word(t, b"alias")
        || is_word(t, b"ifunc")
}

fn is_linkage(t: &[u8]) -> bool
    ensures { result ≡ one_of linkage_words t.now }
{
    is_word(t, b"external")
        || is_word(t, b"extern_weak")
        || is_word(t, b"weak")
        || is_word(t, b"linkonce")
        || is_word(t, b"common")
        || is_word(t, b"thread_local")
        || is_word(t, b"addrspace")
}

fn is_flag(t: &[u8]) -> bool
    ensures { result ≡ one_of flag_words t.now }
{
    is_word(t, b"disjoint") || is_word(t, b"nneg") || is_word(t, b"samesign") || is_word(t, b"nusw")
}

fn is_attribute(t: &[u8]) -> bool
    ensures { result ≡ one_of attribute_words t.now }
{
    is_word(t, b"noundef")
        || is_word(t, b"nonnull")
        || is_word(t, b"nocapture")
        || is_word(t, b"readonly")
        || is_word(t, b"writeonly")
        || is_word(t, b"nounwind")
}

fn is_function_attribute(t: &[u8]) -> bool
    ensures { result ≡ one_of function_words t.now }
{
    is_word(t, b"noinline")
        || is_word(t, b"alwaysinline")
        || is_word(t, b"optnone")
        || is_word(t, b"uselistorder")
}

fn is_unsupported_word(t: &[u8]) -> bool
    ensures { result ≡ is_unsupported_word t.now }
{
    is_int_name(t)
        || is_type(t)
        || is_other_type(t)
        || is_constant(t)
        || is_float_operation(t)
        || is_cast(t)
        || is_aggregate_operation(t)
        || is_memory_operation(t)
        || is_control(t)
        || is_call_or_module(t)
        || is_linkage(t)
        || is_flag(t)
        || is_attribute(t)
        || is_function_attribute(t)
}

fn is_unsupported_byte(b: u8) -> bool
    ensures { result ≡ is_unsupported_byte b }
{
    matches!(b, b'!' | b'#' | b'<' | b'*' | b'%' | b'@')
}

pub(crate) fn is_unsupported(token: &Token) -> bool
    ensures { result ≡ is_unsupported (seen token.now) }
{
    match token {
        Token::Word(t) => is_unsupported_word(t),
        Token::Odd(b) => is_unsupported_byte(*b),
        _ => false,
    }
}
