ghost use Rattle.std.specs.Prelude.{◌≡◌};
ghost use Rattle.hip_externs.specs.Externs as spec;
ghost use Rattle.hip_externs.specs.Externs.{call_of, row_of};

use hip_types::{Scalar, Width};

/// The external functions that a program may declare. A new one has to be added here, to `CALLS` and to the table.
#[derive(Clone, Copy, PartialEq, Eq)]
pub enum ExternCall {
    ReadI64,
    PrintI64,
    PmAssert,
    Clwb,
    Clflushopt,
    Clflush,
    Sfence,
    Mfence,
    PmemFlush,
    PmemPersist,
    PmemDrain,
}

/// All external functions.
pub const CALLS: [ExternCall; 11] = [
    ExternCall::ReadI64,
    ExternCall::PrintI64,
    ExternCall::PmAssert,
    ExternCall::Clwb,
    ExternCall::Clflushopt,
    ExternCall::Clflush,
    ExternCall::Sfence,
    ExternCall::Mfence,
    ExternCall::PmemFlush,
    ExternCall::PmemPersist,
    ExternCall::PmemDrain,
];

/// What an external function does to cache lines.
#[derive(Clone, Copy, PartialEq, Eq)]
pub enum LineEffect {
    Nothing,
    /// The write-back of the lines starts; they are durable at the next fence.
    Flush,
    /// What was flushed becomes durable.
    Fence,
    FlushAndFence,
}

/// What is known of an external function before it runs.
#[derive(Clone, Copy)]
pub struct ExternRow {
    pub name: &'static [u8],
    pub ret: Option<Scalar>,
    pub params: &'static [Scalar],
    pub effect: LineEffect,
}

const NUMBER: Scalar = Scalar::Int(Width::W64);

const fn procedure(name: &'static [u8], params: &'static [Scalar], effect: LineEffect) -> ExternRow
    ensures name { result.name.now ≡ name.now }
    ensures ret { result.ret ≡ None }
    ensures params { result.params.now ≡ params.now }
    ensures effect { result.effect ≡ effect }
{
    ExternRow {
        name,
        ret: None,
        params,
        effect,
    }
}

impl ExternCall {
    /// The external function of that name.
    pub fn named(name: &[u8]) -> Option<ExternCall>
        ensures { result ≡ call_of name.now }
    {
        CALLS.iter().find(|call| call.row().name == name).copied()
    }

    /// Its row of the table: its name, which no other has, its result, its parameters and its effect.
    #[tactic(auto, using(crate::specs::Laws::ExternLaws::call_of_name))]
    pub fn row(self) -> ExternRow
        ensures name { result.name.now ≡ (row_of self).name }
        ensures ret { result.ret ≡ (row_of self).ret }
        ensures params { result.params.now ≡ (row_of self).params }
        ensures effect { result.effect ≡ (row_of self).effect }
        ensures named { call_of (row_of self).name ≡ Some self }
    {
        match self {
            ExternCall::ReadI64 => ExternRow {
                name: b"read_i64",
                ret: Some(NUMBER),
                params: &[],
                effect: LineEffect::Nothing,
            },
            ExternCall::PrintI64 => procedure(b"print_i64", &[NUMBER], LineEffect::Nothing),
            ExternCall::PmAssert => {
                procedure(b"pm_assert", &[Scalar::Ptr, NUMBER], LineEffect::Nothing)
            }
            ExternCall::Clwb => procedure(b"llvm.x86.clwb", &[Scalar::Ptr], LineEffect::Flush),
            ExternCall::Clflushopt => {
                procedure(b"llvm.x86.clflushopt", &[Scalar::Ptr], LineEffect::Flush)
            }
            ExternCall::Clflush => {
                procedure(b"llvm.x86.sse2.clflush", &[Scalar::Ptr], LineEffect::Flush)
            }
            ExternCall::Sfence => procedure(b"llvm.x86.sse.sfence", &[], LineEffect::Fence),
            ExternCall::Mfence => procedure(b"llvm.x86.sse2.mfence", &[], LineEffect::Fence),
            ExternCall::PmemFlush => {
                procedure(b"pmem_flush", &[Scalar::Ptr, NUMBER], LineEffect::Flush)
            }
            ExternCall::PmemPersist => procedure(
                b"pmem_persist",
                &[Scalar::Ptr, NUMBER],
                LineEffect::FlushAndFence,
            ),
            ExternCall::PmemDrain => procedure(b"pmem_drain", &[], LineEffect::Fence),
        }
    }

    /// Whether it flushes cache lines.
    pub fn is_flush(self) -> bool
        ensures { result ≡ spec.is_flush self }
    {
        match self.row().effect {
            LineEffect::Flush | LineEffect::FlushAndFence => true,
            LineEffect::Nothing | LineEffect::Fence => false,
        }
    }

    /// Whether it takes a fence.
    pub fn is_fence(self) -> bool
        ensures { result ≡ spec.is_fence self }
    {
        match self.row().effect {
            LineEffect::Fence | LineEffect::FlushAndFence => true,
            LineEffect::Nothing | LineEffect::Flush => false,
        }
    }

    /// Whether a step that calls it is a turn: neither a flush nor a fence is one.
    pub fn is_turn(self) -> bool
        ensures { result ≡ spec.is_turn self }
    {
        !(self.is_flush() || self.is_fence())
    }
}

/// Whether some external function has the name.
pub fn is_extern_name(name: &[u8]) -> bool
    ensures { result ≡ spec.is_extern_name name.now }
{
    ExternCall::named(name).is_some()
}
