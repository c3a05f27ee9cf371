//! Which trees some text reads as. The rules are those of the grammar that the types of the tree leave open.

ghost use Rattle.std.specs.Prelude.{◌≡◌, ◌&&◌, ◌↔◌, ℕ, Bool, List, IsTrue};
ghost use Rattle.std.specs.List.{list_all};
ghost use Rattle.hip_types.specs.declared.number.Scalar.TheVariants.{Int, Ptr};
ghost use Rattle.hip_types.specs.declared.number.Width.TheVariants.{W1};
ghost use Rattle.hip_types.specs.declared.ty.Ty.{out-Ty};
ghost use Rattle.hip_tree.specs.declared.constant.Const.{out-Const};
ghost use Rattle.hip_grammar.specs.ReadTexts.{Reads, IsSpelled};
ghost use Rattle.hip_grammar.specs.Spelling.{not_empty, spelled_align, spelled_flat, spelled_type, spelled_type_within, of_width, spelled_gep, spelled_pointer_within, spelled_int, spelled_item, spelled_const_within, spelled_scalar_const, spelled_operand, spelled_arg, is_int_type, spelled_index, spelled_flags, spelled_cast, spelled_result, spelled_memory_instr, spelled_instr, spelled_edge, spelled_phi, spelled_case, spelled_end, spelled_block, spelled_global, spelled_extern, spelled_param, spelled_function, spelled_program};

use hip_grammar::{may_be_exact, may_wrap};
use hip_tokens::is_name;
use hip_tree::{
    Arg, Block, Case, Const, ConstGep, Edge, End, Extern, Flags, Function, GlobalVar, Instr,
    Operand, Param, Phi, Program, TypedConst,
};
use hip_types::{
    BinaryOp, Bits, CastOp, DEEPEST_NESTING, LARGEST_ALIGNMENT, LARGEST_COUNT, Name, Scalar, Ty,
    Width,
};

/// A part of a tree with a rule of the grammar that its type leaves open.
trait KeepsRules {
    ghost test: { Self → Bool };

    /// Whether it keeps to the rules.
    fn keeps_rules(&self) -> bool
        ensures { result ≡ test self.now };
}

/// Whether each of the parts keeps to the rules.
fn all_keep_rules<T: KeepsRules>(parts: &[T]) -> bool
    ensures { result ≡ list_all T.test parts.now }
{
    'each: for part in parts {
        if !part.keeps_rules() {
            return false;
        }
    }
    true
}

fn not_empty<T>(items: &[T]) -> bool
    ensures { result ≡ not_empty items.now }
{
    items.first().is_some()
}

fn spelled_align(align: &Option<u64>) -> bool
    ensures { result ≡ spelled_align align.now }
{
    match align {
        Some(bytes) => *bytes != 0 && LARGEST_ALIGNMENT % *bytes == 0,
        None => true,
    }
}

// ---- types

fn spelled_flat(ty: &Ty) -> bool
    ensures { result ≡ spelled_flat (out-Ty ty.now) }
{
    match ty {
        Ty::Int(_) | Ty::Ptr => true,
        Ty::Array(_, _) | Ty::Struct(_) => false,
    }
}

/// Whether the type is nested at most `depth` deep, with arrays that are short enough.
#[cycle(types)]
#[tactic(auto, unfolding(hip_grammar::specs::Spelling::spelled_type_within))]
fn spelled_type_within(depth: u64, ty: &Ty) -> bool
    ensures { result ≡ spelled_type_within depth ty.now }
{
    if depth == 0 {
        return spelled_flat(ty);
    }
    match ty {
        Ty::Int(_) | Ty::Ptr => true,
        Ty::Array(count, element) => {
            *count <= LARGEST_COUNT && spelled_type_within(depth - 1, element.get())
        }
        Ty::Struct(fields) => spelled_fields_within(depth - 1, fields.as_slice()),
    }
}

#[cycle(types)]
fn spelled_fields_within(depth: u64, fields: &[Ty]) -> bool
    ensures { result ≡ list_all (spelled_type_within depth) fields.now }
{
    'fields: for field in fields {
        if !spelled_type_within(depth, field) {
            return false;
        }
    }
    true
}

// ---- constants

fn of_width(width: Width, value: Bits) -> bool
    ensures { result ≡ of_width width value }
{
    value.width.bits() == width.bits()
}

/// Whether the constant is allowed under an integer type.
fn spelled_int(width: Width, value: &Const) -> bool
    ensures { result ≡ spelled_int width (out-Const value.now) }
{
    match value {
        Const::Int(bits) => of_width(width, *bits),
        Const::Zero => true,
        _ => false,
    }
}

/// Whether the constant is allowed under `ptr`, with at most `depth` nested `getelementptr`.
#[cycle(pointers)]
#[tactic(auto, unfolding(hip_grammar::specs::Spelling::spelled_pointer_within))]
fn spelled_pointer_within(depth: u64, value: &Const) -> bool
    ensures { result ≡ spelled_pointer_within depth value.now }
{
    match value {
        Const::Null | Const::Zero => true,
        Const::Address(name) => is_name(name.as_slice()),
        Const::Gep(gep) => depth != 0 && spelled_gep(depth - 1, gep.get()),
        _ => false,
    }
}

#[cycle(pointers)]
fn spelled_gep(depth: u64, gep: &ConstGep) -> bool
    ensures { result ≡ spelled_gep (spelled_pointer_within depth) gep.now }
{
    spelled_type_within(DEEPEST_NESTING, &gep.ty)
        && spelled_pointer_within(depth, &gep.base)
        && not_empty(gep.indices.as_slice())
}

/// Whether the constant is allowed under the type, with lists nested at most `depth` deep.
#[cycle(constants)]
#[tactic(auto, unfolding(hip_grammar::specs::Spelling::spelled_const_within))]
fn spelled_const_within(depth: u64, ty: &Ty, value: &Const) -> bool
    ensures { result ≡ spelled_const_within depth ty.now value.now }
{
    match (ty, value) {
        (Ty::Int(width), _) => spelled_int(*width, value),
        (Ty::Ptr, _) => spelled_pointer_within(DEEPEST_NESTING, value),
        (_, Const::Zero) => true,
        (Ty::Array(_, _), Const::Array(items)) => {
            depth != 0 && spelled_items_within(depth - 1, items.as_slice())
        }
        (Ty::Struct(_), Const::Struct(items)) => {
            depth != 0 && spelled_items_within(depth - 1, items.as_slice())
        }
        _ => false,
    }
}

#[cycle(constants)]
fn spelled_item(depth: u64, item: &TypedConst) -> bool
    ensures { result ≡ spelled_item (spelled_const_within depth) item.now }
{
    spelled_type_within(DEEPEST_NESTING, &item.ty)
        && spelled_const_within(depth, &item.ty, &item.value)
}

#[cycle(constants)]
fn spelled_items_within(depth: u64, items: &[TypedConst]) -> bool
    ensures { result ≡ list_all (spelled_item (spelled_const_within depth)) items.now }
{
    'items: for item in items {
        if !spelled_item(depth, item) {
            return false;
        }
    }
    true
}

// ---- operands

fn spelled_scalar_const(ty: Scalar, value: &Const) -> bool
    ensures { result ≡ spelled_scalar_const ty value.now }
{
    match ty {
        Scalar::Int(width) => spelled_int(width, value),
        Scalar::Ptr => spelled_pointer_within(DEEPEST_NESTING, value),
    }
}

fn spelled_operand(ty: Scalar, operand: &Operand) -> bool
    ensures { result ≡ spelled_operand ty operand.now }
{
    match operand {
        Operand::Reg(name) => is_name(name.as_slice()),
        Operand::Fixed(value) => spelled_scalar_const(ty, value),
    }
}

impl KeepsRules for Arg {
    ghost test = { spelled_arg };

    fn keeps_rules(&self) -> bool {
        spelled_operand(self.ty, &self.value)
    }
}

fn is_int_type(ty: Scalar) -> bool
    ensures { result ≡ is_int_type ty }
{
    match ty {
        Scalar::Int(_) => true,
        Scalar::Ptr => false,
    }
}

fn spelled_index(arg: &Arg) -> bool
    ensures { result ≡ spelled_index arg.now }
{
    is_int_type(arg.ty) && spelled_operand(arg.ty, &arg.value)
}

// ---- instructions

fn spelled_flags(op: BinaryOp, flags: Flags) -> bool
    ensures { result ≡ spelled_flags op flags }
{
    (may_wrap(op) || !(flags.nuw || flags.nsw)) && (may_be_exact(op) || !flags.exact)
}

fn spelled_cast(op: CastOp, from: Scalar, to: Scalar) -> bool
    ensures { result ≡ spelled_cast op from to }
{
    match op {
        CastOp::Zext | CastOp::Sext | CastOp::Trunc => is_int_type(from) && is_int_type(to),
        CastOp::Ptrtoint => !is_int_type(from) && is_int_type(to),
        CastOp::Inttoptr => is_int_type(from) && !is_int_type(to),
    }
}

fn spelled_result(dest: &Option<Name>) -> bool
    ensures { result ≡ spelled_result dest.now }
{
    match dest {
        Some(name) => is_name(name.as_slice()),
        None => true,
    }
}

fn spelled_indices(indices: &[Arg]) -> bool
    ensures { result ≡ list_all spelled_index indices.now }
{
    indices.iter().all(|index| spelled_index(index))
}

/// Whether the address of a load or a store, and the alignment that is written there, meet the rules.
fn spelled_access(addr: &Operand, align: &Option<u64>) -> bool
    ensures { result ≡ (spelled_operand Ptr addr.now && spelled_align align.now) }
{
    spelled_operand(Scalar::Ptr, addr) && spelled_align(align)
}

/// Whether the type that a `getelementptr` steps over, its base and its indices meet the rules.
fn spelled_element(ty: &Ty, base: &Operand, indices: &[Arg]) -> bool
    ensures { result ≡ (spelled_type ty.now && (spelled_operand Ptr base.now
        && (not_empty indices.now && list_all spelled_index indices.now))) }
{
    spelled_type_within(DEEPEST_NESTING, ty)
        && spelled_operand(Scalar::Ptr, base)
        && not_empty(indices)
        && spelled_indices(indices)
}

/// Whether the instruction is one on memory or a call, and meets the rules.
fn spelled_memory_instr(instr: &Instr) -> bool
    ensures { result ≡ spelled_memory_instr instr.now }
{
    match instr {
        Instr::Alloca { dest, ty, align } => {
            is_name(dest.as_slice())
                && spelled_type_within(DEEPEST_NESTING, ty)
                && spelled_align(align)
        }
        Instr::Load {
            dest,
            addr,
            align,
            ..
        } => is_name(dest.as_slice()) && spelled_access(addr, align),
        Instr::Store {
            ty,
            value,
            addr,
            align,
        } => spelled_operand(*ty, value) && spelled_access(addr, align),
        Instr::Gep {
            dest,
            ty,
            base,
            indices,
            ..
        } => is_name(dest.as_slice()) && spelled_element(ty, base, indices.as_slice()),
        Instr::Call {
            dest,
            callee,
            args,
            ..
        } => {
            spelled_result(dest) && is_name(callee.as_slice()) && all_keep_rules(args.as_slice())
        }
        _ => false,
    }
}

/// Whether the operand may be a test, which is of one bit.
fn spelled_test(cond: &Operand) -> bool
    ensures { result ≡ spelled_operand (Int W1) cond.now }
{
    spelled_operand(Scalar::Int(Width::W1), cond)
}

fn spelled_operands(ty: Scalar, a: &Operand, b: &Operand) -> bool
    ensures { result ≡ (spelled_operand ty a.now && spelled_operand ty b.now) }
{
    spelled_operand(ty, a) && spelled_operand(ty, b)
}

impl KeepsRules for Instr {
    ghost test = { spelled_instr };

    fn keeps_rules(&self) -> bool {
        match self {
            Instr::Binary {
                dest,
                op,
                flags,
                width,
                a,
                b,
            } => {
                is_name(dest.as_slice())
                    && spelled_flags(*op, *flags)
                    && spelled_operands(Scalar::Int(*width), a, b)
            }
            Instr::Compare { dest, ty, a, b, .. } => {
                is_name(dest.as_slice()) && spelled_operands(*ty, a, b)
            }
            Instr::Select {
                dest,
                cond,
                ty,
                a,
                b,
            } => {
                is_name(dest.as_slice()) && spelled_test(cond.get()) && spelled_operands(*ty, a, b)
            }
            Instr::Cast {
                dest,
                op,
                from,
                a,
                to,
            } => {
                is_name(dest.as_slice())
                    && spelled_cast(*op, *from, *to)
                    && spelled_operand(*from, a)
            }
            _ => spelled_memory_instr(self),
        }
    }
}

// ---- blocks

fn spelled_edge(ty: Scalar, edge: &Edge) -> bool
    ensures { result ≡ spelled_edge ty edge.now }
{
    spelled_operand(ty, &edge.value) && is_name(edge.label.as_slice())
}

fn spelled_edges(ty: Scalar, edges: &[Edge]) -> bool
    ensures { result ≡ list_all (spelled_edge ty) edges.now }
{
    edges.iter().all(|edge| spelled_edge(ty, edge))
}

impl KeepsRules for Phi {
    ghost test = { spelled_phi };

    fn keeps_rules(&self) -> bool {
        is_name(self.dest.as_slice())
            && not_empty(self.edges.as_slice())
            && spelled_edges(self.ty, self.edges.as_slice())
    }
}

fn spelled_case(width: Width, case: &Case) -> bool
    ensures { result ≡ spelled_case width case.now }
{
    of_width(width, case.value) && is_name(case.label.as_slice())
}

fn spelled_cases(width: Width, cases: &[Case]) -> bool
    ensures { result ≡ list_all (spelled_case width) cases.now }
{
    cases.iter().all(|case| spelled_case(width, case))
}

fn spelled_end(end: &End) -> bool
    ensures { result ≡ spelled_end end.now }
{
    match end {
        End::Br { label } => is_name(label.as_slice()),
        End::CondBr { cond, yes, no } => {
            spelled_test(cond.get()) && is_name(yes.as_slice()) && is_name(no.as_slice())
        }
        End::Switch {
            width,
            value,
            other,
            cases,
        } => {
            spelled_operand(Scalar::Int(*width), value.get())
                && is_name(other.as_slice())
                && spelled_cases(*width, cases.as_slice())
        }
        End::Ret(Some(arg)) => arg.keeps_rules(),
        End::Ret(None) | End::Unreachable => true,
    }
}

impl KeepsRules for Block {
    ghost test = { spelled_block };

    fn keeps_rules(&self) -> bool {
        is_name(self.label.as_slice())
            && all_keep_rules(self.phis.as_slice())
            && all_keep_rules(self.body.as_slice())
            && spelled_end(&self.end)
    }
}

// ---- programs

impl KeepsRules for GlobalVar {
    ghost test = { spelled_global };

    fn keeps_rules(&self) -> bool {
        is_name(self.name.as_slice())
            && spelled_type_within(DEEPEST_NESTING, &self.ty)
            && spelled_const_within(DEEPEST_NESTING, &self.ty, &self.init)
            && spelled_align(&self.align)
    }
}

impl KeepsRules for Extern {
    ghost test = { spelled_extern };

    fn keeps_rules(&self) -> bool {
        is_name(self.name.as_slice())
    }
}

impl KeepsRules for Param {
    ghost test = { spelled_param };

    fn keeps_rules(&self) -> bool {
        is_name(self.name.as_slice())
    }
}

impl KeepsRules for Function {
    ghost test = { spelled_function };

    fn keeps_rules(&self) -> bool {
        is_name(self.name.as_slice())
            && all_keep_rules(self.params.as_slice())
            && not_empty(self.blocks.as_slice())
            && all_keep_rules(self.blocks.as_slice())
    }
}

fn program_keeps_rules(program: &Program) -> bool
    ensures { result ≡ spelled_program program.now }
{
    all_keep_rules(program.globals.as_slice())
        && all_keep_rules(program.externs.as_slice())
        && all_keep_rules(program.functions.as_slice())
}

/// Whether the program is the one that its canonical text reads as. This holds of every program that some text reads
/// as.
///
/// It takes no memory, and time linear in the program. Recursion is bounded by the limits of nesting.
pub fn spelled(program: &Program) -> bool
    // The result is what the rules on the tree alone decide.
    ensures rules { result ≡ spelled_program program.now }
    ensures read_back { IsTrue result ↔ IsSpelled program.now }
    // Every program that some text reads as is spelled.
    ensures only { (text : List ℕ) → Reads text program.now → IsTrue result }
{
    program_keeps_rules(program)
}
