ghost use Rattle.std.specs.Prelude.{◌≡◌, Some, map};
ghost use Rattle.hip_typing.specs.Seen.Answers.{Answers};
ghost use Rattle.hip_sound.specs.Requirement.{each};
ghost use Rattle.hip_externs.specs.Externs.{signature, known_signature};
ghost use Rattle.hip_sound.specs.Rules.{is_of, free_global, declared, free_function, externs_required};
ghost use Rattle.hip_sound.specs.Types.{all_pass, same_result, same_scalar};

use crate::refused::{Refused, ask};
use hip_externs::ExternCall;
use hip_sound::{Fault, Place};
use hip_tree::{Extern, Function, GlobalVar, Program};
use hip_types::Scalar;

pub fn is_same_scalar(a: Scalar, b: Scalar) -> bool
    ensures { result ≡ same_scalar a b }
{
    match (a, b) {
        (Scalar::Int(v), Scalar::Int(w)) => v.bits() == w.bits(),
        (Scalar::Ptr, Scalar::Ptr) => true,
        _ => false,
    }
}

pub fn is_same_result(a: Option<Scalar>, b: Option<Scalar>) -> bool
    ensures { result ≡ same_result a b }
{
    match (a, b) {
        (Some(a), Some(b)) => is_same_scalar(a, b),
        (None, None) => true,
        _ => false,
    }
}

/// Whether the parameters have these types.
fn params_are(params: &[Scalar], types: &[Scalar]) -> bool
    ensures { result ≡ all_pass (map same_scalar types.now) params.now }
{
    if params.len() != types.len() {
        return false;
    }
    'params: for at in 0..params.len() {
        if !is_same_scalar(types[at], params[at]) {
            return false;
        }
    }
    true
}

fn is_declared(external: &Extern, ret: Option<Scalar>, params: &[Scalar]) -> bool
    ensures { result ≡ is_of external.now (Some (record { ret = ret; params = params.now })) }
{
    is_same_result(external.ret, ret) && params_are(external.params.as_slice(), params)
}

/// Whether the declaration has the types of the external function.
pub fn is_declared_as(external: &Extern, call: ExternCall) -> bool
    ensures { result ≡ is_of external.now (Some (signature call)) }
{
    let row = call.row();
    is_declared(external, row.ret, row.params)
}

fn is_known(external: &Extern) -> bool
    ensures { result ≡ is_of external.now (known_signature external.now.name) }
{
    match ExternCall::named(external.name.as_slice()) {
        Some(call) => is_declared_as(external, call),
        None => false,
    }
}

fn verify_free_global(number: usize, global: &GlobalVar) -> Result<(), Refused>
    ensures { Answers result (free_global number global.now).found }
{
    let is_free = ExternCall::named(global.name.as_slice()).is_none();
    ask(is_free, Fault::BadExtern, Place::Global(number))
}

fn verify_declaration(number: usize, external: &Extern) -> Result<(), Refused>
    ensures { Answers result (declared number external.now).found }
{
    ask(is_known(external), Fault::BadExtern, Place::Extern(number))
}

fn verify_free_function(number: usize, function: &Function) -> Result<(), Refused>
    ensures { Answers result (free_function number function.now).found }
{
    let is_free = ExternCall::named(function.name.as_slice()).is_none();
    ask(is_free, Fault::BadExtern, Place::Head(number))
}

fn verify_free_globals(globals: &[GlobalVar]) -> Result<(), Refused>
    ensures { Answers result (each free_global globals.now).found }
{
    'globals: for number in 0..globals.len() {
        if let Err(refused) = verify_free_global(number, &globals[number]) {
            return Err(refused);
        }
    }
    Ok(())
}

fn verify_declarations(externs: &[Extern]) -> Result<(), Refused>
    ensures { Answers result (each declared externs.now).found }
{
    'externs: for number in 0..externs.len() {
        if let Err(refused) = verify_declaration(number, &externs[number]) {
            return Err(refused);
        }
    }
    Ok(())
}

fn verify_free_functions(functions: &[Function]) -> Result<(), Refused>
    ensures { Answers result (each free_function functions.now).found }
{
    'functions: for number in 0..functions.len() {
        if let Err(refused) = verify_free_function(number, &functions[number]) {
            return Err(refused);
        }
    }
    Ok(())
}

/// Verifies that externs are declared as the functions that they name, and that nothing else has such a name.
pub fn verify_externs(program: &Program) -> Result<(), Refused>
    ensures { Answers result (externs_required program.now).found }
{
    verify_free_globals(program.globals.as_slice())?;
    verify_declarations(program.externs.as_slice())?;
    verify_free_functions(program.functions.as_slice())
}
