ghost use Rattle.std.specs.Prelude.{◌≡◌};
ghost use Rattle.hip_typing.specs.Seen.Answers.{Answers};
ghost use Rattle.hip_sound.specs.Rules.{is_main, has_main, main_required};

use crate::refused::{Refused, ask};
use hip_sound::{Fault, Place};
use hip_tree::{Function, Program};
use hip_types::{Scalar, Width};

fn is_main(function: &Function) -> bool
    ensures { result ≡ is_main function.now }
{
    function.params.len() == 0 && matches!(function.ret, Some(Scalar::Int(Width::W32)))
}

fn has_main(functions: &[Function]) -> bool
    ensures { result ≡ has_main functions.now }
{
    'functions: for function in functions {
        if function.name.as_slice() == b"main".as_slice() {
            return is_main(function);
        }
    }
    false
}

/// Verifies that there is a function `main` without parameters that returns an i32.
pub fn verify_main(program: &Program) -> Result<(), Refused>
    ensures { Answers result (main_required program.now).found }
{
    ask(
        has_main(program.functions.as_slice()),
        Fault::NoMain,
        Place::Whole,
    )
}
