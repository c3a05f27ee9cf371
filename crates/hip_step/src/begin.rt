ghost use Rattle.std.specs.Prelude.{◌≡◌, IfOk};
ghost use Rattle.hip_runs.specs.Validity.{IsValid};

use crate::machine::Machine;
use hip_resolve::resolve;
use hip_runner::Runner;
use hip_runs::Input;
use hip_sound::Checked;
use hip_types::NoMemory;
use std::alloc::Global;

/// A value that begins with a sound program and a valid input.
pub trait Begin<'a>: Sized {
    /// The value before the first step.
    fn new(alloc: Global, checked: &'a Checked, input: &'a Input) -> Result<Self, NoMemory>
        requires { IsValid checked.now input.now };
}

impl<'a> Begin<'a> for Runner<'a> {
    /// A runner before its first step. Time and memory are linear in the program's text and in the bytes of the
    /// initial memory that are not 0.
    fn new(alloc: Global, checked: &'a Checked, input: &'a Input) -> Result<Runner<'a>, NoMemory>
        requires { IsValid checked.now input.now }
        ensures { IfOk result (λ r. r ≡ record { program = checked.now; input = input.now; taken = 0 }) }
    {
        let code = resolve(alloc, checked, input.base)?;
        Runner::of_code(alloc, checked, input, code)
    }
}

impl<'a> Begin<'a> for Machine<'a> {
    /// A machine before its first step, in the time and memory of a runner.
    fn new(alloc: Global, checked: &'a Checked, input: &'a Input) -> Result<Machine<'a>, NoMemory>
        requires { IsValid checked.now input.now }
        ensures { IfOk result (λ m. m ≡ record { program = checked.now; input = input.now; taken = 0 }) }
    {
        let runner = Runner::new(alloc, checked, input)?;
        Machine::of_runner(alloc, runner)
    }
}
