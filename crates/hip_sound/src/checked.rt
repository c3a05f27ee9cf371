ghost use Rattle.std.specs.Prelude.{◌≡◌, ◌+◌, ◌<◌, true, false, length, IfOk};
ghost use Rattle.hip_types.specs.Areas.{volatile_start};
ghost use Rattle.hip_globals.specs.Addresses as spec;
ghost use Rattle.hip_globals.specs.Addresses.{IsBase};
ghost use Rattle.hip_sound.specs.Given.{CallsAgree, OperandsAgree, LabelsExist, PhisAgree};
ghost use Rattle.hip_globals.specs.Held.{HoldsGlobals};
ghost use Rattle.hip_globals.specs.Initial as initial;
ghost use Rattle.hip_names.specs.Names as names;
ghost use Rattle.hip_sound.specs.NumberedNames.{function_names, function_number};
ghost use Rattle.hip_sound.specs.Sound.{RegistersAssigned, HasMain, IsSound};

use hip_globals::{address, region_bytes, region_size, volatile_bytes};
use hip_image::Image;
use hip_tree::{Function, Program};
use hip_types::NoMemory;
use std::alloc::Global;
use std::marker::Model;

/// A program that is sound.
#[derive(Drop)]
pub struct Checked {
    program: Program,
}

impl Model for Checked {
    ghost use Rattle.hip_tree.specs.declared.program.Program.{Program};
    ghost use Rattle.hip_tree.specs.contracts.program.Program as stated;
    ghost use Rattle.hip_sound.specs.Sound.{IsSound};

    ghost Value = { Program };

    ghost coded = { stated.the_row.coded };

    ghost view = { λ c. c.program };

    ghost invariant = { λ c. IsSound c.program };
}

impl Checked {
    /// A program that is known to be sound; nothing is verified.
    pub fn of_sound(program: Program) -> Checked
        requires { IsSound program }
        ensures { result ≡ program }
    {
        Checked { program }
    }

    /// The program, and what holds of it since it is sound.
    pub fn program(&self) -> &Program
        ensures is { result.now ≡ self.now }
        ensures sound { IsSound self.now }
        ensures calls { CallsAgree self.now }
        ensures operands { OperandsAgree self.now }
        ensures assigned { RegistersAssigned self.now }
        ensures labels { LabelsExist self.now }
        ensures phis { PhisAgree self.now }
        ensures main { HasMain self.now }
    {
        &self.program
    }

    /// The number of bytes of the region: those of the persistent globals, rounded up to whole cache lines of 64 bytes.
    pub fn region_size(&self) -> u64
        ensures { result ≡ spec.region_size self.now }
    {
        region_size(&self.program)
    }

    /// The address of the global of that number, where the region begins at a base. It takes time linear in the number
    /// of globals.
    pub fn address(&self, base: u64, global: usize) -> u64
        requires base { IsBase base }
        requires there { global < length self.now.globals }
        ensures { result ≡ spec.address self.now base global }
    {
        address(&self.program, base, global)
    }

    /// The bytes of the region before a run, from a base on: those of the initialisers, each where its global lies,
    /// with zeros between them.
    pub fn region_bytes(&self, alloc: Global, base: u64) -> Result<Image, NoMemory>
        requires { IsBase base }
        ensures bytes { IfOk result (λ bytes. bytes ≡ initial.region_bytes self.now base) }
        ensures length { IfOk result (λ bytes. length bytes ≡ spec.region_size self.now) }
        ensures held { IfOk result (λ bytes. HoldsGlobals self.now base true 0 bytes) }
    {
        region_bytes(alloc, &self.program, base)
    }

    /// The bytes of the volatile globals before a run, if the region begins at a base.
    pub fn volatile_bytes(&self, alloc: Global, base: u64) -> Result<Image, NoMemory>
        requires { IsBase base }
        ensures bytes { IfOk result (λ bytes. bytes ≡ initial.volatile_bytes self.now base) }
        ensures length { IfOk result (λ bytes. volatile_start + length bytes ≡ spec.volatile_end self.now) }
        ensures held { IfOk result (λ bytes. HoldsGlobals self.now base false volatile_start bytes) }
    {
        volatile_bytes(alloc, &self.program, base)
    }

    /// The number of the function of that name, if there is one. It takes time linear in the number of functions.
    pub fn function_number(&self, name: &[u8]) -> Option<usize>
        ensures { result ≡ function_number self.now name.now }
    {
        number_of(self.program.functions.as_slice(), name)
    }
}

fn number_of(functions: &[Function], name: &[u8]) -> Option<usize>
    ensures { result ≡ names.number_of (function_names functions.now) name.now }
{
    'each: for number in 0..functions.len() {
        if functions[number].name.as_slice() == name {
            return Some(number);
        }
    }
    None
}
