ghost use Rattle.std.specs.Prelude.{◌≡◌, IfOk};
ghost use Rattle.hip_names.specs.Numbered.{NumbersNames};
ghost use Rattle.hip_sound.specs.NumberedNames.{function_names, function_number};

use hip_names::NameTable;
use hip_tree::{Function, Program};
use hip_types::NoMemory;
use std::alloc::Global;
use std::marker::Model;

/// A program whose functions are found by their names. Contracts see the program.
#[derive(Drop)]
pub struct FunctionTable<'a> {
    program: &'a Program,
    numbers: NameTable<'a, usize>,
}

impl<'a> Model for FunctionTable<'a> {
    ghost use Rattle.hip_tree.specs.declared.program.Program.{Program};
    ghost use Rattle.hip_tree.specs.contracts.program.Program as stated;
    ghost use Rattle.hip_names.specs.Numbered.{NumbersNames};
    ghost use Rattle.hip_sound.specs.NumberedNames.{function_names};

    ghost Value = { Program };

    ghost coded = { stated.the_row.coded };

    ghost view = { λ t. t.program.now };

    ghost invariant = { λ t. NumbersNames t.numbers.names t.numbers.values (function_names t.program.now.functions) };
}

/// The numbers of the functions by their names.
fn numbers_of(alloc: Global, functions: &[Function]) -> Result<NameTable<'_, usize>, NoMemory>
    ensures { IfOk result (λ table. NumbersNames table.names table.values (function_names functions.now)) }
{
    let mut numbers = NameTable::new(alloc);
    'each: for number in 0..functions.len() {
        numbers.add(functions[number].name.as_slice(), number)?;
    }
    Ok(numbers)
}

impl<'a> FunctionTable<'a> {
    /// The table of a program. It takes time and memory linear in the number of functions.
    pub fn new(alloc: Global, program: &'a Program) -> Result<FunctionTable<'a>, NoMemory>
        ensures { IfOk result (λ table. table ≡ program.now) }
    {
        let numbers = numbers_of(alloc, program.functions.as_slice())?;
        Ok(FunctionTable { program, numbers })
    }

    /// The program.
    pub fn program(&self) -> &'a Program
        ensures { result.now ≡ self.now }
    {
        self.program
    }

    /// The number of the first function of that name, if there is one.
    pub fn number_of(&self, name: &[u8]) -> Option<usize>
        ensures { result ≡ function_number self.now name.now }
    {
        self.numbers.get(name)
    }
}
