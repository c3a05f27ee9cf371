//! Laws of the definitions of loading.

ghost use Rattle.std.specs.Prelude.{ℕ, List};
ghost use Rattle.hip_io.specs.declared.cabinet.NamedFile.{NamedFile};
ghost use Rattle.hip_program_files.specs.Laws.{LoadsOne};

/// A known file has one program, or one refusal has a cause.
pub fn files_give_one_answer()
    ensures { (files : List NamedFile) → (name : List ℕ) → LoadsOne files name }
{}
