//! Laws of the definitions of this crate.

ghost use Rattle.hip_calls.specs.Meaning.{CalleesAreReached, FreshNamesAreFresh};

/// The callees of calls are the functions that calls reach from them, each once.
pub fn callees_are_reached()
    ensures { CalleesAreReached }
{}

/// Each fresh name is the first candidate that is not in use, and no fresh name is the name of an external function.
pub fn fresh_names_are_fresh()
    ensures { FreshNamesAreFresh }
{}
