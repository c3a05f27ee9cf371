//! What is true in every run of a program: a machine never gets stuck, values fit their types, and the stack keeps its
//! shape.
#![tactic(auto)]

mod laws;

pub use laws::{
    levels_bound_registers, objects_are_apart, operands_fit_their_types, registers_fit_their_types,
    runs_are_bounded, sound_programs_never_get_stuck, stack_keeps_its_shape,
};
