//! The meaning of programs over persistent memory: states, steps, runs, crash images, and what a run finds not durable.
#![tactic(auto)]

mod bodies;
mod event;
mod findings;
mod history;
mod images;
mod initial;
mod input;
mod laws;
mod limits;
mod loose;
mod order;
mod report;
mod representation;

pub use bodies::longest;
pub use event::{Ending, Event, Object, TrapKind};
pub use findings::{
    findings_are_one, marks_are_met_once, reports_are_well_formed, same_marks_are_equal,
    worths_are_made_by_one_pass,
};
pub use history::{
    durable_stores_stay_durable, durable_stores_were_flushed_then_fenced, fences_are_stated,
    first_flushes_are_stated, images_are_choices, images_shrink, parts_are_of_stores,
};
pub use images::{
    bytes_follow_the_durable, entries_find_one_state, images_are_decided_by_lines,
    images_make_valid_inputs,
};
pub use initial::first_input;
pub use input::{Input, InputFault};
pub use laws::{parts_carry_their_history, runs_end};
pub use limits::{DEFAULT_LIMIT, MOST_FRAMES, MOST_NUMBERS, MOST_TURNS};
pub use loose::{
    loose_bytes_tell_loose_parts, loose_parts_are_last_over_loose_bytes, reports_follow_the_tags,
    steps_of_nothing_may_be_left_out, tags_are_steps,
};
pub use order::{
    a_step_moves_the_top, calls_were_made_in_order, events_tell_output_and_ending,
    events_tell_the_next_lines, lines_keep_their_order, states_name_what_stands_there,
    steps_are_counted, the_last_fence_tells,
};
pub use report::{Findings, Kind, Mark, Marks, Report};
pub use representation::{shown_lines_follow_the_run, valid_bytes_are_those_of_the_run};
