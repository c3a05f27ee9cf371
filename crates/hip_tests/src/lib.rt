//! Tests of more than one function by public calls alone: layout, numbers, tokens, names, images, memory, cache
//! lines and paths.
//!
//! A test is in the lowest of the crates of tests that has what it calls: `hip_text_tests` for files, traces and
//! the texts of programs, `hip_run_tests` for runs, `hip_repair_tests` for calls and repairs, `hip_tool_tests` for
//! soundness and the command.
#![tactic(auto)]

#[cfg(test)]
mod arithmetic;
#[cfg(test)]
mod cache_lines;
#[cfg(test)]
mod graph_paths;
#[cfg(test)]
mod images;
#[cfg(test)]
mod layout;
#[cfg(test)]
mod lists;
#[cfg(test)]
mod memory;
#[cfg(test)]
mod name_tables;
#[cfg(test)]
mod number_texts;
#[cfg(test)]
mod tokens;
