//! Tests of more than one function by public calls alone: files, streams, entries of traces, trees of programs and
//! their texts, generated programs, and what a sound program gives.
#![tactic(auto)]

#[cfg(test)]
mod canonical_texts;
#[cfg(test)]
mod files;
#[cfg(test)]
mod files_by_path;
#[cfg(test)]
mod generated_texts;
#[cfg(test)]
mod nested_texts;
#[cfg(test)]
mod read_texts;
#[cfg(test)]
mod refused_texts;
#[cfg(test)]
mod sound_programs;
#[cfg(test)]
mod spelling;
#[cfg(test)]
mod streams;
#[cfg(test)]
mod trace_entries;
#[cfg(test)]
mod trees;
