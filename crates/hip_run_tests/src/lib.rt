//! Tests of runs by public calls alone: the memory of a run, what a machine shows, what
//! programs print, and the images that a crash may leave.
#![tactic(auto)]

#[cfg(test)]
mod calls;
#[cfg(test)]
mod edges;
#[cfg(test)]
mod endings;
#[cfg(test)]
mod images;
#[cfg(test)]
mod lines;
#[cfg(test)]
mod machines;
#[cfg(test)]
mod printed_runs;
#[cfg(test)]
mod steps;
#[cfg(test)]
mod storage;
