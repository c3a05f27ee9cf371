//! Tests of runs that are noted, recorded and replayed, by public calls alone: marks, traces, reports, misfits, and the
//! plans for what runs find.
#![tactic(auto)]

#[cfg(test)]
mod faults;
#[cfg(test)]
mod log_of_keys;
#[cfg(test)]
mod long_runs;
#[cfg(test)]
mod misfits;
#[cfg(test)]
mod noted_steps;
#[cfg(test)]
mod plans_of_runs;
#[cfg(test)]
mod programs;
#[cfg(test)]
mod recordings;
#[cfg(test)]
mod runs;
