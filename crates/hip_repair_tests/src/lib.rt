//! Tests of more than one function by public calls alone: plans for findings and their unions, the functions that a
//! program reaches, its repair by a plan, stores that are never in the region, and the lines of reports and counts.
#![tactic(auto)]

#[cfg(test)]
mod levels;
#[cfg(test)]
mod lines;
#[cfg(test)]
mod plans;
#[cfg(test)]
mod programs;
#[cfg(test)]
mod reached_functions;
#[cfg(test)]
mod repairs;
#[cfg(test)]
mod spared;
#[cfg(test)]
mod unions;
