//! Tests of more than one function by public calls alone: programs that are refused, and what each command answers.
#![tactic(auto)]

#[cfg(test)]
mod answers;
#[cfg(test)]
mod checks;
#[cfg(test)]
mod command_words;
#[cfg(test)]
mod commands;
#[cfg(test)]
mod crash_runs;
#[cfg(test)]
mod deliveries;
#[cfg(test)]
mod demos;
#[cfg(test)]
mod every_byte;
#[cfg(test)]
mod hoists;
#[cfg(test)]
mod long_traces;
#[cfg(test)]
mod many_traces;
#[cfg(test)]
mod records;
#[cfg(test)]
mod refused_functions;
#[cfg(test)]
mod refused_programs;
#[cfg(test)]
mod repairs;
#[cfg(test)]
mod reruns;
#[cfg(test)]
mod run_commands;
#[cfg(test)]
mod thin_repairs;
#[cfg(test)]
mod trace_misfits;
#[cfg(test)]
mod traces_in_chunks;
