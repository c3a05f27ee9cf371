//! The orders, each from what clap reads of its command's words.
ghost use Rattle.std.specs.Prelude.{◌≡◌, codes};
ghost use Rattle.clap.specs.Words.{found_of, rows_of};
ghost use Rattle.hip_words.specs.Answers.{Answers};
ghost use Rattle.hip_globals.specs.Addresses.{is_base};
ghost use Rattle.hip_words.specs.Order.{crash_in, decimal_in, demo_in, files_in, is_limit, is_seed, is_size, many_in, number_in, record_in, run_in};

use crate::matches::{first_text, numbers_in, picks_in, text_of, traces_in};
use crate::order::Order;
use crate::refusal::WordsRefusal;
use clap::ArgMatches;
use hip_gen::{LARGEST_SIZE, SEED_END};
use hip_globals::is_base;
use hip_num::read_decimal;
use hip_runs::MOST_TURNS;
use hip_types::Text;
use std::alloc::Global;

fn decimal_in(matches: &ArgMatches<'_>, id: &str) -> Option<u64>
    ensures { result ≡ decimal_in id.now (rows_of (found_of matches.now)) }
{
    match first_text(matches, id) {
        Some(text) => read_decimal(text.as_bytes()),
        None => None,
    }
}

fn limit_in(matches: &ArgMatches<'_>) -> Result<u64, WordsRefusal>
    ensures { Answers (number_in is_limit (codes "limit") (rows_of (found_of matches.now))) result }
{
    match decimal_in(matches, "limit") {
        Some(limit) if limit <= MOST_TURNS => Ok(limit),
        _ => Err(WordsRefusal::Usage),
    }
}

fn base_in(matches: &ArgMatches<'_>) -> Result<u64, WordsRefusal>
    ensures { Answers (number_in is_base (codes "base") (rows_of (found_of matches.now))) result }
{
    match decimal_in(matches, "base") {
        Some(base) if is_base(base) => Ok(base),
        _ => Err(WordsRefusal::Usage),
    }
}

fn seed_in(matches: &ArgMatches<'_>) -> Result<u64, WordsRefusal>
    ensures { Answers (number_in is_seed (codes "seed") (rows_of (found_of matches.now))) result }
{
    match decimal_in(matches, "seed") {
        Some(seed) if seed < SEED_END => Ok(seed),
        _ => Err(WordsRefusal::Usage),
    }
}

fn size_in(matches: &ArgMatches<'_>) -> Result<u64, WordsRefusal>
    ensures { Answers (number_in is_size (codes "size") (rows_of (found_of matches.now))) result }
{
    match decimal_in(matches, "size") {
        Some(size) if size >= 1 && size <= LARGEST_SIZE => Ok(size),
        _ => Err(WordsRefusal::Usage),
    }
}

/// `run PROGRAM [--limit N] [NUMBERS]`
pub fn run_in(alloc: Global, matches: &ArgMatches<'_>) -> Result<Order, WordsRefusal>
    ensures { Answers (run_in (rows_of (found_of matches.now))) result }
{
    let program = text_of(alloc, matches, "program")?;
    let limit = limit_in(matches)?;
    let numbers = numbers_in(alloc, matches, "numbers")?;
    Ok(Order::Run {
        program,
        limit,
        numbers,
    })
}

/// `record PROGRAM [--base N] [--limit N] [NUMBERS]`
pub fn record_in(alloc: Global, matches: &ArgMatches<'_>) -> Result<Order, WordsRefusal>
    ensures { Answers (record_in (rows_of (found_of matches.now))) result }
{
    let program = text_of(alloc, matches, "program")?;
    let base = base_in(matches)?;
    let limit = limit_in(matches)?;
    let numbers = numbers_in(alloc, matches, "numbers")?;
    Ok(Order::Record {
        program,
        base,
        limit,
        numbers,
    })
}

/// `demo SEED SIZE`
pub fn demo_in(matches: &ArgMatches<'_>) -> Result<Order, WordsRefusal>
    ensures { Answers (demo_in (rows_of (found_of matches.now))) result }
{
    let seed = seed_in(matches)?;
    let size = size_in(matches)?;
    Ok(Order::Demo { seed, size })
}

/// The program and the trace of a command that takes these two.
pub fn files_in(alloc: Global, matches: &ArgMatches<'_>) -> Result<(Text, Text), WordsRefusal>
    ensures { Answers (files_in (rows_of (found_of matches.now))) result }
{
    let program = text_of(alloc, matches, "program")?;
    let trace = text_of(alloc, matches, "trace")?;
    Ok((program, trace))
}

/// `many PROGRAM TRACES...`
pub fn many_in(alloc: Global, matches: &ArgMatches<'_>) -> Result<Order, WordsRefusal>
    ensures { Answers (many_in (rows_of (found_of matches.now))) result }
{
    let program = text_of(alloc, matches, "program")?;
    let traces = traces_in(alloc, matches, "traces")?;
    Ok(Order::Many { program, traces })
}

/// `crash PROGRAM TRACE ENTRY [PICKS...]`
pub fn crash_in(alloc: Global, matches: &ArgMatches<'_>) -> Result<Order, WordsRefusal>
    ensures { Answers (crash_in (rows_of (found_of matches.now))) result }
{
    let program = text_of(alloc, matches, "program")?;
    let trace = text_of(alloc, matches, "trace")?;
    let entry = decimal_in(matches, "entry").ok_or(WordsRefusal::Usage)?;
    let picks = picks_in(alloc, matches, "picks")?;
    Ok(Order::Crash {
        program,
        trace,
        entry,
        picks,
    })
}
