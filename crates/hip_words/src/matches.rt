//! What clap reads of the words.
ghost use Rattle.std.specs.Prelude.{◌≡◌, ◌^◌, Some, true, map, string_bytes, option_map};
ghost use Rattle.clap.specs.Words.{all_of, app_of, first_of, found_of, is_simple_and_free, rows_of};
ghost use Rattle.hip_words.specs.Answers.{Answers};
ghost use Rattle.hip_words.specs.Commands.{GivesRows, reads};
ghost use Rattle.hip_words.specs.Order.{each, numbers_of, pick_of, picks_of, texts_in, traces_of};
ghost use Rattle.hip_num.specs.Texts.{signed_of};

use crate::limits::MOST_TRACES;
use crate::pick::pick_of;
use crate::refusal::WordsRefusal;
use clap::error::ErrorKind;
use clap::{ArgMatches, Command};
use hip_runs::MOST_NUMBERS;
use hip_types::{MOST_PICKS, Pick, Row, Text};
use std::alloc::Global;

/// The matches of the words, of which the first is the command's.
pub fn parse<'a>(command: Command<'a>, words: &'a [String]) -> Result<ArgMatches<'a>, WordsRefusal>
    requires { is_simple_and_free (app_of command) ≡ true }
    ensures { GivesRows (reads (app_of command.entry) (map string_bytes words.now)) result }
{
    match command.try_get_matches_from(words) {
        Ok(matches) => Ok(matches),
        Err(error) => match error.kind() {
            ErrorKind::OutOfMemory => Err(WordsRefusal::NoMemory),
            _ => Err(WordsRefusal::Usage),
        },
    }
}

/// The first text of an argument.
pub fn first_text<'a>(matches: &ArgMatches<'a>, id: &str) -> Option<&'a str>
    ensures { option_map (λ text. text.now) result ≡ first_of id.now (rows_of (found_of matches.now)) }
{
    matches.get_str(id)
}

/// The first text of an argument, copied.
pub fn text_of(alloc: Global, matches: &ArgMatches<'_>, id: &str) -> Result<Text, WordsRefusal>
    ensures { Answers (first_of id.now (rows_of (found_of matches.now))) result }
{
    match first_text(matches, id) {
        Some(text) => Ok(Text::new(alloc, text)?),
        None => Err(WordsRefusal::Usage),
    }
}

/// All texts of an argument.
fn all_texts<'m, 'a: 'm>(matches: &'m ArgMatches<'a>, id: &str) -> Option<&'m [&'a str]>
    ensures { option_map (λ texts. map (λ text. text.now) texts.now) result
        ≡ all_of id.now (rows_of (found_of matches.now)) }
{
    matches.get_raw(id)
}

// The number that a text writes.
fn number_of(text: &str) -> Option<i64>
    ensures { result ≡ signed_of (2 ^ 63) text.now }
{
    hip_num::read_signed(text.as_bytes())
}

fn each_signed(alloc: Global, texts: &[&str]) -> Result<Row<i64>, WordsRefusal>
    ensures { Answers (each (signed_of (2 ^ 63)) (map (λ text. text.now) texts.now)) result }
{
    let mut numbers = Row::new(alloc);
    'each: for text in texts {
        match number_of(*text) {
            Some(number) => numbers.push(number)?,
            None => return Err(WordsRefusal::Usage),
        }
    }
    Ok(numbers)
}

fn numbers_of(alloc: Global, texts: &[&str]) -> Result<Row<i64>, WordsRefusal>
    ensures { Answers (numbers_of (map (λ text. text.now) texts.now)) result }
{
    if texts.len() as u64 <= MOST_NUMBERS {
        each_signed(alloc, texts)
    } else {
        Err(WordsRefusal::Usage)
    }
}

/// The numbers that the texts of an argument write.
pub fn numbers_in(
    alloc: Global,
    matches: &ArgMatches<'_>,
    id: &str,
) -> Result<Row<i64>, WordsRefusal>
    ensures { Answers (numbers_of (texts_in id.now (rows_of (found_of matches.now)))) result }
{
    match all_texts(matches, id) {
        Some(texts) => numbers_of(alloc, texts),
        None => Ok(Row::new(alloc)),
    }
}

fn each_pick(alloc: Global, texts: &[&str]) -> Result<Row<Pick>, WordsRefusal>
    ensures { Answers (each pick_of (map (λ text. text.now) texts.now)) result }
{
    let mut picks = Row::new(alloc);
    'each: for text in texts {
        match pick_of(*text) {
            Some(pick) => picks.push(pick)?,
            None => return Err(WordsRefusal::Usage),
        }
    }
    Ok(picks)
}

fn picks_of(alloc: Global, texts: &[&str]) -> Result<Row<Pick>, WordsRefusal>
    ensures { Answers (picks_of (map (λ text. text.now) texts.now)) result }
{
    if texts.len() as u64 <= MOST_PICKS {
        each_pick(alloc, texts)
    } else {
        Err(WordsRefusal::Usage)
    }
}

/// The picks that the texts of an argument write.
pub fn picks_in(
    alloc: Global,
    matches: &ArgMatches<'_>,
    id: &str,
) -> Result<Row<Pick>, WordsRefusal>
    ensures { Answers (picks_of (texts_in id.now (rows_of (found_of matches.now)))) result }
{
    match all_texts(matches, id) {
        Some(texts) => picks_of(alloc, texts),
        None => Ok(Row::new(alloc)),
    }
}

fn copies(alloc: Global, texts: &[&str]) -> Result<Row<Text>, WordsRefusal>
    ensures { Answers (Some (map (λ text. text.now) texts.now)) result }
{
    let mut copies = Row::new(alloc);
    'each: for text in texts {
        copies.push(Text::new(alloc, *text)?)?;
    }
    Ok(copies)
}

fn traces_of(alloc: Global, texts: &[&str]) -> Result<Row<Text>, WordsRefusal>
    ensures { Answers (traces_of (map (λ text. text.now) texts.now)) result }
{
    if !texts.is_empty() && texts.len() as u64 <= MOST_TRACES {
        copies(alloc, texts)
    } else {
        Err(WordsRefusal::Usage)
    }
}

/// The texts of an argument, from 1 to 1,024 of them.
pub fn traces_in(
    alloc: Global,
    matches: &ArgMatches<'_>,
    id: &str,
) -> Result<Row<Text>, WordsRefusal>
    ensures { Answers (traces_of (texts_in id.now (rows_of (found_of matches.now)))) result }
{
    match all_texts(matches, id) {
        Some(texts) => traces_of(alloc, texts),
        None => Err(WordsRefusal::Usage),
    }
}
