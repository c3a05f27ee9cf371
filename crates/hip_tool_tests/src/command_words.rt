//! Words of the command line, and the orders that they give.

use hip_words::{Order, WordsRefusal, read_words};
use std::alloc::{AllocError, Global};
use std::test::Fail;

fn owned(alloc: Global, words: &str) -> Result<Vec<String>, AllocError> {
    let mut owned = Vec::new(alloc);
    for word in words.split(' ') {
        owned.push(String::from_str(alloc, word)?)?;
    }
    Ok(owned)
}

fn shown_run(alloc: Global, order: &Order) -> Result<String, AllocError> {
    match order {
        Order::Run {
            program,
            limit,
            numbers,
        } => {
            format!(in alloc;
                "run {} {} {:?}",
                program.as_str(),
                *limit,
                numbers.as_slice()
            )
        }
        Order::Record {
            program,
            base,
            limit,
            numbers,
        } => {
            format!(in alloc;
                "record {} {} {} {:?}",
                program.as_str(),
                *base,
                *limit,
                numbers.as_slice()
            )
        }
        Order::Demo { seed, size } => format!(in alloc; "demo {} {}", *seed, *size),
        _ => format!(in alloc; "other"),
    }
}

fn shown_crash(alloc: Global, order: &Order) -> Result<String, AllocError> {
    match order {
        Order::Many { program, traces } => {
            format!(in alloc; "many {} {}", program.as_str(), traces.len())
        }
        Order::Crash {
            program,
            trace,
            entry,
            picks,
        } => {
            format!(in alloc;
                "crash {} {} {} {:?}",
                program.as_str(),
                trace.as_str(),
                *entry,
                picks.as_slice()
            )
        }
        _ => shown_run(alloc, order),
    }
}

fn shown_files(
    alloc: Global,
    name: &str,
    program: &str,
    trace: &str,
) -> Result<String, AllocError> {
    format!(in alloc; "{name} {program} {trace}")
}

fn shown(alloc: Global, read: &Result<Order, WordsRefusal>) -> Result<String, AllocError> {
    match read {
        Ok(Order::Check { program, trace }) => shown_files(
            alloc,
            "check",
            program.as_str(),
            trace.as_str(),
        ),
        Ok(Order::Repair { program, trace }) => shown_files(
            alloc,
            "repair",
            program.as_str(),
            trace.as_str(),
        ),
        Ok(Order::Rerun { program, trace }) => shown_files(
            alloc,
            "rerun",
            program.as_str(),
            trace.as_str(),
        ),
        Ok(Order::Thin { program, trace }) => shown_files(
            alloc,
            "thin",
            program.as_str(),
            trace.as_str(),
        ),
        Ok(order) => shown_crash(alloc, order),
        Err(WordsRefusal::Usage) => String::from_str(alloc, "usage"),
        Err(WordsRefusal::NoMemory) => String::from_str(alloc, "no memory"),
    }
}

static CASES: [(&str, &str); 50] = [
    ("check p t", "check p t"),
    ("repair p t", "repair p t"),
    ("rerun -- -p --help", "rerun -p --help"),
    ("thin - ", "thin - "),
    ("check p", "usage"),
    ("check p t u", "usage"),
    ("check p -t", "usage"),
    ("check --help", "usage"),
    ("check -h p t", "usage"),
    ("--help", "usage"),
    ("chec p t", "usage"),
    ("", "usage"),
    ("check help", "usage"),
    ("help", "usage"),
    ("-- check p t", "usage"),
    ("run p", "run p 1000000000 []"),
    ("run p 1 2", "run p 1000000000 [1, 2]"),
    ("run --limit 5 p 1", "run p 5 [1]"),
    ("run p 1 --limit=5 2", "run p 5 [1, 2]"),
    ("run p 1 --limit 5 -- -2 3", "run p 5 [1, -2, 3]"),
    ("run p -- --limit", "usage"),
    ("run p -2", "usage"),
    ("run p --limit", "usage"),
    ("run p --limit -- 5", "usage"),
    ("run p --limit=", "usage"),
    ("run p --limit 5 --limit 5", "usage"),
    ("run p --limit 1099511627776", "run p 1099511627776 []"),
    ("run p --limit 1099511627777", "usage"),
    ("run p --lim 5", "usage"),
    ("run p --base 4294967296", "usage"),
    ("run p -", "usage"),
    ("run --limit 5", "usage"),
    (
        "run p 9223372036854775807",
        "run p 1000000000 [9223372036854775807]",
    ),
    ("run p 9223372036854775808", "usage"),
    (
        "run p -- -9223372036854775808",
        "run p 1000000000 [-9223372036854775808]",
    ),
    ("run p -- 1 -- 2", "usage"),
    ("run p +1", "usage"),
    (
        "record p --base=4294967296 7",
        "record p 4294967296 1000000000 [7]",
    ),
    ("record p --base 4294967297", "usage"),
    (
        "record p --limit 0 --base 70368744177664",
        "record p 70368744177664 0 []",
    ),
    ("demo 7 50000", "demo 7 50000"),
    ("demo 7 50001", "usage"),
    ("demo 2147483648 1", "usage"),
    ("demo 2147483647 0", "usage"),
    ("many p a b", "many p 2"),
    ("many p", "usage"),
    (
        "crash p t 4 0:2 1:0",
        "crash p t 4 [Pick { line: 0, upto: 2 }, Pick { line: 1, upto: 0 }]",
    ),
    ("crash p t 4 0", "usage"),
    ("crash p t 4 0:1:2", "usage"),
    ("crash p t 18446744073709551616", "usage"),
];

fn reads(rt: &HostRuntime, words: &str, wanted: &str) -> Result<bool, Fail> {
    let owned = owned(rt.alloc(), words)?;
    let read = read_words(rt.alloc(), owned.as_slice());
    let answer = shown(rt.alloc(), &read)?;
    if answer.as_str() != wanted {
        println!(rt; "{words}: {answer} and not {wanted}")?;
    }
    Ok(answer.as_str() == wanted)
}

#[test]
fn reads_words(rt: HostRuntime) -> Result<(), Fail> {
    let mut same = true;
    for (words, wanted) in &CASES {
        let one = reads(&rt, *words, *wanted)?;
        same = same & one;
    }
    assert!(rt; same);
    Ok(())
}
