//! The top call.

ghost use Rattle.std.specs.Prelude.{◌≡◌, true, Some, map, string_bytes};
ghost use Rattle.hip_answers.specs.Answers.{HasAnswered, IsDelivered, sinks};
ghost use Rattle.hip_answers.specs.Fetches.{FetchesFiles};
ghost use Rattle.hip_command_io.specs.Results.{GivesResult, status_of};
ghost use Rattle.hip_tool.specs.Call.{AnswersTo, IsFit, begins, files_of, is_run};
ghost use Rattle.hip_tool.specs.CallEnd.{IsSentOut};
ghost use Rattle.hip_words.specs.Order.{order};

use crate::call_end::close;
use hip_answers::Status;
use hip_command_io::{Counts, conclude};
use hip_demo::demo;
use hip_io::{Cabinet, Sink};
use hip_repair_commands::{check_file, many_file, repair_file, rerun_file, thin_file};
use hip_run_commands::{CrashPoint, RunStart, crash_file, record_file, run_file};
use hip_words::{
    Order, WordsRefusal, demos_are_valid, read_words, records_are_valid, runs_are_valid,
};
use std::alloc::Global;

/// Carries out the command that the words give. The words come without the program's name. `check`, `repair`, `many`,
/// `thin` and `demo` take all their memory before they write the first byte; the others write while a run takes its
/// steps. It fetches each file that the words name at most once, and no other. At the end neither the output nor the
/// notes hold a byte back, unless a write has failed.
pub fn hippo<C: Cabinet, S: Sink, N: Sink>(
    alloc: Global,
    words: &[String],
    cabinet: &mut C,
    out: &mut S,
    notes: &mut N,
) -> Status
    ensures answered { HasAnswered
        (AnswersTo (order (map string_bytes words.now)) (C.state cabinet.old) (C.state cabinet.new))
        (begins (order (map string_bytes words.now))) (C.state cabinet.old) (C.state cabinet.new)
        (sinks (S.state out.old) (S.state out.new) (N.state notes.old) (N.state notes.new)) result }
    ensures fetches { FetchesFiles (files_of (order (map string_bytes words.now))) result
        (C.state cabinet.old) (C.state cabinet.new) }
    ensures delivered { S.held out.old ≡ 0 → IsDelivered result (S.held out.new) }
    ensures sent { IsSentOut (N.state notes.old) (N.state notes.new) (N.held notes.new) }
{
    let given = answer_words(alloc, words, cabinet, out);
    let status = conclude(notes, given);
    close(notes, status)
}

/// Reads the words, and carries out their command.
fn answer_words<C: Cabinet, S: Sink>(
    alloc: Global,
    words: &[String],
    cabinet: &mut C,
    out: &mut S,
) -> Result<Counts, Status>
    ensures gives { GivesResult
        (AnswersTo (order (map string_bytes words.now)) (C.state cabinet.old) (C.state cabinet.new))
        (begins (order (map string_bytes words.now))) (C.state cabinet.old) (C.state cabinet.new)
        (S.state out.old) (S.state out.new) result }
    ensures fetches { FetchesFiles (files_of (order (map string_bytes words.now))) (status_of result)
        (C.state cabinet.old) (C.state cabinet.new) }
    ensures delivered { S.held out.old ≡ 0 → IsDelivered (status_of result) (S.held out.new) }
{
    // Lemmas: what an order gives is within its bounds.
    runs_are_valid();
    records_are_valid();
    demos_are_valid();
    match read_words(alloc, words) {
        Ok(order) => carry_out(alloc, order, cabinet, out),
        Err(WordsRefusal::Usage) => Err(Status::Usage),
        Err(WordsRefusal::NoMemory) => Err(Status::NoMemory),
    }
}

/// Carries out an order.
fn carry_out<C: Cabinet, S: Sink>(
    alloc: Global,
    order: Order,
    cabinet: &mut C,
    out: &mut S,
) -> Result<Counts, Status>
    requires { IsFit order }
    ensures gives { GivesResult
        (AnswersTo (Some order) (C.state cabinet.old) (C.state cabinet.new)) (begins (Some order))
        (C.state cabinet.old) (C.state cabinet.new) (S.state out.old) (S.state out.new) result }
    ensures fetches { FetchesFiles (files_of (Some order)) (status_of result) (C.state cabinet.old) (C.state cabinet.new) }
    ensures delivered { S.held out.old ≡ 0 → IsDelivered (status_of result) (S.held out.new) }
{
    match order {
        Order::Run { .. } | Order::Record { .. } | Order::Crash { .. } => {
            carry_out_run(alloc, order, cabinet, out)
        }
        Order::Check { program, trace } => {
            check_file(alloc, program.as_str(), trace.as_str(), cabinet, out)
        }
        Order::Repair { program, trace } => {
            repair_file(alloc, program.as_str(), trace.as_str(), cabinet, out)
        }
        Order::Rerun { program, trace } => {
            rerun_file(alloc, program.as_str(), trace.as_str(), cabinet, out)
        }
        Order::Thin { program, trace } => {
            thin_file(alloc, program.as_str(), trace.as_str(), cabinet, out)
        }
        Order::Demo { seed, size } => demo(alloc, seed, size, out),
        Order::Many { program, traces } => {
            many_file(alloc, program.as_str(), traces.as_slice(), cabinet, out)
        }
    }
}

/// Carries out an order that writes what one run of the program does.
fn carry_out_run<C: Cabinet, S: Sink>(
    alloc: Global,
    order: Order,
    cabinet: &mut C,
    out: &mut S,
) -> Result<Counts, Status>
    requires fit { IsFit order }
    requires kind { is_run order ≡ true }
    ensures gives { GivesResult
        (AnswersTo (Some order) (C.state cabinet.old) (C.state cabinet.new)) (begins (Some order))
        (C.state cabinet.old) (C.state cabinet.new) (S.state out.old) (S.state out.new) result }
    ensures fetches { FetchesFiles (files_of (Some order)) (status_of result) (C.state cabinet.old) (C.state cabinet.new) }
    ensures delivered { S.held out.old ≡ 0 → IsDelivered (status_of result) (S.held out.new) }
{
    match order {
        Order::Run {
            program,
            limit,
            numbers,
        } => run_file(alloc, program.as_str(), limit, numbers, cabinet, out),
        Order::Record {
            program,
            base,
            limit,
            numbers,
        } => {
            let start = RunStart {
                base,
                limit,
                numbers,
            };
            record_file(alloc, program.as_str(), start, cabinet, out)
        }
        Order::Crash {
            program,
            trace,
            entry,
            picks,
        } => {
            let point = CrashPoint { entry, picks };
            crash_file(alloc, program.as_str(), trace.as_str(), point, cabinet, out)
        }
        // The clause `kind` names the three orders above.
        _ => unreachable!(),
    }
}
