//! What `hippo` answers if nothing fails.

ghost use Rattle.hip_tool.specs.Crashes.{CrashesAreExhaustive};
ghost use Rattle.hip_tool.specs.Headline.{Headline, OrdersAreAnswered};

use hip_histories::{chains_of_repairs_add_up, repairs_keep_checks, repairs_take_the_same_steps};
use hip_repair_commands::{many_are_answered, many_are_one};
use hip_repair_laws::{plans_name_what_is_reported, repairs_are_local};
use hip_repairs::{
    direct_stores_stay_outside, hoisted_calls_are_covered, hoisted_calls_are_fenced,
    inputs_stay_valid, repaired_is_sound, repairs_are_clean, repairs_do_no_harm,
};
use hip_run_commands::crash_misses_nothing;
use hip_survival::{
    checked_bytes_survive_or_are_reported, reports_are_of_bytes_that_may_be_lost,
    stores_under_hoisted_calls_survive,
};
use hip_vol::low_stores_stay_outside;
use hip_words::files_are_plain;

/// The headline. Let the files be known, let one be the text of a sound program of at most 16 MiB, let another be the
/// trace of a run of it on an input, let no file be missing and nothing fail. Then `repair` with the names of the two
/// files, none of which begins with `-`, ends out of memory, or it writes the program that is repaired by exactly the
/// plan for what the run found.
///
/// Of this program the following holds. It differs from the program only at sites that a report of the run names. It is
/// sound. On every input it takes the same steps, and between them only flushes of what was just stored and fences, so
/// that 3n of its steps are at least n of the program's; it prints the same and reaches the same memory, and no crash
/// image is new. A fence comes directly after each hoisted call; then each store under the call is durable, on every
/// input. On the trace's input, and on every input whose findings ask for no more than this plan, each checked byte is
/// durable at its check and survives a crash there. Over crashes the program behaves as the first one may. Later
/// repairs keep all this.
pub fn headline()
    ensures { Headline }
{
    // Lemmas: what each order answers, and that plain words are an order.
    orders_are_answered();
    files_are_plain();
}

/// What each order answers if nothing fails. `run` and `record` answer with the run of the program. `check` reports
/// each checked byte that a crash may lose, and no other; `rerun` and `crash` have their texts for the trace's run.
/// `repair`, `thin` and `many` write the program that is repaired by exactly the plan for what was found, `many` by the
/// union of the runs' plans. `demo` has its counts.
pub fn orders_are_answered()
    ensures { OrdersAreAnswered }
{
    // Lemmas: what each command answers, and what holds of the program that a repair writes.
    many_are_one();
    many_are_answered();
    repairs_are_local();
    plans_name_what_is_reported();
    repairs_do_no_harm();
    hoisted_calls_are_fenced();
    hoisted_calls_are_covered();
    stores_under_hoisted_calls_survive();
    repairs_are_clean();
    repairs_take_the_same_steps();
    repaired_is_sound();
    inputs_stay_valid();
    chains_of_repairs_add_up();
    repairs_keep_checks();
    direct_stores_stay_outside();
    low_stores_stay_outside();
    checked_bytes_survive_or_are_reported();
    reports_are_of_bytes_that_may_be_lost();
}

/// `crash` misses nothing: for each content that a crash may leave in some state of the traced run there are an entry
/// and picks for which it writes the trace of the run from that content, if nothing fails.
pub fn crashes_are_exhaustive()
    ensures { CrashesAreExhaustive }
{
    // Lemma: each content that a crash may leave is that of some picks.
    crash_misses_nothing();
}
