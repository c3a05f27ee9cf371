ghost use Rattle.std.specs.Prelude.{◌≡◌, ◌≤◌};
ghost use Rattle.hip_repairs.specs.Choice as spec;
ghost use Rattle.hip_repairs.specs.Choice.{best_of, choice};
ghost use Rattle.hip_plan.specs.Worths.{is_at_limit};

use crate::scores::score_by;
use crate::worths::Worths;
use hip_findings::{PathSites, SharedFindings, SharedReport};
use hip_runs::Kind;
use hip_sound::Checked;

/// Whether a score is above the best one so far; a site without a score is below each that has one.
fn is_better(best: Option<i128>, score: Option<i128>) -> bool
    ensures { result ≡ spec.is_better best score }
{
    match (best, score) {
        (None, Some(_)) => true,
        (Some(best), Some(score)) => best < score,
        (_, None) => false,
    }
}

/// Whether no score can exceed the best one, given a limit that no worth exceeds.
fn is_at_limit(best: Option<i128>, limit: i128) -> bool
    ensures { result ≡ is_at_limit best limit }
{
    match best {
        Some(best) => best >= limit,
        None => false,
    }
}

/// The best of level 0, whose score is given, and of the levels of the first `closed` calls. It reads no call after a
/// score that none can exceed.
fn best_level<W: Worths>(
    checked: &Checked,
    worths: &W,
    store: Option<i128>,
    closed: usize,
    calls: PathSites<'_>,
) -> usize
    ensures { result ≡
        (best_of checked.now (W.found worths.now) (record { level = 0; score = store }) 1 closed calls.entry).level }
{
    let limit = worths.limit();
    let mut level = 0;
    let mut best = store;
    let mut left = calls;
    'each: for index in 0..closed {
        if is_at_limit(best, limit) {
            return level;
        }
        let call = match left.next() {
            Some(call) => call,
            None => return level,
        };
        let score = score_by(checked, worths, call);
        if is_better(best, score) {
            level = index + 1;
            best = score;
        }
    }
    level
}

fn best_on<W: Worths>(checked: &Checked, worths: &W, report: &SharedReport<'_>) -> usize
    ensures { result ≡ spec.best_on checked.now (W.found worths.now) report.now.closed report.now.path }
{
    let mut path = report.path();
    match path.next() {
        None => 0,
        Some(store) => {
            let score = score_by(checked, worths, store);
            best_level(checked, worths, score, report.closed(), path)
        }
    }
}

/// The level at which a report is repaired, by the worths of operands.
pub fn choose_by<W: Worths>(checked: &Checked, worths: &W, report: &SharedReport<'_>) -> usize
    ensures { result ≡ choice checked.now (W.found worths.now) report.now }
{
    match report.kind() {
        Kind::MissingFence => 0,
        Kind::MissingFlush | Kind::MissingBoth => { best_on(checked, worths, report) }
    }
}

/// The level at which a report is repaired: of the store, which is level 0, and the calls that had returned, the one
/// with the greatest score, and the innermost one if scores are equal. It is 0 if only a fence is missing.
///
/// It takes no memory, and goes through all marks once for each pointer operand of the sites that it reads.
pub fn choose(checked: &Checked, findings: &SharedFindings, report: &SharedReport<'_>) -> usize
    ensures is { result ≡ choice checked.now findings.now report.now }
    ensures closed { result ≤ report.now.closed }
{
    choose_by(checked, findings, report)
}
