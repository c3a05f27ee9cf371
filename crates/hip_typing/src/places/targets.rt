ghost use Rattle.std.specs.Prelude.{◌≡◌};
ghost use Rattle.std.specs.List.{list_any};
ghost use Rattle.hip_sound.specs.Places as places;
ghost use Rattle.hip_sound.specs.Places.{are_among};
ghost use Rattle.hip_sound.specs.Registers.{end_labels};
ghost use Rattle.hip_typing.specs.Seen.TargetsSeen.{label_seen, case_labels, targets_seen};

use hip_names::NameSet;
use hip_tree::{Block, Case, End};
use hip_types::Name;

/// The labels that the end of a block names: up to two, and then those of cases.
#[derive(Clone, Copy)]
pub struct EndLabels<'a> {
    pub first: Option<&'a Name>,
    pub second: Option<&'a Name>,
    pub cases: &'a [Case],
}

impl<'a> EndLabels<'a> {
    pub fn of_end(end: &'a End) -> EndLabels<'a>
        ensures { targets_seen result ≡ end_labels end.now }
    {
        match end {
            End::Br { label } => EndLabels {
                first: Some(label),
                second: None,
                cases: &[],
            },
            End::CondBr { yes, no, .. } => EndLabels {
                first: Some(yes),
                second: Some(no),
                cases: &[],
            },
            End::Switch { other, cases, .. } => EndLabels {
                first: Some(other),
                second: None,
                cases: cases.as_slice(),
            },
            End::Ret(_) | End::Unreachable => EndLabels {
                first: None,
                second: None,
                cases: &[],
            },
        }
    }
}

// ---- labels exist

fn target_known(labels: &NameSet<'_>, target: Option<&Name>) -> bool
    ensures { result ≡ are_among labels.now (label_seen target.entry) }
{
    match target {
        Some(label) => labels.contains(label.as_slice()),
        None => true,
    }
}

fn cases_known(labels: &NameSet<'_>, cases: &[Case]) -> bool
    ensures { result ≡ are_among labels.now (case_labels cases.now) }
{
    'each: for case in cases {
        if !labels.contains(case.label.as_slice()) {
            return false;
        }
    }
    true
}

/// Whether all labels that the end names are among these.
pub fn targets_known(labels: &NameSet<'_>, targets: &EndLabels<'_>) -> bool
    ensures { result ≡ are_among labels.now (targets_seen targets.now) }
{
    target_known(labels, targets.first)
        && target_known(labels, targets.second)
        && cases_known(labels, targets.cases)
}

// ---- the entry block

fn is_entry(blocks: &[Block], label: &Name) -> bool
    ensures { result ≡ places.is_entry blocks.now label.now }
{
    match blocks {
        [] => false,
        [entry, ..] => entry.label.as_slice() == label.as_slice(),
    }
}

fn target_is_entry(blocks: &[Block], target: Option<&Name>) -> bool
    ensures { result ≡ list_any (places.is_entry blocks.now) (label_seen target.entry) }
{
    match target {
        Some(label) => is_entry(blocks, label),
        None => false,
    }
}

fn cases_name_entry(blocks: &[Block], cases: &[Case]) -> bool
    ensures { result ≡ list_any (places.is_entry blocks.now) (case_labels cases.now) }
{
    'each: for case in cases {
        if is_entry(blocks, &case.label) {
            return true;
        }
    }
    false
}

/// Whether the end names the entry block.
pub fn targets_name_entry(blocks: &[Block], targets: &EndLabels<'_>) -> bool
    ensures { result ≡ list_any (places.is_entry blocks.now) (targets_seen targets.now) }
{
    target_is_entry(blocks, targets.first)
        || target_is_entry(blocks, targets.second)
        || cases_name_entry(blocks, targets.cases)
}
