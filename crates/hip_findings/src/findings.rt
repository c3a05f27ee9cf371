//! What a run found.

ghost use Rattle.std.specs.Prelude.{◌≡◌};

use crate::reports::SharedReports;
use hip_runs::Marks;
use std::marker::Model;

/// What a run found, whose reports share their call paths. Contracts see the `Findings`.
pub struct SharedFindings {
    reports: SharedReports,
    marks: Marks,
}

// Written by hand, so that the drop is proved here and not again in each crate that drops findings.
impl Drop for SharedFindings {
    fn drop(self) {
        let SharedFindings {
            reports: _,
            marks: _,
        } = self;
    }
}

impl Model for SharedFindings {
    ghost use Rattle.hip_runs.specs.declared.report.Findings.{Findings};

    ghost Value = { Findings };

    ghost view = { λ f. record { reports = f.reports; marks = f.marks } };
}

impl SharedFindings {
    /// The findings with these reports and marks.
    pub fn new(reports: SharedReports, marks: Marks) -> SharedFindings
        ensures { result ≡ record { reports = reports; marks = marks } }
    {
        SharedFindings { reports, marks }
    }

    /// The reports, in the order of the checks.
    pub fn reports(&self) -> &SharedReports
        ensures { result.now ≡ self.now.reports }
    {
        &self.reports
    }

    /// The marks.
    pub fn marks(&self) -> &Marks
        ensures { result.now ≡ self.now.marks }
    {
        &self.marks
    }
}
