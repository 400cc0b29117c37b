//! What comes of a case.
ghost use Rattle.std.specs.Prelude.{◌≡◌, ◌↔◌, ◌&&◌, ◌==◌, true};
ghost use Rattle.std.specs.Str.{bytes_eq};
ghost use Rattle.ndc_cases.specs.declared.verdict.Verdict.TheVariants.{Passes};

use crate::answer::Answer;
use crate::case::Case;

/// What comes of a case.
#[derive(Clone, Copy, Debug, PartialEq, Eq)]
pub enum Verdict {
    /// It answers as wanted.
    Passes,
    /// It answers otherwise.
    Differs,
}

/// What comes of cases, counted.
#[derive(Drop)]
pub struct Counts {
    pub passed: u64,
    pub differing: u64,
}

/// Whether the answer is the wanted one, to the last byte.
fn is_wanted(case: &Case, answer: &Answer) -> bool
    ensures { result ≡ ((answer.now.status == case.now.status) && bytes_eq answer.now.output.items case.now.output && bytes_eq answer.now.told.items case.now.told) }
{
    answer.status == case.status()
        && answer.output.as_slice() == case.output()
        && answer.told.as_slice() == case.told()
}

/// What comes of a case by its answer. It passes exactly where the status and all bytes are the wanted ones.
pub fn verdict_of(case: &Case, answer: &Answer) -> Verdict
    ensures { (result ≡ Passes) ↔ (((answer.now.status == case.now.status) && bytes_eq answer.now.output.items case.now.output && bytes_eq answer.now.told.items case.now.told) ≡ true) }
{
    if is_wanted(case, answer) {
        Verdict::Passes
    } else {
        Verdict::Differs
    }
}

impl Counts {
    ghost use Rattle.std.specs.Prelude.{◌≡◌, ◌≢◌};
    ghost use Rattle.ndc_cases.specs.declared.verdict.Verdict.TheVariants.{Passes, Differs};

    /// Nothing was counted yet.
    pub fn new() -> Counts
        ensures { result ≡ record { passed = 0; differing = 0 } }
    {
        Counts {
            passed: 0,
            differing: 0,
        }
    }

    /// Counts one case more.
    pub fn count(&mut self, verdict: Verdict)
        ensures passed { verdict ≢ Passes → self.new.passed ≡ self.old.passed }
        ensures differing { verdict ≢ Differs → self.new.differing ≡ self.old.differing }
    {
        match verdict {
            Verdict::Passes => self.passed = self.passed.saturating_add(1),
            Verdict::Differs => self.differing = self.differing.saturating_add(1),
        }
    }
}
