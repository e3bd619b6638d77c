//! Counts of what was told.
ghost use Rattle.std.specs.Prelude.{◌≡◌};
ghost use Rattle.mn_reach_run.specs.Report.{no_sums, plus, capped};

/// Failures, verdicts, and pairs that were lost and moved; each at most 2^64 - 1.
#[derive(Clone, Copy)]
pub struct Sums {
    pub failures: u64,
    pub verdicts: u64,
    pub lost: u64,
    pub moved: u64,
}

impl Sums {
    /// Nothing yet.
    pub(crate) fn new() -> Sums
        ensures { result ≡ no_sums }
    {
        Sums {
            failures: 0,
            verdicts: 0,
            lost: 0,
            moved: 0,
        }
    }

    /// With those of one more.
    pub(crate) fn plus(self, more: Sums) -> Sums
        ensures { result ≡ capped (plus self more) }
    {
        Sums {
            failures: self.failures.saturating_add(more.failures),
            verdicts: self.verdicts.saturating_add(more.verdicts),
            lost: self.lost.saturating_add(more.lost),
            moved: self.moved.saturating_add(more.moved),
        }
    }
}
