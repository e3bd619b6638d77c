//! What a failure changes for a pair.
ghost use Rattle.std.specs.Prelude.{◌≡◌};
ghost use Rattle.std.specs.Str.{bytes_eq};
ghost use Rattle.mn_reach.specs.Plans.{numbers_of};
ghost use Rattle.mn_reach.specs.Verdicts.{fate_as};
ghost use Rattle.mn_reach_run.specs.Fates.{change_between};

use mn_base::NodeNo;
use mn_reach::{End, Verdict};

/// What a failure changes for the packets of a pair.
#[derive(Clone, Copy)]
pub enum Change {
    /// They are delivered as before, or dropped as before, by whatever rule.
    Nothing,
    /// They were delivered, and are dropped.
    Lost,
    /// They are delivered at another site, with another TTL or on another path, or were dropped before.
    Moved,
}

/// Whether two paths are the same.
fn is_same_path(one: &[NodeNo], other: &[NodeNo]) -> bool
    ensures { result ≡ bytes_eq (numbers_of one.now) (numbers_of other.now) }
{
    one == other
}

/// What changed from one verdict to another.
pub(crate) fn change_between(before: &Verdict, after: &Verdict) -> Change
    ensures { result ≡ change_between (fate_as before.now) (fate_as after.now) }
{
    match (before.end, after.end) {
        (
            End::Arrives { site, ttl },
            End::Arrives {
                site: other,
                ttl: left,
            },
        ) => {
            let is_same = site.0 == other.0
                && ttl == left
                && is_same_path(before.path.as_slice(), after.path.as_slice());
            if is_same {
                Change::Nothing
            } else {
                Change::Moved
            }
        }
        (End::Arrives { .. }, End::Falls { .. }) => Change::Lost,
        (End::Falls { .. }, End::Arrives { .. }) => Change::Moved,
        (End::Falls { .. }, End::Falls { .. }) => Change::Nothing,
    }
}
