//! What becomes of each pair, with nothing failed and under a failure.
ghost use Rattle.std.specs.Prelude.{◌≡◌, ◌<◌, ◌≤◌, ℕ, List, [], length, map, false, IfOk, OnOk};
ghost use Rattle.mn_candidates.specs.Pairs.{pairs_of};
ghost use Rattle.mn_failures.specs.declared.command.Part.{Part};
ghost use Rattle.mn_reach.specs.Plans.{pair_at};
ghost use Rattle.mn_reach.specs.Touched.{AreMarked};
ghost use Rattle.mn_reach.specs.Verdicts.{fate_as};
ghost use Rattle.mn_reach_run.specs.Fates.{fate_of, change_of};
ghost use Rattle.mn_reach_run.specs.Lines.{change_line};
ghost use Rattle.mn_reach_run.specs.Report.{change_at};
ghost use Rattle.mn_reach_run.specs.Playing.{HaveFailed, IsReady, IsKnown};

use crate::change::{Change, change_between};
use crate::settings::Settings;
use mn_failure_laws::alike_failures_have_the_same_fates;
use mn_reach::{Reach, Terms, Verdict};
use mn_topo::Topology;
use std::alloc::{AllocError, Global};

/// Pairs, and what becomes of them.
#[derive(Drop)]
pub struct Found {
    /// Verdicts take their memory from here.
    pub alloc: Global,
    pub reach: Reach,
    /// What becomes of each with nothing failed.
    pub whole: Vec<Verdict>,
    /// By pair whether what failed may touch it.
    pub touched: Vec<bool>,
}

/// What becomes of a pair with nothing failed.
fn whole_of(
    alloc: Global,
    topology: &Topology,
    reach: &Reach,
    settings: Settings,
    pair: usize,
) -> Result<Verdict, AllocError>
    requires ready { IsReady topology.now reach.now }
    requires failed { HaveFailed topology.now settings.ends [] reach.now }
    requires pair { pair < length (pairs_of topology.now) }
    requires least { 2 ≤ settings.ttl }
    requires most { settings.ttl ≤ 255 }
    ensures { IfOk result (λ verdict. fate_as verdict ≡ fate_of topology.now settings [] (pair_at reach.now.plan pair)) }
{
    alike_failures_have_the_same_fates();
    let mut verdict = Verdict::new(alloc);
    let terms = Terms {
        ttl: settings.ttl,
        resolve: settings.resolves(topology),
    };
    reach.fate(topology, pair, terms, &mut verdict)?;
    Ok(verdict)
}

/// Finds what becomes of each pair with nothing failed.
pub(crate) fn find_whole(
    topology: &Topology,
    found: &mut Found,
    settings: Settings,
) -> Result<(), AllocError>
    requires ready { IsReady topology.now found.old.reach }
    requires failed { HaveFailed topology.now settings.ends [] found.old.reach }
    requires least { 2 ≤ settings.ttl }
    requires most { settings.ttl ≤ 255 }
    ensures { OnOk result (IsKnown topology.now settings [] found.new) }
{
    found.whole.clear();
    for pair in 0..found.reach.pairs().len() {
        let verdict = whole_of(found.alloc, topology, &found.reach, settings, pair)?;
        found.whole.push(verdict)?;
    }
    Ok(())
}

/// What the failure changes for a pair. The verdict is filled where it changes something.
pub(crate) fn change_of(
    topology: &Topology,
    found: &Found,
    settings: Settings,
    pair: usize,
    verdict: &mut Verdict,
) -> Result<Change, AllocError>
    requires ready { IsReady topology.now found.now.reach }
    requires sound { found.now.reach.failed ≡ false }
    requires marked { AreMarked topology.now found.now.reach found.now.touched.items }
    requires each { length found.now.whole.items ≡ length (pairs_of topology.now) }
    requires pair { pair < length (pairs_of topology.now) }
    requires least { 2 ≤ settings.ttl }
    requires most { settings.ttl ≤ 255 }
    ensures change { (parts : List Part) → IsKnown topology.now settings parts found.now →
        IfOk result (λ change. change ≡ change_of topology.now settings parts (pair_at found.now.reach.plan pair)) }
    ensures line { (parts : List Part) → IsKnown topology.now settings parts found.now → (number : ℕ) →
        IfOk result (λ change. change_line topology.now number (pair_at found.now.reach.plan pair) change (fate_as verdict.new)
        ≡ change_at topology.now settings number parts (pair_at found.now.reach.plan pair)) }
{
    alike_failures_have_the_same_fates();
    if !found.touched[pair] {
        return Ok(Change::Nothing);
    }
    if found.reach.is_spared(topology, pair) {
        return Ok(Change::Nothing);
    }
    let terms = Terms {
        ttl: settings.ttl,
        resolve: settings.resolves(topology),
    };
    found.reach.fate(topology, pair, terms, verdict)?;
    Ok(change_between(&found.whole[pair], verdict))
}
