//! Pairs that what failed may touch.
ghost use Rattle.std.specs.Prelude.{ℕ, ◌≡◌, ◌<◌, ◌&&◌, length, false, true, OnOk};
ghost use Rattle.std.specs.List.{Contains};
ghost use Rattle.mn_base.specs.declared.numbers.NodeNo.{NodeNo};
ghost use Rattle.mn_wiring.specs.Wiring.{is_up};
ghost use Rattle.mn_topo.specs.Network.{Network};
ghost use Rattle.mn_reach.specs.Plans.{IsOf, pairs_at};
ghost use Rattle.mn_reach.specs.Touched.{AreMarked, KeepMarks, is_marked};

use crate::reach::Reach;
use crate::spared::is_whole;
use mn_base::{ListOf, NodeNo};
use mn_way_laws::a_path_that_is_spared_stays;
use std::alloc::AllocError;

/// Marks these pairs.
fn mark_all(marks: &mut Vec<bool>, pairs: &[usize])
    ensures keep { KeepMarks marks.old.items marks.new.items }
    ensures marked { (k : ℕ) → k < length marks.old.items → Contains pairs.now k → is_marked marks.new.items k ≡ true }
{
    for pair in pairs {
        if *pair < marks.len() {
            marks[*pair] = true;
        }
    }
}

/// Marks the pairs of one list.
fn mark_list(marks: &mut Vec<bool>, lists: &[ListOf<usize>], at: usize)
    ensures keep { KeepMarks marks.old.items marks.new.items }
    ensures marked { (k : ℕ) → k < length marks.old.items → Contains (pairs_at lists.now at) k → is_marked marks.new.items k ≡ true }
{
    if at < lists.len() {
        mark_all(marks, lists[at].as_slice());
    }
}

/// Marks the pairs of each link that is down or has no LDP.
fn mark_by_links(marks: &mut Vec<bool>, by_link: &[ListOf<usize>], up: &[bool], ldp: &[bool])
    ensures keep { KeepMarks marks.old.items marks.new.items }
    ensures marked { (l k : ℕ) → (is_up up.now l && is_up ldp.now l) ≡ false → k < length marks.old.items → Contains (pairs_at by_link.now l) k →
        is_marked marks.new.items k ≡ true }
{
    for link in 0..by_link.len() {
        if !is_whole(up, ldp, link) {
            mark_list(marks, by_link, link);
        }
    }
}

/// Marks the pairs of both edges of each session.
fn mark_by_sessions(marks: &mut Vec<bool>, by_home: &[ListOf<usize>], sessions: &[(NodeNo, NodeNo)])
    ensures keep { KeepMarks marks.old.items marks.new.items }
    ensures one { (session : NodeNo × NodeNo) (k : ℕ) → Contains sessions.now session → k < length marks.old.items →
        Contains (pairs_at by_home.now session.0.0) k → is_marked marks.new.items k ≡ true }
    ensures other { (session : NodeNo × NodeNo) (k : ℕ) → Contains sessions.now session → k < length marks.old.items →
        Contains (pairs_at by_home.now session.1.0) k → is_marked marks.new.items k ≡ true }
{
    for session in sessions {
        mark_list(marks, by_home, usize::from(session.0.0));
        mark_list(marks, by_home, usize::from(session.1.0));
    }
}

impl Reach {
    /// Marks the pairs that what failed may touch. Of what the packets of any other pair may need nothing failed, and they fare as if
    /// nothing had failed at all.
    ///
    /// An `Err` means out of memory: the marks are then of no use.
    pub fn mark_touched(&self, marks: &mut Vec<bool>) -> Result<(), AllocError>
        ensures { OnOk result ((topology : Network) → IsOf topology self.now.plan → AreMarked topology self.now marks.new.items) }
    {
        a_path_that_is_spared_stays();
        marks.resize(self.pairs.len(), false)?;
        marks.fill(false);
        mark_by_links(
            marks,
            self.by_link.as_slice(),
            self.up.as_slice(),
            self.ldp.as_slice(),
        );
        mark_by_sessions(marks, self.by_home.as_slice(), self.ended.as_slice());
        Ok(())
    }
}
