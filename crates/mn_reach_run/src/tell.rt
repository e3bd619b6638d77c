//! What is told of all pairs, and of one failure.
ghost use Rattle.std.specs.Prelude.{◌≡◌, ◌++◌, ◌<◌, ◌≤◌, ◌-◌, ◌^◌, ℕ, Bool, List, [], true, false, length, IfOk, OnOk};
ghost use Rattle.std.specs.List.{list_all};
ghost use Rattle.std.specs.Io.Iter.{u64_saturate};
ghost use Rattle.mn_tables.specs.Telling.{standing, Tells};
ghost use Rattle.mn_candidates.specs.Pairs.{pairs_of};
ghost use Rattle.mn_failures.specs.declared.command.Part.{Part};
ghost use Rattle.mn_failures.specs.Meaning.{part_fits};
ghost use Rattle.mn_reach.specs.Plans.{pair_at};
ghost use Rattle.mn_reach.specs.Touched.{AreMarked};
ghost use Rattle.mn_reach.specs.Verdicts.{fate_as};
ghost use Rattle.mn_reach_run.specs.Fates.{change_of};
ghost use Rattle.mn_reach_run.specs.Lines.{pair_line, change_line, resolve_word, sessions_word, profile_line};
ghost use Rattle.mn_reach_run.specs.Report.{whole_text, under_text};
ghost use Rattle.mn_reach_run.specs.Playing.{AreApart, HaveFailed, IsReady, IsKnown};
ghost use Rattle.mn_reach_run.specs.Telling.{pairs_text, told_change, told_changes, head_text, no_changes, with_change, AreCounted};

use crate::case::{Case, Failing};
use crate::change::Change;
use crate::failing::{fail, mend};
use crate::found::{Found, change_of, find_whole};
use crate::line::{put_arrival, put_counts, put_failure, put_fall, put_pair};
use crate::settings::Settings;
use itoa::Buffer;
use mn_candidates::Pair;
use mn_edge::{DeviceBad, Sink};
use mn_failures::{Part, Resolve};
use mn_lines::{Page, put_pieces as put_words};
use mn_reach::{End, Verdict};
use mn_tables::put_pieces;
use mn_topo::Topology;
use std::alloc::{AllocError, Global};

/// The page on which is told, a line before it stands there, and the verdict of which it tells.
#[derive(Drop)]
pub struct Desk {
    pub page: Page,
    pub line: Vec<u8>,
    pub verdict: Verdict,
}

impl Desk {
    /// Nothing is told yet.
    pub(crate) fn new(alloc: Global) -> Result<Desk, AllocError>
        ensures { IfOk result (λ desk. desk.page ≡ []) }
    {
        Ok(Desk {
            page: Page::new(alloc)?,
            line: Vec::new(alloc),
            verdict: Verdict::new(alloc),
        })
    }
}

/// How many pairs were lost, and how many moved.
#[derive(Clone, Copy)]
pub struct Changes {
    pub lost: u64,
    pub moved: u64,
}

impl Changes {
    /// None yet.
    fn new() -> Changes
        ensures { result ≡ no_changes }
    {
        Changes { lost: 0, moved: 0 }
    }

    /// With what changed for one pair more.
    fn with(self, change: Change) -> Changes
        requires lost { self.lost < 2 ^ 64 - 1 }
        requires moved { self.moved < 2 ^ 64 - 1 }
        ensures { result ≡ with_change self change }
    {
        match change {
            Change::Nothing => self,
            Change::Lost => Changes {
                lost: self.lost + 1,
                moved: self.moved,
            },
            Change::Moved => Changes {
                lost: self.lost,
                moved: self.moved + 1,
            },
        }
    }
}

// 1. All pairs, with nothing failed

/// Writes the line of a pair.
fn write_pair(
    line: &mut Vec<u8>,
    topology: &Topology,
    pair: Pair,
    verdict: &Verdict,
) -> Result<(), AllocError>
    ensures { OnOk result (line.new.items ≡ pair_line topology.now pair (fate_as verdict.now)) }
{
    line.clear();
    put_words(line, &[b"pair "])?;
    put_pair(line, topology, pair)?;
    match verdict.end {
        End::Arrives { site, ttl } => {
            put_arrival(line, topology, site, ttl, verdict.path.as_slice())
        }
        End::Falls { rule, node } => {
            put_words(line, &[b"dropped "])?;
            put_fall(line, topology, rule, node)
        }
    }
}

/// Puts the line of a pair.
fn tell_pair<O: Sink>(
    out: &mut O,
    desk: &mut Desk,
    topology: &Topology,
    pair: Pair,
    verdict: &Verdict,
) -> Result<(), DeviceBad>
    ensures { Tells (pair_line topology.now pair (fate_as verdict.now))
        (standing desk.old.page (O.written out.old) (O.faults out.old)) (standing desk.new.page (O.written out.new) (O.faults out.new)) result }
{
    write_pair(&mut desk.line, topology, pair, verdict)?;
    put_pieces(out, &mut desk.page, &[desk.line.as_slice()])
}

/// Puts the lines of all pairs.
fn tell_pairs<O: Sink>(
    out: &mut O,
    desk: &mut Desk,
    topology: &Topology,
    found: &Found,
) -> Result<(), DeviceBad>
    requires { length found.now.whole.items ≡ length found.now.reach.plan.pairs }
    ensures { (settings : Settings) → IsKnown topology.now settings [] found.now → Tells (pairs_text topology.now settings)
        (standing desk.old.page (O.written out.old) (O.faults out.old)) (standing desk.new.page (O.written out.new) (O.faults out.new)) result }
{
    let pairs = found.reach.pairs();
    for pair in 0..pairs.len() {
        tell_pair(out, desk, topology, pairs[pair], &found.whole[pair])?;
    }
    Ok(())
}

/// The word of how next hops are resolved.
fn resolve_word(resolve: Resolve) -> &'static str
    ensures { result.now ≡ resolve_word resolve }
{
    match resolve {
        Resolve::AsTopology => "topology",
        Resolve::Never => "no",
        Resolve::ByLabel => "label",
    }
}

/// The word of whether sessions end between edges that no links join.
fn sessions_word(ends: bool) -> &'static str
    ensures { result.now ≡ sessions_word ends }
{
    if ends { "end" } else { "stay" }
}

/// Puts the line of the choices by which is told.
fn tell_profile<O: Sink>(out: &mut O, page: &mut Page, settings: Settings) -> Result<(), DeviceBad>
    ensures { Tells (profile_line settings.resolve settings.ends)
        (standing page.old (O.written out.old) (O.faults out.old)) (standing page.new (O.written out.new) (O.faults out.new)) result }
{
    let resolve = resolve_word(settings.resolve).as_bytes();
    let sessions = sessions_word(settings.ends).as_bytes();
    put_pieces(
        out,
        page,
        &[
            b"profile equal least edges one order least interior no resolve ",
            resolve,
            b" sync no control ordered bare avoid labels site sessions ",
            sessions,
            b"\n",
        ],
    )
}

/// Finds what becomes of each pair with nothing failed, and puts it.
pub(crate) fn tell_whole<O: Sink>(
    topology: &Topology,
    settings: Settings,
    found: &mut Found,
    out: &mut O,
    desk: &mut Desk,
) -> Result<(), DeviceBad>
    requires ready { IsReady topology.now found.old.reach }
    requires whole { (ends : Bool) × HaveFailed topology.now ends [] found.old.reach }
    requires least { 2 ≤ settings.ttl }
    requires most { settings.ttl ≤ 255 }
    ensures told { Tells (whole_text topology.now settings)
        (standing desk.old.page (O.written out.old) (O.faults out.old)) (standing desk.new.page (O.written out.new) (O.faults out.new)) result }
    ensures known { OnOk result (IsKnown topology.now settings [] found.new) }
{
    found.reach.set_ends(settings.ends);
    find_whole(topology, found, settings)?;
    tell_profile(out, &mut desk.page, settings)?;
    tell_pairs(out, desk, topology, found)
}

// 2. One failure

/// Writes the line of a pair that a failure changes.
fn write_change(
    line: &mut Vec<u8>,
    case: Case<'_>,
    pair: Pair,
    change: Change,
    verdict: &Verdict,
) -> Result<(), AllocError>
    ensures { (count : ℕ) → case.entry.number ≡ u64_saturate count →
        OnOk result (line.new.items ≡ change_line case.entry.at.topology.now count pair change (fate_as verdict.now)) }
{
    let mut buffer = Buffer::new();
    let number = buffer.format(case.number).as_bytes();
    let topology = case.at.topology;
    line.clear();
    match (change, verdict.end) {
        (Change::Lost, End::Falls { rule, node }) => {
            put_words(line, &[b"lost ", number, b" "])?;
            put_pair(line, topology, pair)?;
            put_fall(line, topology, rule, node)
        }
        (Change::Moved, End::Arrives { site, ttl }) => {
            put_words(line, &[b"moved ", number, b" "])?;
            put_pair(line, topology, pair)?;
            put_arrival(line, topology, site, ttl, verdict.path.as_slice())
        }
        _ => Ok(()),
    }
}

/// Puts the line of a pair that a failure changes.
fn tell_change<O: Sink>(
    out: &mut O,
    desk: &mut Desk,
    case: Case<'_>,
    pair: Pair,
    change: Change,
) -> Result<(), DeviceBad>
    ensures { (count : ℕ) → case.entry.number ≡ u64_saturate count →
        Tells (change_line case.entry.at.topology.now count pair change (fate_as desk.old.verdict))
        (standing desk.old.page (O.written out.old) (O.faults out.old)) (standing desk.new.page (O.written out.new) (O.faults out.new)) result }
{
    if let Change::Nothing = change {
        return Ok(());
    }
    write_change(&mut desk.line, case, pair, change, &desk.verdict)?;
    put_pieces(out, &mut desk.page, &[desk.line.as_slice()])
}

/// Finds what a failure changes for a pair, and puts it where each loss is told.
fn try_pair<O: Sink>(
    out: &mut O,
    desk: &mut Desk,
    case: Case<'_>,
    found: &Found,
    pair: usize,
) -> Result<Change, DeviceBad>
    requires ready { IsReady case.at.topology.now found.now.reach }
    requires sound { found.now.reach.failed ≡ false }
    requires marked { AreMarked case.at.topology.now found.now.reach found.now.touched.items }
    requires each { length found.now.whole.items ≡ length (pairs_of case.at.topology.now) }
    requires pair { pair < length (pairs_of case.at.topology.now) }
    requires least { 2 ≤ case.at.settings.ttl }
    requires most { case.at.settings.ttl ≤ 255 }
    ensures told { (parts : List Part) → IsKnown case.entry.at.topology.now case.entry.at.settings parts found.now →
        (count : ℕ) → case.entry.number ≡ u64_saturate count →
        Tells (told_change case.entry.at.topology.now case.entry.at.settings count parts (pair_at found.now.reach.plan pair))
        (standing desk.old.page (O.written out.old) (O.faults out.old)) (standing desk.new.page (O.written out.new) (O.faults out.new)) result }
    ensures change { (parts : List Part) → IsKnown case.entry.at.topology.now case.entry.at.settings parts found.now →
        IfOk result (λ change. change ≡ change_of case.entry.at.topology.now case.entry.at.settings parts (pair_at found.now.reach.plan pair)) }
{
    let change = change_of(
        case.at.topology,
        found,
        case.at.settings,
        pair,
        &mut desk.verdict,
    )?;
    if case.at.settings.counts {
        return Ok(change);
    }
    tell_change(out, desk, case, found.reach.pairs()[pair], change)?;
    Ok(change)
}

/// Finds what a failure changes for each pair, counts it, and puts it where each loss is told.
fn tell_changes<O: Sink>(
    out: &mut O,
    desk: &mut Desk,
    case: Case<'_>,
    found: &Found,
) -> Result<Changes, DeviceBad>
    requires ready { IsReady case.at.topology.now found.now.reach }
    requires sound { found.now.reach.failed ≡ false }
    requires marked { AreMarked case.at.topology.now found.now.reach found.now.touched.items }
    requires each { length found.now.whole.items ≡ length (pairs_of case.at.topology.now) }
    requires least { 2 ≤ case.at.settings.ttl }
    requires most { case.at.settings.ttl ≤ 255 }
    ensures told { (parts : List Part) → IsKnown case.entry.at.topology.now case.entry.at.settings parts found.now →
        (count : ℕ) → case.entry.number ≡ u64_saturate count →
        Tells (told_changes case.entry.at.topology.now case.entry.at.settings count parts)
        (standing desk.old.page (O.written out.old) (O.faults out.old)) (standing desk.new.page (O.written out.new) (O.faults out.new)) result }
    ensures counted { (parts : List Part) → IsKnown case.entry.at.topology.now case.entry.at.settings parts found.now →
        IfOk result (AreCounted case.entry.at.topology.now case.entry.at.settings parts (pairs_of case.entry.at.topology.now)) }
{
    let mut changes = Changes::new();
    for pair in 0..found.reach.pairs().len() {
        let change = try_pair(out, desk, case, found, pair)?;
        changes = changes.with(change);
    }
    Ok(changes)
}

/// Writes the line of a failure, and behind its parts what it changes where only that is told.
fn write_head(
    line: &mut Vec<u8>,
    case: Case<'_>,
    parts: &[Part],
    changes: Option<Changes>,
) -> Result<(), AllocError>
    requires { list_all (part_fits case.at.topology.now) parts.now ≡ true }
    ensures { (count : ℕ) → case.entry.number ≡ u64_saturate count →
        OnOk result (line.new.items ≡ head_text case.entry.at.topology.now count case.entry.at.line parts.now changes) }
{
    line.clear();
    put_failure(line, case.at.topology, case.number, case.at.line, parts)?;
    match changes {
        Some(changes) => put_counts(line, changes.lost, changes.moved),
        None => put_words(line, &[b"\n"]),
    }
}

/// Puts the line of a failure.
fn tell_head<O: Sink>(
    out: &mut O,
    desk: &mut Desk,
    case: Case<'_>,
    parts: &[Part],
    changes: Option<Changes>,
) -> Result<(), DeviceBad>
    requires { list_all (part_fits case.at.topology.now) parts.now ≡ true }
    ensures { (count : ℕ) → case.entry.number ≡ u64_saturate count →
        Tells (head_text case.entry.at.topology.now count case.entry.at.line parts.now changes)
        (standing desk.old.page (O.written out.old) (O.faults out.old)) (standing desk.new.page (O.written out.new) (O.faults out.new)) result }
{
    write_head(&mut desk.line, case, parts, changes)?;
    put_pieces(out, &mut desk.page, &[desk.line.as_slice()])
}

/// Puts what a failure changes that has been made.
fn tell_failed<O: Sink>(
    out: &mut O,
    desk: &mut Desk,
    case: Case<'_>,
    found: &Found,
    parts: &[Part],
) -> Result<Changes, DeviceBad>
    requires fit { list_all (part_fits case.at.topology.now) parts.now ≡ true }
    requires known { IsKnown case.at.topology.now case.at.settings parts.now found.now }
    requires marked { AreMarked case.at.topology.now found.now.reach found.now.touched.items }
    ensures told { (count : ℕ) → case.entry.number ≡ u64_saturate count →
        Tells (under_text case.entry.at.topology.now case.entry.at.settings count case.entry.at.line parts.now)
        (standing desk.old.page (O.written out.old) (O.faults out.old)) (standing desk.new.page (O.written out.new) (O.faults out.new)) result }
    ensures counted { IfOk result (AreCounted case.entry.at.topology.now case.entry.at.settings parts.now (pairs_of case.entry.at.topology.now)) }
{
    if case.at.settings.counts {
        let changes = tell_changes(out, desk, case, found)?;
        tell_head(out, desk, case, parts, Some(changes))?;
        return Ok(changes);
    }
    tell_head(out, desk, case, parts, None)?;
    tell_changes(out, desk, case, found)
}

/// Puts what a failure changes: of its parts those behind the first ones are made, and mended afterwards.
pub(crate) fn tell_failure<O: Sink>(
    out: &mut O,
    desk: &mut Desk,
    case: Case<'_>,
    found: &mut Found,
    failing: Failing<'_>,
) -> Result<Changes, DeviceBad>
    requires fit { list_all (part_fits case.at.topology.now) failing.parts.now ≡ true }
    requires more_fit { list_all (part_fits case.at.topology.now) failing.more.now ≡ true }
    requires parts { failing.parts.now ≡ failing.front.now ++ failing.more.now }
    requires apart { AreApart case.at.topology.now failing.front.now failing.more.now }
    requires known { IsKnown case.at.topology.now case.at.settings failing.front.now found.old }
    ensures told { (count : ℕ) → case.entry.number ≡ u64_saturate count →
        Tells (under_text case.entry.at.topology.now case.entry.at.settings count case.entry.at.line failing.entry.parts.now)
        (standing desk.old.page (O.written out.old) (O.faults out.old)) (standing desk.new.page (O.written out.new) (O.faults out.new)) result }
    ensures counted { IfOk result (AreCounted case.entry.at.topology.now case.entry.at.settings failing.entry.parts.now (pairs_of case.entry.at.topology.now)) }
    ensures known { OnOk result (IsKnown case.entry.at.topology.now case.entry.at.settings failing.entry.front.now found.new) }
{
    fail(&mut found.reach, case.at.topology, failing.more)?;
    found.reach.mark_touched(&mut found.touched)?;
    let changes = tell_failed(out, desk, case, found, failing.parts)?;
    mend(&mut found.reach, case.at.topology, failing.more)?;
    Ok(changes)
}
