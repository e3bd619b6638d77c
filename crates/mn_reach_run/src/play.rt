//! The lines of a file of failures, one after another.
ghost use Rattle.std.specs.Prelude.{◌≡◌, ◌≤◌, [], true, false, length, All, IfOk, OnOk};
ghost use Rattle.mn_tables.specs.Telling.{standing, Tells};
ghost use Rattle.mn_candidates.specs.Pairs.{pairs_of, most_pairs};
ghost use Rattle.mn_failures.specs.Meaning.{command_fits};
ghost use Rattle.mn_reach_run.specs.Report.{whole_if_new, tasks_of_line, tasks_of, no_sums, capped, report};
ghost use Rattle.mn_reach_run.specs.Lines.{total_line};
ghost use Rattle.mn_reach_run.specs.Playing.{HaveFailed, IsReady, IsKnown, now_at, Goes, Plays};
ghost use Rattle.mn_reach_run.specs.Lasting.{first_manner, stage_of, manner_after, Lasts};

use crate::case::At;
use crate::found::Found;
use crate::settings::{Settings, is_setting};
use crate::sums::Sums;
use crate::sweep::{Player, play_failures};
use crate::tell::{Desk, tell_whole};
use itoa::Buffer;
use mn_candidates::Pair;
use mn_edge::{DeviceBad, Sink};
use mn_failures::FailureLine;
use mn_lines::Page;
use mn_reach::Reach;
use mn_tables::put_pieces;
use mn_topo::Topology;
use std::alloc::{AllocError, Global};

/// How failures are reported, and whether all pairs were reported so with nothing failed.
#[derive(Clone, Copy)]
pub struct Manner {
    pub settings: Settings,
    pub is_told: bool,
}

impl Manner {
    /// Before the first line.
    fn first() -> Manner
        ensures { result ≡ first_manner }
    {
        Manner {
            settings: Settings::first(),
            is_told: false,
        }
    }
}

/// Tells all pairs with nothing failed, where they weren't told so.
fn tell_if_new<O: Sink>(
    topology: &Topology,
    player: &mut Player,
    manner: Manner,
    out: &mut O,
) -> Result<(), DeviceBad>
    requires lasts { Lasts topology.now manner player.old.found }
    ensures told { Plays topology.now (λ number. whole_if_new (stage_of manner number))
        (now_at player.old.sums (standing player.old.desk.page (O.written out.old) (O.faults out.old)))
        (now_at player.new.sums (standing player.new.desk.page (O.written out.new) (O.faults out.new))) result }
    ensures known { OnOk result (IsKnown topology.now manner.settings [] player.new.found) }
{
    if manner.is_told {
        return Ok(());
    }
    tell_whole(
        topology,
        manner.settings,
        &mut player.found,
        out,
        &mut player.desk,
    )
}

/// Plays a line.
fn play_line<O: Sink>(
    topology: &Topology,
    player: &mut Player,
    manner: Manner,
    line: &FailureLine,
    out: &mut O,
) -> Result<(), DeviceBad>
    requires fits { command_fits topology.now line.now.command ≡ true }
    requires lasts { Lasts topology.now manner player.old.found }
    ensures told { Plays topology.now (λ number. tasks_of_line topology.now (stage_of manner number) line.now)
        (now_at player.old.sums (standing player.old.desk.page (O.written out.old) (O.faults out.old)))
        (now_at player.new.sums (standing player.new.desk.page (O.written out.new) (O.faults out.new))) result }
    ensures lasts { OnOk result (Lasts topology.now (manner_after manner line.now) player.new.found) }
{
    if is_setting(&line.command) {
        return Ok(());
    }
    tell_if_new(topology, player, manner, out)?;
    let at = At {
        topology,
        settings: manner.settings,
        line: line.number,
    };
    play_failures(player, at, &line.command, out)
}

/// How failures are reported behind a line.
fn manner_after(manner: Manner, line: &FailureLine) -> Manner
    ensures { result ≡ manner_after manner line.now }
{
    Manner {
        settings: manner.settings.after(&line.command),
        is_told: !is_setting(&line.command),
    }
}

/// Plays lines, and tells all pairs behind the last one where they weren't told so.
fn play<O: Sink>(
    topology: &Topology,
    player: &mut Player,
    lines: &[FailureLine],
    out: &mut O,
) -> Result<(), DeviceBad>
    requires ready { IsReady topology.now player.old.found.reach }
    requires whole { HaveFailed topology.now false [] player.old.found.reach }
    requires start { player.old.sums ≡ no_sums }
    requires fit { All (λ line. command_fits topology.now line.command ≡ true) lines.now }
    ensures { Goes topology.now (tasks_of topology.now lines.now) (standing player.old.desk.page (O.written out.old) (O.faults out.old))
        (now_at player.new.sums (standing player.new.desk.page (O.written out.new) (O.faults out.new))) result }
{
    let mut manner = Manner::first();
    for line in lines {
        play_line(topology, player, manner, line, out)?;
        manner = manner_after(manner, line);
    }
    tell_if_new(topology, player, manner, out)
}

/// Puts the last line.
fn put_total<O: Sink>(out: &mut O, page: &mut Page, pairs: u64, sums: Sums) -> Result<(), DeviceBad>
    ensures { (exact : Sums) → sums ≡ capped exact → Tells (total_line pairs exact.failures exact.verdicts exact.lost exact.moved)
        (standing page.old (O.written out.old) (O.faults out.old)) (standing page.new (O.written out.new) (O.faults out.new)) result }
{
    let (mut first, mut second, mut third) = (Buffer::new(), Buffer::new(), Buffer::new());
    let (mut fourth, mut fifth) = (Buffer::new(), Buffer::new());
    let pairs = first.format(pairs).as_bytes();
    let failures = second.format(sums.failures).as_bytes();
    let verdicts = third.format(sums.verdicts).as_bytes();
    let lost = fourth.format(sums.lost).as_bytes();
    let moved = fifth.format(sums.moved).as_bytes();
    put_pieces(
        out,
        page,
        &[
            b"total pairs ",
            pairs,
            b" failures ",
            failures,
            b" verdicts ",
            verdicts,
            b" lost ",
            lost,
            b" part 0 moved ",
            moved,
            b"\n",
        ],
    )
}

/// A player of these pairs, with nothing failed and nothing told.
pub(crate) fn new_player(
    alloc: Global,
    topology: &Topology,
    pairs: Vec<Pair>,
) -> Result<Player, AllocError>
    requires pairs { pairs.items ≡ pairs_of topology.now }
    requires few { length pairs.items ≤ most_pairs }
    ensures ready { IfOk result (λ player. IsReady topology.now player.found.reach) }
    ensures whole { IfOk result (λ player. HaveFailed topology.now false [] player.found.reach) }
    ensures start { IfOk result (λ player. player.sums ≡ no_sums) }
    ensures page { IfOk result (λ player. player.desk.page ≡ []) }
{
    let desk = Desk::new(alloc)?;
    let reach = Reach::new(alloc, topology, pairs)?;
    Ok(Player {
        found: Found {
            alloc,
            reach,
            whole: Vec::new(alloc),
            touched: Vec::new(alloc),
        },
        desk,
        sums: Sums::new(),
    })
}

/// Puts the report of a file of failures.
pub(crate) fn put_report<O: Sink>(
    topology: &Topology,
    player: &mut Player,
    lines: &[FailureLine],
    out: &mut O,
) -> Result<(), DeviceBad>
    requires ready { IsReady topology.now player.old.found.reach }
    requires whole { HaveFailed topology.now false [] player.old.found.reach }
    requires start { player.old.sums ≡ no_sums }
    requires fit { All (λ line. command_fits topology.now line.command ≡ true) lines.now }
    ensures { Tells (report topology.now lines.now) (standing player.old.desk.page (O.written out.old) (O.faults out.old))
        (standing player.new.desk.page (O.written out.new) (O.faults out.new)) result }
{
    let count = player.found.reach.pairs().len() as u64;
    play(topology, player, lines, out)?;
    put_total(out, &mut player.desk.page, count, player.sums)
}
