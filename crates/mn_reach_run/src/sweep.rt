//! The failures for which a line stands, one after another.
ghost use Rattle.std.specs.Prelude.{◌≡◌, ◌<◌, ◌++◌, ◌&&◌, ◌||◌, ◌∷◌, [], nat_lt, true, length, OnOk};
ghost use Rattle.std.specs.List.{list_all, flat_map, range_with_len};
ghost use Rattle.mn_topo.specs.VrfTable.{is_edge};
ghost use Rattle.mn_tables.specs.Telling.{standing};
ghost use Rattle.mn_failures.specs.Failures.{link_down, two_with, third_with, three_with, first_with, each_many, exchange, session_of, edge_of, each_bgp, each_of, failures_of};
ghost use Rattle.mn_failures.specs.Meaning.{part_fits, command_fits};
ghost use Rattle.mn_reach_run.specs.Playing.{AreApart, IsKnown, now_at, Sweeps};
ghost use Rattle.mn_reach_run.specs.Sweeping.{part_of, alone, count_of};

use crate::case::{At, Case, Failing};
use crate::failing::{fail, link_count, mend};
use crate::found::Found;
use crate::sums::Sums;
use crate::tell::{Desk, tell_failure};
use mn_base::{LinkNo, NodeNo};
use mn_edge::{DeviceBad, Sink};
use mn_failures::{Each, FailureCommand, Part, exchange};
use mn_topo::Topology;
use mn_wiring::Dir;

/// What is known and was told so far.
#[derive(Drop)]
pub struct Player {
    pub found: Found,
    pub desk: Desk,
    pub sums: Sums,
}

/// How many links fail at once, 2 or 3, and which may be the first.
#[derive(Clone, Copy)]
pub struct Asked {
    pub many: u8,
    pub from: u16,
    pub to: u16,
}

/// What fails one by one for `each link`, `each ldp` and `each node`.
#[derive(Clone, Copy)]
pub enum Kind {
    Link,
    Ldp,
    Node,
}

/// Plays one failure, of whose parts the first ones have failed already.
fn play_with<O: Sink>(
    player: &mut Player,
    at: At<'_>,
    failing: Failing<'_>,
    out: &mut O,
) -> Result<(), DeviceBad>
    requires fit { list_all (part_fits at.topology.now) failing.parts.now ≡ true }
    requires more_fit { list_all (part_fits at.topology.now) failing.more.now ≡ true }
    requires parts { failing.parts.now ≡ failing.front.now ++ failing.more.now }
    requires apart { AreApart at.topology.now failing.front.now failing.more.now }
    requires known { IsKnown at.topology.now at.settings failing.front.now player.old.found }
    ensures told { Sweeps at.entry.topology.now at.entry.settings at.entry.line (failing.entry.parts.now ∷ [])
        (now_at player.old.sums (standing player.old.desk.page (O.written out.old) (O.faults out.old)))
        (now_at player.new.sums (standing player.new.desk.page (O.written out.new) (O.faults out.new))) result }
    ensures known { OnOk result (IsKnown at.entry.topology.now at.entry.settings failing.entry.front.now player.new.found) }
{
    let case = Case {
        at,
        number: player.sums.failures.saturating_add(1),
    };
    let changes = tell_failure(out, &mut player.desk, case, &mut player.found, failing)?;
    player.sums = player.sums.plus(Sums {
        failures: 1,
        verdicts: player.found.reach.pairs().len() as u64,
        lost: changes.lost,
        moved: changes.moved,
    });
    Ok(())
}

/// Plays one failure.
fn play_one<O: Sink>(
    player: &mut Player,
    at: At<'_>,
    parts: &[Part],
    out: &mut O,
) -> Result<(), DeviceBad>
    requires fit { list_all (part_fits at.topology.now) parts.now ≡ true }
    requires known { IsKnown at.topology.now at.settings [] player.old.found }
    ensures told { Sweeps at.entry.topology.now at.entry.settings at.entry.line (parts.now ∷ [])
        (now_at player.old.sums (standing player.old.desk.page (O.written out.old) (O.faults out.old)))
        (now_at player.new.sums (standing player.new.desk.page (O.written out.new) (O.faults out.new))) result }
    ensures known { OnOk result (IsKnown at.entry.topology.now at.entry.settings [] player.new.found) }
{
    let failing = Failing {
        parts,
        front: &[],
        more: parts,
    };
    play_with(player, at, failing, out)
}

/// The part of a kind by its number.
fn part_of(kind: Kind, number: u16) -> Part
    ensures { result ≡ part_of kind number }
{
    match kind {
        Kind::Link => Part::LinkDown(LinkNo(number), Dir::Forth),
        Kind::Ldp => Part::LdpOff(LinkNo(number), Dir::Forth),
        Kind::Node => Part::NodeDown(NodeNo(number)),
    }
}

/// How many there are of a kind.
fn count_of(topology: &Topology, kind: Kind) -> u16
    ensures { result ≡ count_of topology.now kind }
{
    topology.laws();
    match kind {
        Kind::Link | Kind::Ldp => topology.links().len() as u16,
        Kind::Node => topology.nodes().len() as u16,
    }
}

/// Plays the failure of each one of a kind.
fn play_kind<O: Sink>(
    player: &mut Player,
    at: At<'_>,
    kind: Kind,
    out: &mut O,
) -> Result<(), DeviceBad>
    requires known { IsKnown at.topology.now at.settings [] player.old.found }
    ensures told { Sweeps at.entry.topology.now at.entry.settings at.entry.line (flat_map (alone kind) (range_with_len 0 (count_of at.entry.topology.now kind)))
        (now_at player.old.sums (standing player.old.desk.page (O.written out.old) (O.faults out.old)))
        (now_at player.new.sums (standing player.new.desk.page (O.written out.new) (O.faults out.new))) result }
    ensures known { OnOk result (IsKnown at.entry.topology.now at.entry.settings [] player.new.found) }
{
    for number in 0..count_of(at.topology, kind) {
        play_one(player, at, &[part_of(kind, number)], out)?;
    }
    Ok(())
}

/// Whether the second of two nodes is an edge of greater number, and they exchange routes.
fn is_session(topology: &Topology, one: u16, other: u16) -> bool
    ensures { result ≡ (nat_lt one other && (is_edge topology.now.vrfs other && exchange topology.now one other)) }
{
    one < other && topology.is_edge(NodeNo(other)) && exchange(topology, NodeNo(one), NodeNo(other))
}

/// Plays that the session of two edges is down, where the first is the lesser and they exchange routes.
fn play_session<O: Sink>(
    player: &mut Player,
    at: At<'_>,
    one: u16,
    other: u16,
    out: &mut O,
) -> Result<(), DeviceBad>
    requires one { is_edge at.topology.now.vrfs one ≡ true }
    requires other { other < length at.topology.now.loopbacks }
    requires known { IsKnown at.topology.now at.settings [] player.old.found }
    ensures told { Sweeps at.entry.topology.now at.entry.settings at.entry.line (session_of at.entry.topology.now one other)
        (now_at player.old.sums (standing player.old.desk.page (O.written out.old) (O.faults out.old)))
        (now_at player.new.sums (standing player.new.desk.page (O.written out.new) (O.faults out.new))) result }
    ensures known { OnOk result (IsKnown at.entry.topology.now at.entry.settings [] player.new.found) }
{
    if !is_session(at.topology, one, other) {
        return Ok(());
    }
    let part = Part::BgpDown(NodeNo(one), NodeNo(other));
    play_one(player, at, &[part], out)
}

/// How many nodes there are: at most 256.
fn node_count(topology: &Topology) -> u16
    ensures { result ≡ length topology.now.loopbacks }
{
    topology.laws();
    topology.nodes().len() as u16
}

/// Plays the sessions of an edge with those of greater number.
fn play_sessions_of<O: Sink>(
    player: &mut Player,
    at: At<'_>,
    one: u16,
    out: &mut O,
) -> Result<(), DeviceBad>
    requires known { IsKnown at.topology.now at.settings [] player.old.found }
    ensures told { Sweeps at.entry.topology.now at.entry.settings at.entry.line (edge_of at.entry.topology.now one)
        (now_at player.old.sums (standing player.old.desk.page (O.written out.old) (O.faults out.old)))
        (now_at player.new.sums (standing player.new.desk.page (O.written out.new) (O.faults out.new))) result }
    ensures known { OnOk result (IsKnown at.entry.topology.now at.entry.settings [] player.new.found) }
{
    if !at.topology.is_edge(NodeNo(one)) {
        return Ok(());
    }
    for other in 0..node_count(at.topology) {
        play_session(player, at, one, other, out)?;
    }
    Ok(())
}

/// Plays each session of two edges that exchange routes.
fn play_sessions<O: Sink>(player: &mut Player, at: At<'_>, out: &mut O) -> Result<(), DeviceBad>
    requires known { IsKnown at.topology.now at.settings [] player.old.found }
    ensures told { Sweeps at.entry.topology.now at.entry.settings at.entry.line (each_bgp at.entry.topology.now)
        (now_at player.old.sums (standing player.old.desk.page (O.written out.old) (O.faults out.old)))
        (now_at player.new.sums (standing player.new.desk.page (O.written out.new) (O.faults out.new))) result }
    ensures known { OnOk result (IsKnown at.entry.topology.now at.entry.settings [] player.new.found) }
{
    for one in 0..node_count(at.topology) {
        play_sessions_of(player, at, one, out)?;
    }
    Ok(())
}

fn link_down(link: u16) -> Part
    ensures { result ≡ link_down link }
{
    Part::LinkDown(LinkNo(link), Dir::Forth)
}

/// Plays two links down of which the first is this one, which is down already.
fn play_seconds<O: Sink>(
    player: &mut Player,
    at: At<'_>,
    first: u16,
    out: &mut O,
) -> Result<(), DeviceBad>
    requires there { first < length at.topology.now.links }
    requires known { IsKnown at.topology.now at.settings (link_down first ∷ []) player.old.found }
    ensures told { Sweeps at.entry.topology.now at.entry.settings at.entry.line (two_with at.entry.topology.now first)
        (now_at player.old.sums (standing player.old.desk.page (O.written out.old) (O.faults out.old)))
        (now_at player.new.sums (standing player.new.desk.page (O.written out.new) (O.faults out.new))) result }
    ensures known { OnOk result (IsKnown at.entry.topology.now at.entry.settings (link_down first ∷ []) player.new.found) }
{
    let links = link_count(at.topology);
    for second in first + 1..links {
        let one = link_down(first);
        let two = link_down(second);
        let failing = Failing {
            parts: &[one, two],
            front: &[one],
            more: &[two],
        };
        play_with(player, at, failing, out)?;
    }
    Ok(())
}

/// Plays two links down of which the first is this one. It goes down once for all of them.
fn play_two<O: Sink>(
    player: &mut Player,
    at: At<'_>,
    first: u16,
    out: &mut O,
) -> Result<(), DeviceBad>
    requires there { first < length at.topology.now.links }
    requires known { IsKnown at.topology.now at.settings [] player.old.found }
    ensures told { Sweeps at.entry.topology.now at.entry.settings at.entry.line (two_with at.entry.topology.now first)
        (now_at player.old.sums (standing player.old.desk.page (O.written out.old) (O.faults out.old)))
        (now_at player.new.sums (standing player.new.desk.page (O.written out.new) (O.faults out.new))) result }
    ensures known { OnOk result (IsKnown at.entry.topology.now at.entry.settings [] player.new.found) }
{
    fail(&mut player.found.reach, at.topology, &[link_down(first)])?;
    play_seconds(player, at, first, out)?;
    mend(&mut player.found.reach, at.topology, &[link_down(first)])?;
    Ok(())
}

/// Plays three links down of which the first two are these, which are down already.
fn play_thirds<O: Sink>(
    player: &mut Player,
    at: At<'_>,
    first: u16,
    second: u16,
    out: &mut O,
) -> Result<(), DeviceBad>
    requires first { first < length at.topology.now.links }
    requires second { second < length at.topology.now.links }
    requires behind { first < second }
    requires known { IsKnown at.topology.now at.settings (link_down first ∷ link_down second ∷ []) player.old.found }
    ensures told { Sweeps at.entry.topology.now at.entry.settings at.entry.line (third_with at.entry.topology.now first second)
        (now_at player.old.sums (standing player.old.desk.page (O.written out.old) (O.faults out.old)))
        (now_at player.new.sums (standing player.new.desk.page (O.written out.new) (O.faults out.new))) result }
    ensures known { OnOk result (IsKnown at.entry.topology.now at.entry.settings (link_down first ∷ link_down second ∷ []) player.new.found) }
{
    let links = link_count(at.topology);
    for third in second + 1..links {
        let one = link_down(first);
        let two = link_down(second);
        let three = link_down(third);
        let failing = Failing {
            parts: &[one, two, three],
            front: &[one, two],
            more: &[three],
        };
        play_with(player, at, failing, out)?;
    }
    Ok(())
}

/// Plays three links down of which the first two are these. The first is down already, and the second goes down once for all of them.
fn play_middle<O: Sink>(
    player: &mut Player,
    at: At<'_>,
    first: u16,
    second: u16,
    out: &mut O,
) -> Result<(), DeviceBad>
    requires first { first < length at.topology.now.links }
    requires second { second < length at.topology.now.links }
    requires behind { first < second }
    requires known { IsKnown at.topology.now at.settings (link_down first ∷ []) player.old.found }
    ensures told { Sweeps at.entry.topology.now at.entry.settings at.entry.line (third_with at.entry.topology.now first second)
        (now_at player.old.sums (standing player.old.desk.page (O.written out.old) (O.faults out.old)))
        (now_at player.new.sums (standing player.new.desk.page (O.written out.new) (O.faults out.new))) result }
    ensures known { OnOk result (IsKnown at.entry.topology.now at.entry.settings (link_down first ∷ []) player.new.found) }
{
    fail(&mut player.found.reach, at.topology, &[link_down(second)])?;
    play_thirds(player, at, first, second, out)?;
    mend(&mut player.found.reach, at.topology, &[link_down(second)])?;
    Ok(())
}

/// Plays three links down of which the first is this one, which is down already.
fn play_middles<O: Sink>(
    player: &mut Player,
    at: At<'_>,
    first: u16,
    out: &mut O,
) -> Result<(), DeviceBad>
    requires there { first < length at.topology.now.links }
    requires known { IsKnown at.topology.now at.settings (link_down first ∷ []) player.old.found }
    ensures told { Sweeps at.entry.topology.now at.entry.settings at.entry.line (three_with at.entry.topology.now first)
        (now_at player.old.sums (standing player.old.desk.page (O.written out.old) (O.faults out.old)))
        (now_at player.new.sums (standing player.new.desk.page (O.written out.new) (O.faults out.new))) result }
    ensures known { OnOk result (IsKnown at.entry.topology.now at.entry.settings (link_down first ∷ []) player.new.found) }
{
    let links = link_count(at.topology);
    for second in first + 1..links {
        play_middle(player, at, first, second, out)?;
    }
    Ok(())
}

/// Plays three links down of which the first is this one. It goes down once for all of them.
fn play_three<O: Sink>(
    player: &mut Player,
    at: At<'_>,
    first: u16,
    out: &mut O,
) -> Result<(), DeviceBad>
    requires there { first < length at.topology.now.links }
    requires known { IsKnown at.topology.now at.settings [] player.old.found }
    ensures told { Sweeps at.entry.topology.now at.entry.settings at.entry.line (three_with at.entry.topology.now first)
        (now_at player.old.sums (standing player.old.desk.page (O.written out.old) (O.faults out.old)))
        (now_at player.new.sums (standing player.new.desk.page (O.written out.new) (O.faults out.new))) result }
    ensures known { OnOk result (IsKnown at.entry.topology.now at.entry.settings [] player.new.found) }
{
    fail(&mut player.found.reach, at.topology, &[link_down(first)])?;
    play_middles(player, at, first, out)?;
    mend(&mut player.found.reach, at.topology, &[link_down(first)])?;
    Ok(())
}

/// Whether the first link is none of those that were asked for.
fn is_outside(asked: Asked, first: u16) -> bool
    ensures { result ≡ (nat_lt first asked.from || nat_lt asked.to first) }
{
    first < asked.from || asked.to < first
}

/// Plays two links down, or three, of which the first is this one, where it is one of those that were asked for.
fn play_first<O: Sink>(
    player: &mut Player,
    at: At<'_>,
    asked: Asked,
    first: u16,
    out: &mut O,
) -> Result<(), DeviceBad>
    requires there { first < length at.topology.now.links }
    requires known { IsKnown at.topology.now at.settings [] player.old.found }
    ensures told { Sweeps at.entry.topology.now at.entry.settings at.entry.line (first_with at.entry.topology.now asked.many asked.from asked.to first)
        (now_at player.old.sums (standing player.old.desk.page (O.written out.old) (O.faults out.old)))
        (now_at player.new.sums (standing player.new.desk.page (O.written out.new) (O.faults out.new))) result }
    ensures known { OnOk result (IsKnown at.entry.topology.now at.entry.settings [] player.new.found) }
{
    if is_outside(asked, first) {
        return Ok(());
    }
    if asked.many == 2 {
        play_two(player, at, first, out)
    } else {
        play_three(player, at, first, out)
    }
}

/// Plays each two links down, or each three, of which the first was asked for.
fn play_many<O: Sink>(
    player: &mut Player,
    at: At<'_>,
    asked: Asked,
    out: &mut O,
) -> Result<(), DeviceBad>
    requires known { IsKnown at.topology.now at.settings [] player.old.found }
    ensures told { Sweeps at.entry.topology.now at.entry.settings at.entry.line (each_many at.entry.topology.now asked.many asked.from asked.to)
        (now_at player.old.sums (standing player.old.desk.page (O.written out.old) (O.faults out.old)))
        (now_at player.new.sums (standing player.new.desk.page (O.written out.new) (O.faults out.new))) result }
    ensures known { OnOk result (IsKnown at.entry.topology.now at.entry.settings [] player.new.found) }
{
    for first in 0..link_count(at.topology) {
        play_first(player, at, asked, first, out)?;
    }
    Ok(())
}

/// Plays the failures of an `each` line.
fn play_each<O: Sink>(
    player: &mut Player,
    at: At<'_>,
    each: Each,
    out: &mut O,
) -> Result<(), DeviceBad>
    requires known { IsKnown at.topology.now at.settings [] player.old.found }
    ensures told { Sweeps at.entry.topology.now at.entry.settings at.entry.line (each_of at.entry.topology.now each)
        (now_at player.old.sums (standing player.old.desk.page (O.written out.old) (O.faults out.old)))
        (now_at player.new.sums (standing player.new.desk.page (O.written out.new) (O.faults out.new))) result }
    ensures known { OnOk result (IsKnown at.entry.topology.now at.entry.settings [] player.new.found) }
{
    match each {
        Each::Link => play_kind(player, at, Kind::Link, out),
        Each::Ldp => play_kind(player, at, Kind::Ldp, out),
        Each::Node => play_kind(player, at, Kind::Node, out),
        Each::Bgp => play_sessions(player, at, out),
        Each::Links { many, from, to } => {
            let asked = Asked { many, from, to };
            play_many(player, at, asked, out)
        }
    }
}

/// Plays the failures for which a command stands.
pub(crate) fn play_failures<O: Sink>(
    player: &mut Player,
    at: At<'_>,
    command: &FailureCommand,
    out: &mut O,
) -> Result<(), DeviceBad>
    requires fits { command_fits at.topology.now command.now ≡ true }
    requires known { IsKnown at.topology.now at.settings [] player.old.found }
    ensures told { Sweeps at.entry.topology.now at.entry.settings at.entry.line (failures_of at.entry.topology.now command.now)
        (now_at player.old.sums (standing player.old.desk.page (O.written out.old) (O.faults out.old)))
        (now_at player.new.sums (standing player.new.desk.page (O.written out.new) (O.faults out.new))) result }
    ensures known { OnOk result (IsKnown at.entry.topology.now at.entry.settings [] player.new.found) }
{
    match command {
        FailureCommand::Fail(parts) => play_one(player, at, parts.as_slice(), out),
        FailureCommand::Each(each) => play_each(player, at, *each, out),
        FailureCommand::Sessions { .. }
        | FailureCommand::Resolve(_)
        | FailureCommand::Losses
        | FailureCommand::Counts
        | FailureCommand::Ttl(_) => Ok(()),
    }
}
