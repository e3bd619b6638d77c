//! All lines, by their first word.
ghost use Rattle.std.specs.Prelude.{◌≡◌, ◌≤◌, true, IfOk, IfSome};
ghost use Rattle.mn_topo.specs.Network.{Network};
ghost use Rattle.mn_script.specs.Words.{texts};
ghost use Rattle.mn_script.specs.Lines.{run_line, bounded_drain, drain_line, flush_line, plain_show, show_tree, show_vrf, show_frame, show_line, table_line, do_line, damaged_line, command_line, line_says, show_fits, command_fits};
ghost use Rattle.mn_script.specs.Script.{command_says};

use crate::damages::damage_line;
use crate::operands::{node_in, number_in, vrf_in};
use crate::steps::{MOST_TICKS, step_line};
use crate::words::{counted, is_word, word_at};
use crate::{Command, Line, ScriptRule, Show};
use mn_base::MOST_STEPS;
use mn_topo::Topology;

/// `run T`.
#[tactic(auto, unfolding(crate::specs::Lines::run_line))]
fn run_line(words: &[&[u8]]) -> Result<Command, ScriptRule>
    ensures value { result ≡ run_line (texts words.now) }
    ensures fits { (network : Network) → IfOk result (λ command. command_fits network command ≡ true) }
{
    counted(words, 2)?;
    let ticks = number_in(word_at(words, 1), 0, MOST_TICKS)?;
    Ok(Command::Run(ticks))
}

/// `drain N`.
#[tactic(auto, unfolding(crate::specs::Lines::bounded_drain))]
fn bounded_drain(words: &[&[u8]]) -> Result<Command, ScriptRule>
    ensures value { result ≡ bounded_drain (texts words.now) }
    ensures fits { (network : Network) → IfOk result (λ command. command_fits network command ≡ true) }
{
    counted(words, 2)?;
    let steps = number_in(word_at(words, 1), 0, MOST_STEPS)?;
    Ok(Command::Drain(Some(steps)))
}

/// `drain N`, or `drain` with no bound.
#[tactic(auto, unfolding(crate::specs::Lines::drain_line))]
pub fn drain_line(words: &[&[u8]]) -> Result<Command, ScriptRule>
    ensures value { result ≡ drain_line (texts words.now) }
    ensures fits { (network : Network) → IfOk result (λ command. command_fits network command ≡ true) }
{
    if words.len() == 1 {
        Ok(Command::Drain(None))
    } else {
        bounded_drain(words)
    }
}

/// `flush`.
#[tactic(auto, unfolding(crate::specs::Lines::flush_line))]
fn flush_line(words: &[&[u8]]) -> Result<Command, ScriptRule>
    ensures value { result ≡ flush_line (texts words.now) }
    ensures fits { (network : Network) → IfOk result (λ command. command_fits network command ≡ true) }
{
    counted(words, 1)?;
    Ok(Command::Flush)
}

/// `show links`, `show ldp`, `show bgp`, `show flight`.
#[tactic(auto, unfolding(crate::specs::Lines::plain_show))]
fn plain_show(words: &[&[u8]], table: Show) -> Result<Show, ScriptRule>
    ensures value { result ≡ plain_show (texts words.now) table }
    ensures same { IfOk result (λ shown. shown ≡ table) }
{
    counted(words, 2)?;
    Ok(table)
}

/// `show tree N`.
#[tactic(auto, unfolding(crate::specs::Lines::show_tree))]
fn show_tree(topology: &Topology, words: &[&[u8]]) -> Result<Show, ScriptRule>
    ensures value { result ≡ show_tree topology.now (texts words.now) }
    ensures fits { IfOk result (λ table. show_fits topology.now table ≡ true) }
{
    counted(words, 3)?;
    let node = node_in(topology, word_at(words, 2))?;
    Ok(Show::Tree(node))
}

/// `show vrf VRF`.
#[tactic(auto, unfolding(crate::specs::Lines::show_vrf))]
pub fn show_vrf(topology: &Topology, words: &[&[u8]]) -> Result<Show, ScriptRule>
    ensures value { result ≡ show_vrf topology.now (texts words.now) }
    ensures fits { IfOk result (λ table. show_fits topology.now table ≡ true) }
{
    counted(words, 3)?;
    let vrf = vrf_in(topology, word_at(words, 2))?;
    Ok(Show::Vrf(vrf))
}

/// `show frame N K`.
#[tactic(auto, unfolding(crate::specs::Lines::show_frame))]
fn show_frame(topology: &Topology, words: &[&[u8]]) -> Result<Show, ScriptRule>
    ensures value { result ≡ show_frame topology.now (texts words.now) }
    ensures fits { IfOk result (λ table. show_fits topology.now table ≡ true) }
{
    counted(words, 4)?;
    let number = number_in(word_at(words, 3), 1, u32::MAX)?;
    let node = node_in(topology, word_at(words, 2))?;
    Ok(Show::Frame(node, number))
}

#[tactic(auto, unfolding(crate::specs::Lines::show_line))]
fn show_line(topology: &Topology, words: &[&[u8]]) -> Result<Show, ScriptRule>
    ensures value { result ≡ show_line topology.now (texts words.now) }
    ensures fits { IfOk result (λ table. show_fits topology.now table ≡ true) }
{
    if words.len() == 1 {
        Err(ScriptRule::WrongCount)
    } else if is_word(words, 1, "links") {
        plain_show(words, Show::Links)
    } else if is_word(words, 1, "tree") {
        show_tree(topology, words)
    } else if is_word(words, 1, "ldp") {
        plain_show(words, Show::Ldp)
    } else if is_word(words, 1, "bgp") {
        plain_show(words, Show::Bgp)
    } else if is_word(words, 1, "vrf") {
        show_vrf(topology, words)
    } else if is_word(words, 1, "flight") {
        plain_show(words, Show::Flight)
    } else if is_word(words, 1, "frame") {
        show_frame(topology, words)
    } else {
        Err(ScriptRule::UnknownWord)
    }
}

/// A line that shows a table.
#[tactic(auto, unfolding(crate::specs::Lines::table_line))]
fn table_line(topology: &Topology, words: &[&[u8]]) -> Result<Command, ScriptRule>
    ensures value { result ≡ table_line topology.now (texts words.now) }
    ensures fits { IfOk result (λ command. command_fits topology.now command ≡ true) }
{
    let table = show_line(topology, words)?;
    Ok(Command::Show(table))
}

/// A line that names a step.
#[tactic(auto, unfolding(crate::specs::Lines::do_line))]
fn do_line(topology: &Topology, words: &[&[u8]]) -> Result<Command, ScriptRule>
    ensures value { result ≡ do_line topology.now (texts words.now) }
    ensures fits { IfOk result (λ command. command_fits topology.now command ≡ true) }
{
    let step = step_line(topology, words)?;
    Ok(Command::Do(step))
}

/// A line that names a damaged message.
#[tactic(auto, unfolding(crate::specs::Lines::damaged_line))]
fn damaged_line(topology: &Topology, words: &[&[u8]]) -> Result<Command, ScriptRule>
    ensures value { result ≡ damaged_line topology.now (texts words.now) }
    ensures fits { IfOk result (λ command. command_fits topology.now command ≡ true) }
{
    let damage = damage_line(topology, words)?;
    Ok(Command::Damage(damage))
}

/// The command of a line with words, by the first of them.
#[tactic(auto, unfolding(crate::specs::Lines::command_line))]
fn command_line(topology: &Topology, words: &[&[u8]]) -> Result<Command, ScriptRule>
    ensures value { result ≡ command_line topology.now (texts words.now) }
    ensures fits { IfOk result (λ command. command_fits topology.now command ≡ true) }
{
    if is_word(words, 0, "run") {
        run_line(words)
    } else if is_word(words, 0, "drain") {
        drain_line(words)
    } else if is_word(words, 0, "flush") {
        flush_line(words)
    } else if is_word(words, 0, "show") {
        table_line(topology, words)
    } else if is_word(words, 0, "damage") {
        damaged_line(topology, words)
    } else {
        do_line(topology, words)
    }
}

/// The command of a line, none where it has no words.
#[tactic(auto, unfolding(crate::specs::Lines::line_says))]
pub fn line_says(topology: &Topology, words: &[&[u8]]) -> Result<Option<Command>, ScriptRule>
    ensures value { result ≡ line_says topology.now (texts words.now) }
    ensures fits { IfOk result (λ said. IfSome said (λ command. command_fits topology.now command ≡ true)) }
{
    if words.is_empty() {
        return Ok(None);
    }
    let command = command_line(topology, words)?;
    Ok(Some(command))
}

/// The command of a line with the line's number, none where it has no words.
pub(crate) fn numbered_line(
    topology: &Topology,
    number: u32,
    words: &[&[u8]],
) -> Result<Option<Line>, ScriptRule>
    ensures value { result ≡ command_says topology.now number (texts words.now) }
    ensures fits { IfOk result (λ said. IfSome said (λ line. command_fits topology.now line.command ≡ true)) }
{
    match line_says(topology, words)? {
        Some(command) => Ok(Some(Line { number, command })),
        None => Ok(None),
    }
}
