//! The lines of a script of reflection.
ghost use Rattle.std.specs.Prelude.{◌≡◌, ℕ, List, true, IfOk};
ghost use Rattle.mn_reflect_run.specs.Prelude.{Network, texts, is_reflector, may_peer, takes, numbers_of};
ghost use Rattle.mn_reflect_run.specs.Language.{peers_in, bgp_line, second_word, hear_line, step_line, do_line, bounded_drain, drain_line, show_line, command_line, command_fits};

use crate::command::ReflectCommand;
use mn_base::{MOST_STEPS, NodeNo};
use mn_script::{
    ScriptRule, choice, counted, export_line, import_line, is_word, node_in, number_in, route_line,
    site_line, vrf_in, word_at,
};
use mn_topo::{Step, Topology};

/// Whether the node is one of these reflectors.
pub(crate) fn is_reflector(reflectors: &[NodeNo], node: NodeNo) -> bool
    ensures { result ≡ is_reflector (numbers_of reflectors.now) node.0 }
{
    reflectors.iter().any(|reflector| reflector.0 == node.0)
}

/// Whether the nodes may have a session: a reflector and an edge, or two reflectors.
fn may_peer(topology: &Topology, reflectors: &[NodeNo], one: NodeNo, other: NodeNo) -> bool
    ensures { result ≡ may_peer topology.now (numbers_of reflectors.now) one.0 other.0 }
{
    if one.0 == other.0 {
        return false;
    }
    if is_reflector(reflectors, one) {
        is_reflector(reflectors, other) || topology.is_edge(other)
    } else {
        is_reflector(reflectors, other) && topology.is_edge(one)
    }
}

/// Two nodes that may have a session.
#[tactic(auto, unfolding(crate::specs::Language::peers_in))]
fn peers_in(
    topology: &Topology,
    reflectors: &[NodeNo],
    a: &[u8],
    b: &[u8],
) -> Result<(NodeNo, NodeNo), ScriptRule>
    ensures value { result ≡ peers_in topology.now (numbers_of reflectors.now) a.now b.now }
    ensures peers { IfOk result (λ peers. may_peer topology.now (numbers_of reflectors.now) peers.0.0 peers.1.0 ≡ true) }
{
    let one = node_in(topology, a)?;
    let other = node_in(topology, b)?;
    if may_peer(topology, reflectors, one, other) {
        Ok((one, other))
    } else {
        Err(ScriptRule::NotEdge)
    }
}

/// `bgp up A B`, `bgp down A B`.
#[tactic(auto, unfolding(crate::specs::Language::bgp_line))]
fn bgp_line(topology: &Topology, reflectors: &[NodeNo], words: &[&[u8]]) -> Result<Step, ScriptRule>
    ensures value { result ≡ bgp_line topology.now (numbers_of reflectors.now) (texts words.now) }
    ensures fits { IfOk result (λ step. takes topology.now (numbers_of reflectors.now) step ≡ true) }
{
    let up = choice(words, "up", "down")?;
    counted(words, 4)?;
    let (one, other) = peers_in(topology, reflectors, word_at(words, 2), word_at(words, 3))?;
    let lesser = NodeNo(one.0.min(other.0));
    let greater = NodeNo(one.0.max(other.0));
    if up {
        Ok(Step::BgpUp(lesser, greater))
    } else {
        Ok(Step::BgpDown(lesser, greater))
    }
}

/// That the second word is this one: S2 where there is none, S1 where it is another.
fn second_word(words: &[&[u8]], text: &str) -> Result<(), ScriptRule>
    ensures { result ≡ second_word (texts words.now) text.now }
{
    if words.len() == 1 {
        return Err(ScriptRule::WrongCount);
    }
    if is_word(words, 1, text) {
        Ok(())
    } else {
        Err(ScriptRule::UnknownWord)
    }
}

/// `hear bgp A B`.
#[tactic(auto, unfolding(crate::specs::Language::hear_line))]
fn hear_line(
    topology: &Topology,
    reflectors: &[NodeNo],
    words: &[&[u8]],
) -> Result<Step, ScriptRule>
    ensures value { result ≡ hear_line topology.now (numbers_of reflectors.now) (texts words.now) }
    ensures fits { IfOk result (λ step. takes topology.now (numbers_of reflectors.now) step ≡ true) }
{
    second_word(words, "bgp")?;
    counted(words, 4)?;
    let (from, to) = peers_in(topology, reflectors, word_at(words, 2), word_at(words, 3))?;
    Ok(Step::HearBgp(from, to))
}

/// The step of a line, by its first word.
#[tactic(auto, unfolding(crate::specs::Language::step_line))]
fn step_line(
    topology: &Topology,
    reflectors: &[NodeNo],
    words: &[&[u8]],
) -> Result<Step, ScriptRule>
    ensures value { result ≡ step_line topology.now (numbers_of reflectors.now) (texts words.now) }
    ensures fits { IfOk result (λ step. takes topology.now (numbers_of reflectors.now) step ≡ true) }
{
    if is_word(words, 0, "bgp") {
        bgp_line(topology, reflectors, words)
    } else if is_word(words, 0, "hear") {
        hear_line(topology, reflectors, words)
    } else if is_word(words, 0, "route") {
        route_line(topology, words)
    } else if is_word(words, 0, "import") {
        import_line(topology, words)
    } else if is_word(words, 0, "export") {
        export_line(topology, words)
    } else if is_word(words, 0, "site") {
        site_line(topology, words)
    } else {
        Err(ScriptRule::UnknownWord)
    }
}

/// A line that names a step.
#[tactic(auto, unfolding(crate::specs::Language::do_line))]
fn do_line(
    topology: &Topology,
    reflectors: &[NodeNo],
    words: &[&[u8]],
) -> Result<ReflectCommand, ScriptRule>
    ensures value { result ≡ do_line topology.now (numbers_of reflectors.now) (texts words.now) }
    ensures fits { IfOk result (λ asked. command_fits topology.now (numbers_of reflectors.now) asked ≡ true) }
{
    let step = step_line(topology, reflectors, words)?;
    Ok(ReflectCommand::Do(step))
}

/// `drain N`.
#[tactic(auto, unfolding(crate::specs::Language::bounded_drain))]
fn bounded_drain(words: &[&[u8]]) -> Result<ReflectCommand, ScriptRule>
    ensures value { result ≡ bounded_drain (texts words.now) }
    ensures fits { (network : Network) (reflectors : List ℕ) → IfOk result (λ asked. command_fits network reflectors asked ≡ true) }
{
    counted(words, 2)?;
    let steps = number_in(word_at(words, 1), 0, MOST_STEPS)?;
    Ok(ReflectCommand::Drain(Some(steps)))
}

/// `drain N`, or `drain` with no bound.
#[tactic(auto, unfolding(crate::specs::Language::drain_line))]
fn drain_line(words: &[&[u8]]) -> Result<ReflectCommand, ScriptRule>
    ensures value { result ≡ drain_line (texts words.now) }
    ensures fits { (network : Network) (reflectors : List ℕ) → IfOk result (λ asked. command_fits network reflectors asked ≡ true) }
{
    if words.len() == 1 {
        Ok(ReflectCommand::Drain(None))
    } else {
        bounded_drain(words)
    }
}

/// `show vrf VRF`.
#[tactic(auto, unfolding(crate::specs::Language::show_line))]
fn show_line(topology: &Topology, words: &[&[u8]]) -> Result<ReflectCommand, ScriptRule>
    ensures value { result ≡ show_line topology.now (texts words.now) }
    ensures fits { (reflectors : List ℕ) → IfOk result (λ asked. command_fits topology.now reflectors asked ≡ true) }
{
    second_word(words, "vrf")?;
    counted(words, 3)?;
    let vrf = vrf_in(topology, word_at(words, 2))?;
    Ok(ReflectCommand::Show(vrf))
}

/// What a line asks for, by its first word.
#[tactic(auto, unfolding(crate::specs::Language::command_line))]
pub(crate) fn command_line(
    topology: &Topology,
    reflectors: &[NodeNo],
    words: &[&[u8]],
) -> Result<ReflectCommand, ScriptRule>
    ensures value { result ≡ command_line topology.now (numbers_of reflectors.now) (texts words.now) }
    ensures fits { IfOk result (λ asked. command_fits topology.now (numbers_of reflectors.now) asked ≡ true) }
{
    if is_word(words, 0, "drain") {
        drain_line(words)
    } else if is_word(words, 0, "show") {
        show_line(topology, words)
    } else {
        do_line(topology, reflectors, words)
    }
}
