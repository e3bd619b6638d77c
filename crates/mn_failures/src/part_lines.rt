//! The parts of a failure, a form each.
ghost use Rattle.std.specs.Prelude.{◌≡◌, true, IfOk};
ghost use Rattle.mn_topo.specs.Steps.{are_edges};
ghost use Rattle.mn_script.specs.Words.{texts};
ghost use Rattle.mn_script.specs.Operands.{edges_in};
ghost use Rattle.mn_failures.specs.Language.{has_word, link_part, ldp_part, bgp_part, node_part, part_says};
ghost use Rattle.mn_failures.specs.Meaning.{part_fits};

use crate::command::Part;
use mn_base::NodeNo;
use mn_script::{ScriptRule, counted, is_word, link_in, node_in, word_at};
use mn_topo::Topology;

/// That the word at a place, from 0, is this one: S2 where there is none, S1 where it is another.
pub(crate) fn has_word(words: &[&[u8]], place: usize, text: &str) -> Result<(), ScriptRule>
    ensures { result ≡ has_word (texts words.now) place text.now }
{
    if place >= words.len() {
        Err(ScriptRule::WrongCount)
    } else if is_word(words, place, text) {
        Ok(())
    } else {
        Err(ScriptRule::UnknownWord)
    }
}

/// Two different edges.
#[tactic(auto, unfolding(mn_script::specs::Operands::edges_in))]
fn edges_in(topology: &Topology, a: &[u8], b: &[u8]) -> Result<(NodeNo, NodeNo), ScriptRule>
    ensures value { result ≡ edges_in topology.now a.now b.now }
    ensures edges { IfOk result (λ pair. are_edges topology.now pair.0 pair.1 ≡ true) }
{
    let one = node_in(topology, a)?;
    let other = node_in(topology, b)?;
    if topology.is_edge(one) && topology.is_edge(other) && one != other {
        Ok((one, other))
    } else {
        Err(ScriptRule::NotEdge)
    }
}

/// `link down A B`.
#[tactic(auto, unfolding(crate::specs::Language::link_part))]
fn link_part(topology: &Topology, words: &[&[u8]]) -> Result<Part, ScriptRule>
    ensures value { result ≡ link_part topology.now (texts words.now) }
    ensures fits { IfOk result (λ part. part_fits topology.now part ≡ true) }
{
    has_word(words, 1, "down")?;
    counted(words, 4)?;
    let (link, dir) = link_in(topology, word_at(words, 2), word_at(words, 3))?;
    Ok(Part::LinkDown(link, dir))
}

/// `ldp off A B`.
#[tactic(auto, unfolding(crate::specs::Language::ldp_part))]
fn ldp_part(topology: &Topology, words: &[&[u8]]) -> Result<Part, ScriptRule>
    ensures value { result ≡ ldp_part topology.now (texts words.now) }
    ensures fits { IfOk result (λ part. part_fits topology.now part ≡ true) }
{
    has_word(words, 1, "off")?;
    counted(words, 4)?;
    let (link, dir) = link_in(topology, word_at(words, 2), word_at(words, 3))?;
    Ok(Part::LdpOff(link, dir))
}

/// `bgp down A B`.
#[tactic(auto, unfolding(crate::specs::Language::bgp_part))]
fn bgp_part(topology: &Topology, words: &[&[u8]]) -> Result<Part, ScriptRule>
    ensures value { result ≡ bgp_part topology.now (texts words.now) }
    ensures fits { IfOk result (λ part. part_fits topology.now part ≡ true) }
{
    has_word(words, 1, "down")?;
    counted(words, 4)?;
    let (one, other) = edges_in(topology, word_at(words, 2), word_at(words, 3))?;
    Ok(Part::BgpDown(one, other))
}

/// `node down N`.
#[tactic(auto, unfolding(crate::specs::Language::node_part))]
fn node_part(topology: &Topology, words: &[&[u8]]) -> Result<Part, ScriptRule>
    ensures value { result ≡ node_part topology.now (texts words.now) }
    ensures fits { IfOk result (λ part. part_fits topology.now part ≡ true) }
{
    has_word(words, 1, "down")?;
    counted(words, 3)?;
    let node = node_in(topology, word_at(words, 2))?;
    Ok(Part::NodeDown(node))
}

/// A part of a failure, by its first word.
#[tactic(auto, unfolding(crate::specs::Language::part_says))]
pub(crate) fn part_says(topology: &Topology, words: &[&[u8]]) -> Result<Part, ScriptRule>
    ensures value { result ≡ part_says topology.now (texts words.now) }
    ensures fits { IfOk result (λ part. part_fits topology.now part ≡ true) }
{
    if words.is_empty() {
        Err(ScriptRule::WrongCount)
    } else if is_word(words, 0, "link") {
        link_part(topology, words)
    } else if is_word(words, 0, "ldp") {
        ldp_part(topology, words)
    } else if is_word(words, 0, "bgp") {
        bgp_part(topology, words)
    } else if is_word(words, 0, "node") {
        node_part(topology, words)
    } else {
        Err(ScriptRule::UnknownWord)
    }
}
