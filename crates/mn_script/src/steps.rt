//! The lines that name a step.
ghost use Rattle.std.specs.Prelude.{◌≡◌, ◌≤◌, ◌<◌, true, length, IfOk};
ghost use Rattle.mn_base.specs.Numbers.{has_rt_form};
ghost use Rattle.mn_topo.specs.Network.{Network};
ghost use Rattle.mn_topo.specs.Steps.{fits};
ghost use Rattle.mn_script.specs.Words.{texts};
ghost use Rattle.mn_script.specs.Steps.{link_line, learn_line, ldp_line, hear_ldp_line, hear_bgp_line, hear_line, bgp_line, route_line, site_line, step_line};
ghost use Rattle.mn_script.specs.Steps.{target_operands, import_line, export_line, inject_line, frame_operands, carry_line, lose_line, tick_line};

use crate::ScriptRule;
use crate::operands::{
    edges_in, link_in, node_in, number_in, prefix_in, site_in, target_in, vrf_in,
};
use crate::words::{choice, counted, is_word, word_at};
use mn_base::{LinkNo, NodeNo, Rt, VrfNo};
use mn_topo::{Step, Topology};
use mn_wiring::Dir;

/// Ticks of one line.
pub(crate) const MOST_TICKS: u32 = 1_000_000;

/// `link up A B`, `link down A B`.
#[tactic(auto, unfolding(crate::specs::Steps::link_line))]
pub fn link_line(topology: &Topology, words: &[&[u8]]) -> Result<Step, ScriptRule>
    ensures value { result ≡ link_line topology.now (texts words.now) }
    ensures fits { IfOk result (λ step. fits topology.now step ≡ true) }
{
    let up = choice(words, "up", "down")?;
    counted(words, 4)?;
    let (link, _) = link_in(topology, word_at(words, 2), word_at(words, 3))?;
    if up {
        Ok(Step::LinkUp(link))
    } else {
        Ok(Step::LinkDown(link))
    }
}

/// `learn N A B`.
#[tactic(auto, unfolding(crate::specs::Steps::learn_line))]
fn learn_line(topology: &Topology, words: &[&[u8]]) -> Result<Step, ScriptRule>
    ensures value { result ≡ learn_line topology.now (texts words.now) }
    ensures fits { IfOk result (λ step. fits topology.now step ≡ true) }
{
    counted(words, 4)?;
    let node = node_in(topology, word_at(words, 1))?;
    let (link, _) = link_in(topology, word_at(words, 2), word_at(words, 3))?;
    Ok(Step::Learn(node, link))
}

/// `ldp on A B`, `ldp off A B`.
#[tactic(auto, unfolding(crate::specs::Steps::ldp_line))]
fn ldp_line(topology: &Topology, words: &[&[u8]]) -> Result<Step, ScriptRule>
    ensures value { result ≡ ldp_line topology.now (texts words.now) }
    ensures fits { IfOk result (λ step. fits topology.now step ≡ true) }
{
    let on = choice(words, "on", "off")?;
    counted(words, 4)?;
    let (link, _) = link_in(topology, word_at(words, 2), word_at(words, 3))?;
    Ok(Step::LdpAdmin(link, on))
}

/// `hear ldp A B`.
#[tactic(auto, unfolding(crate::specs::Steps::hear_ldp_line))]
fn hear_ldp_line(topology: &Topology, words: &[&[u8]]) -> Result<Step, ScriptRule>
    ensures value { result ≡ hear_ldp_line topology.now (texts words.now) }
    ensures fits { IfOk result (λ step. fits topology.now step ≡ true) }
{
    let (link, direction) = link_in(topology, word_at(words, 2), word_at(words, 3))?;
    Ok(Step::HearLdp(link, direction))
}

/// `hear bgp A B`.
#[tactic(auto, unfolding(crate::specs::Steps::hear_bgp_line))]
fn hear_bgp_line(topology: &Topology, words: &[&[u8]]) -> Result<Step, ScriptRule>
    ensures value { result ≡ hear_bgp_line topology.now (texts words.now) }
    ensures fits { IfOk result (λ step. fits topology.now step ≡ true) }
{
    let (from, to) = edges_in(topology, word_at(words, 2), word_at(words, 3))?;
    Ok(Step::HearBgp(from, to))
}

#[tactic(auto, unfolding(crate::specs::Steps::hear_line))]
fn hear_line(topology: &Topology, words: &[&[u8]]) -> Result<Step, ScriptRule>
    ensures value { result ≡ hear_line topology.now (texts words.now) }
    ensures fits { IfOk result (λ step. fits topology.now step ≡ true) }
{
    let ldp = choice(words, "ldp", "bgp")?;
    counted(words, 4)?;
    if ldp {
        hear_ldp_line(topology, words)
    } else {
        hear_bgp_line(topology, words)
    }
}

/// `bgp up A B`, `bgp down A B`.
#[tactic(auto, unfolding(crate::specs::Steps::bgp_line))]
fn bgp_line(topology: &Topology, words: &[&[u8]]) -> Result<Step, ScriptRule>
    ensures value { result ≡ bgp_line topology.now (texts words.now) }
    ensures fits { IfOk result (λ step. fits topology.now step ≡ true) }
{
    let up = choice(words, "up", "down")?;
    counted(words, 4)?;
    let (one, other) = edges_in(topology, word_at(words, 2), word_at(words, 3))?;
    let lesser = NodeNo(one.0.min(other.0));
    let greater = NodeNo(one.0.max(other.0));
    if up {
        Ok(Step::BgpUp(lesser, greater))
    } else {
        Ok(Step::BgpDown(lesser, greater))
    }
}

/// `route add SITE PREFIX`, `route del SITE PREFIX`.
#[tactic(auto, unfolding(crate::specs::Steps::route_line))]
pub fn route_line(topology: &Topology, words: &[&[u8]]) -> Result<Step, ScriptRule>
    ensures value { result ≡ route_line topology.now (texts words.now) }
    ensures fits { IfOk result (λ step. fits topology.now step ≡ true) }
{
    let add = choice(words, "add", "del")?;
    counted(words, 4)?;
    let prefix = prefix_in(word_at(words, 3))?;
    let site = site_in(topology, word_at(words, 2))?;
    if add {
        Ok(Step::AddRoute(site, prefix))
    } else {
        Ok(Step::DelRoute(site, prefix))
    }
}

/// `add VRF TARGET`, `del VRF TARGET`, behind the first word: the VRF, the target, and whether it is added.
#[tactic(auto, unfolding(crate::specs::Steps::target_operands))]
fn target_operands(topology: &Topology, words: &[&[u8]]) -> Result<(VrfNo, Rt, bool), ScriptRule>
    ensures value { result ≡ target_operands topology.now (texts words.now) }
    ensures within { IfOk result (λ found. found.0.0 < length topology.now.vrfs) }
    ensures form { IfOk result (λ found. has_rt_form found.1.0 ≡ true) }
{
    let add = choice(words, "add", "del")?;
    counted(words, 4)?;
    let target = target_in(word_at(words, 3))?;
    let vrf = vrf_in(topology, word_at(words, 2))?;
    Ok((vrf, target, add))
}

/// `import add VRF TARGET`, `import del VRF TARGET`.
#[tactic(auto, unfolding(crate::specs::Steps::import_line))]
pub fn import_line(topology: &Topology, words: &[&[u8]]) -> Result<Step, ScriptRule>
    ensures value { result ≡ import_line topology.now (texts words.now) }
    ensures fits { IfOk result (λ step. fits topology.now step ≡ true) }
{
    let (vrf, target, add) = target_operands(topology, words)?;
    Ok(Step::Import(vrf, add, target))
}

/// `export add VRF TARGET`, `export del VRF TARGET`.
#[tactic(auto, unfolding(crate::specs::Steps::export_line))]
pub fn export_line(topology: &Topology, words: &[&[u8]]) -> Result<Step, ScriptRule>
    ensures value { result ≡ export_line topology.now (texts words.now) }
    ensures fits { IfOk result (λ step. fits topology.now step ≡ true) }
{
    let (vrf, target, add) = target_operands(topology, words)?;
    Ok(Step::Export(vrf, add, target))
}

/// `site up SITE`, `site down SITE`.
#[tactic(auto, unfolding(crate::specs::Steps::site_line))]
pub fn site_line(topology: &Topology, words: &[&[u8]]) -> Result<Step, ScriptRule>
    ensures value { result ≡ site_line topology.now (texts words.now) }
    ensures fits { IfOk result (λ step. fits topology.now step ≡ true) }
{
    let up = choice(words, "up", "down")?;
    counted(words, 3)?;
    let site = site_in(topology, word_at(words, 2))?;
    if up {
        Ok(Step::Attach(site))
    } else {
        Ok(Step::Detach(site))
    }
}

/// `inject SITE K`.
#[tactic(auto, unfolding(crate::specs::Steps::inject_line))]
fn inject_line(topology: &Topology, words: &[&[u8]]) -> Result<Step, ScriptRule>
    ensures value { result ≡ inject_line topology.now (texts words.now) }
    ensures fits { IfOk result (λ step. fits topology.now step ≡ true) }
{
    counted(words, 3)?;
    let number = number_in(word_at(words, 2), 1, u32::MAX)?;
    let site = site_in(topology, word_at(words, 1))?;
    Ok(Step::Inject(site, number))
}

/// `A B PLACE`, behind the first word: the link, its direction from A to B, and a place there, from 0.
#[tactic(auto, unfolding(crate::specs::Steps::frame_operands))]
fn frame_operands(topology: &Topology, words: &[&[u8]]) -> Result<(LinkNo, Dir, u32), ScriptRule>
    ensures value { result ≡ frame_operands topology.now (texts words.now) }
    ensures within { IfOk result (λ found. found.0.0 < length topology.now.links) }
{
    counted(words, 4)?;
    let place = number_in(word_at(words, 3), 0, u32::MAX)?;
    let (link, direction) = link_in(topology, word_at(words, 1), word_at(words, 2))?;
    Ok((link, direction, place))
}

/// `carry A B PLACE`.
#[tactic(auto, unfolding(crate::specs::Steps::carry_line))]
fn carry_line(topology: &Topology, words: &[&[u8]]) -> Result<Step, ScriptRule>
    ensures value { result ≡ carry_line topology.now (texts words.now) }
    ensures fits { IfOk result (λ step. fits topology.now step ≡ true) }
{
    let (link, direction, place) = frame_operands(topology, words)?;
    Ok(Step::Carry(link, direction, place))
}

/// `lose A B PLACE`.
#[tactic(auto, unfolding(crate::specs::Steps::lose_line))]
fn lose_line(topology: &Topology, words: &[&[u8]]) -> Result<Step, ScriptRule>
    ensures value { result ≡ lose_line topology.now (texts words.now) }
    ensures fits { IfOk result (λ step. fits topology.now step ≡ true) }
{
    let (link, direction, place) = frame_operands(topology, words)?;
    Ok(Step::Lose(link, direction, place))
}

/// `tick T`.
#[tactic(auto, unfolding(crate::specs::Steps::tick_line))]
fn tick_line(words: &[&[u8]]) -> Result<Step, ScriptRule>
    ensures value { result ≡ tick_line (texts words.now) }
    ensures fits { (network : Network) → IfOk result (λ step. fits network step ≡ true) }
{
    counted(words, 2)?;
    let ticks = number_in(word_at(words, 1), 1, MOST_TICKS)?;
    Ok(Step::Tick(ticks))
}

/// The step of a line, by its first word, of which `inject` is looked for before the others.
#[tactic(auto, unfolding(crate::specs::Steps::step_line), using(crate::proofs::Sendings::sending_step))]
pub(crate) fn step_line(topology: &Topology, words: &[&[u8]]) -> Result<Step, ScriptRule>
    ensures value { result ≡ step_line topology.now (texts words.now) }
    ensures fits { IfOk result (λ step. fits topology.now step ≡ true) }
{
    if is_word(words, 0, "inject") {
        inject_line(topology, words)
    } else if is_word(words, 0, "link") {
        link_line(topology, words)
    } else if is_word(words, 0, "learn") {
        learn_line(topology, words)
    } else if is_word(words, 0, "ldp") {
        ldp_line(topology, words)
    } else if is_word(words, 0, "hear") {
        hear_line(topology, words)
    } else if is_word(words, 0, "bgp") {
        bgp_line(topology, words)
    } else if is_word(words, 0, "route") {
        route_line(topology, words)
    } else if is_word(words, 0, "import") {
        import_line(topology, words)
    } else if is_word(words, 0, "export") {
        export_line(topology, words)
    } else if is_word(words, 0, "site") {
        site_line(topology, words)
    } else if is_word(words, 0, "carry") {
        carry_line(topology, words)
    } else if is_word(words, 0, "lose") {
        lose_line(topology, words)
    } else if is_word(words, 0, "tick") {
        tick_line(words)
    } else {
        Err(ScriptRule::UnknownWord)
    }
}
