//! The lines that name a damaged message.
ghost use Rattle.std.specs.Prelude.{◌≡◌, ◌≤◌, true, IfOk};
ghost use Rattle.mn_entry.specs.Damages.{damage_fits};
ghost use Rattle.mn_script.specs.Words.{texts};
ghost use Rattle.mn_script.specs.Damages.{damage_ldp_line, damage_bgp_line, damage_line};

use crate::ScriptRule;
use crate::operands::{edges_in, link_in, number_in};
use crate::words::{choice, counted, word_at};
use mn_topo::{Damage, Topology};

/// `damage ldp A B K`, but for its number.
#[tactic(auto, unfolding(crate::specs::Damages::damage_ldp_line))]
fn damage_ldp_line(topology: &Topology, words: &[&[u8]], number: u32) -> Result<Damage, ScriptRule>
    requires { 1 ≤ number }
    ensures value { result ≡ damage_ldp_line topology.now (texts words.now) number }
    ensures fits { IfOk result (λ damage. damage_fits topology.now damage ≡ true) }
{
    let (link, direction) = link_in(topology, word_at(words, 2), word_at(words, 3))?;
    Ok(Damage::Ldp(link, direction, number))
}

/// `damage bgp A B K`, but for its number.
#[tactic(auto, unfolding(crate::specs::Damages::damage_bgp_line))]
fn damage_bgp_line(topology: &Topology, words: &[&[u8]], number: u32) -> Result<Damage, ScriptRule>
    requires { 1 ≤ number }
    ensures value { result ≡ damage_bgp_line topology.now (texts words.now) number }
    ensures fits { IfOk result (λ damage. damage_fits topology.now damage ≡ true) }
{
    let (from, to) = edges_in(topology, word_at(words, 2), word_at(words, 3))?;
    Ok(Damage::Bgp(from, to, number))
}

/// `damage ldp A B K`, `damage bgp A B K`.
#[tactic(auto, unfolding(crate::specs::Damages::damage_line))]
pub(crate) fn damage_line(topology: &Topology, words: &[&[u8]]) -> Result<Damage, ScriptRule>
    ensures value { result ≡ damage_line topology.now (texts words.now) }
    ensures fits { IfOk result (λ damage. damage_fits topology.now damage ≡ true) }
{
    let ldp = choice(words, "ldp", "bgp")?;
    counted(words, 5)?;
    let number = number_in(word_at(words, 4), 1, u32::MAX)?;
    if ldp {
        damage_ldp_line(topology, words, number)
    } else {
        damage_bgp_line(topology, words, number)
    }
}
