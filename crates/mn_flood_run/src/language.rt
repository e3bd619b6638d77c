//! The lines of a script of the flood, as a language.
ghost use Rattle.std.specs.Prelude.{◌≡◌, true, length, IfOk, IfSome};
ghost use Rattle.mn_script.specs.Words.{texts};
ghost use Rattle.mn_flood_run.specs.Language.{link_line, second_word, hear_line, drain_line, command_line, line_says, flood_says, command_fits};

use crate::command::{FloodCommand, FloodLine};
use mn_script::{Language, ScriptRule, choice, counted, is_word, link_in, word_at};
use mn_topo::Topology;

/// `link up A B`, `link down A B`.
#[tactic(auto, unfolding(crate::specs::Language::link_line))]
fn link_line(topology: &Topology, words: &[&[u8]]) -> Result<FloodCommand, ScriptRule>
    ensures value { result ≡ link_line topology.now (texts words.now) }
    ensures fits { IfOk result (λ command. command_fits topology.now command ≡ true) }
{
    let up = choice(words, "up", "down")?;
    counted(words, 4)?;
    let (link, _) = link_in(topology, word_at(words, 2), word_at(words, 3))?;
    Ok(FloodCommand::Change(link, up))
}

/// That the second word is this one: S2 where there is none, S1 where it is another.
fn second_word(words: &[&[u8]], text: &str) -> Result<(), ScriptRule>
    ensures { result ≡ second_word (texts words.now) text.now }
{
    if words.len() == 1 {
        return Err(ScriptRule::WrongCount);
    }
    if is_word(words, 1, text) {
        Ok(())
    } else {
        Err(ScriptRule::UnknownWord)
    }
}

/// `hear flood A B`.
#[tactic(auto, unfolding(crate::specs::Language::hear_line))]
fn hear_line(topology: &Topology, words: &[&[u8]]) -> Result<FloodCommand, ScriptRule>
    ensures value { result ≡ hear_line topology.now (texts words.now) }
    ensures fits { IfOk result (λ command. command_fits topology.now command ≡ true) }
{
    second_word(words, "flood")?;
    counted(words, 4)?;
    let (link, dir) = link_in(topology, word_at(words, 2), word_at(words, 3))?;
    Ok(FloodCommand::Hear(link, dir))
}

/// `drain`.
#[tactic(auto, unfolding(crate::specs::Language::drain_line))]
fn drain_line(words: &[&[u8]]) -> Result<FloodCommand, ScriptRule>
    ensures { result ≡ drain_line (texts words.now) }
{
    counted(words, 1)?;
    Ok(FloodCommand::Drain)
}

/// The command of a line with words, by the first of them.
#[tactic(auto, unfolding(crate::specs::Language::command_line, crate::specs::Language::drain_line))]
fn command_line(topology: &Topology, words: &[&[u8]]) -> Result<FloodCommand, ScriptRule>
    ensures value { result ≡ command_line topology.now (texts words.now) }
    ensures fits { IfOk result (λ command. command_fits topology.now command ≡ true) }
{
    if is_word(words, 0, "link") {
        link_line(topology, words)
    } else if is_word(words, 0, "hear") {
        hear_line(topology, words)
    } else if is_word(words, 0, "drain") {
        drain_line(words)
    } else {
        Err(ScriptRule::UnknownWord)
    }
}

/// The command of a line, none where it has no words.
#[tactic(auto, unfolding(crate::specs::Language::line_says))]
fn line_says(topology: &Topology, words: &[&[u8]]) -> Result<Option<FloodCommand>, ScriptRule>
    ensures value { result ≡ line_says topology.now (texts words.now) }
    ensures fits { IfOk result (λ said. IfSome said (λ command. command_fits topology.now command ≡ true)) }
{
    if words.is_empty() {
        return Ok(None);
    }
    let command = command_line(topology, words)?;
    Ok(Some(command))
}

/// The command of a line with the line's number, none where it has no words.
fn numbered_line(
    topology: &Topology,
    number: u32,
    words: &[&[u8]],
) -> Result<Option<FloodLine>, ScriptRule>
    ensures value { result ≡ flood_says topology.now number (texts words.now) }
    ensures fits { IfOk result (λ said. IfSome said (λ line. command_fits topology.now line.command ≡ true)) }
{
    match line_says(topology, words)? {
        Some(command) => Ok(Some(FloodLine { number, command })),
        None => Ok(None),
    }
}

/// The language of scripts of the flood over a topology.
#[derive(Drop)]
pub struct FloodLines<'t>(pub &'t Topology);

impl Language for FloodLines<'_> {
    type Line = FloodLine;

    ghost says = { λ lines. flood_says lines.0.now };

    ghost fits = { λ lines line. command_fits lines.0.now line.command };

    fn says(&self, number: u32, words: &[&[u8]]) -> Result<Option<FloodLine>, ScriptRule> {
        numbered_line(self.0, number, words)
    }

    #[tactic(auto, using(crate::proofs::Front::flood_says_by_six))]
    fn by_six(&self) {}
}
