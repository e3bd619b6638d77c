//! What a line of a script of two networks says.
ghost use Rattle.std.specs.Prelude.{◌≡◌, ◌∷◌, true, IfOk, IfSome};
ghost use Rattle.std.specs.Str.{bytes_eq};
ghost use Rattle.mn_script.specs.Lines.{command_fits};
ghost use Rattle.mn_script.specs.Words.{texts, is_comment, line_words};
ghost use Rattle.mn_join_script.specs.Language.{is_played, network_says, line_says, join_says, line_fits, ReadsLine};

use crate::line::JoinLine;
use mn_join_laws::Which;
use mn_script::{Command, ScriptBad, ScriptRule, is_word, line_says as command_says, line_words};
use mn_text::first_word;
use mn_topo::Topology;
use std::alloc::Global;

/// What the words behind the first say of a network.
#[tactic(auto, using(crate::proofs::Playing::says_what_is_played))]
fn network_says(topology: &Topology, words: &[&[u8]]) -> Result<Option<Command>, ScriptRule>
    ensures value { result ≡ network_says topology.now (texts words.now) }
    ensures fits { IfOk result (λ said. IfSome said (λ command. command_fits topology.now command ≡ true)) }
    ensures played { IfOk result (λ said. IfSome said (λ command. is_played command ≡ true)) }
{
    if is_word(words, 0, "run") || is_word(words, 0, "show") {
        return Err(ScriptRule::UnknownWord);
    }
    command_says(topology, words)
}

/// What the words behind the first say of a network, with its number and the line's.
fn line_of(
    number: u32,
    which: Which,
    topology: &Topology,
    words: &[&[u8]],
) -> Result<Option<JoinLine>, ScriptRule>
    ensures value { result ≡ line_says number which (network_says topology.now (texts words.now)) }
    ensures fits { IfOk result (λ said. IfSome said (λ line. (line.which ≡ which) × (command_fits topology.now line.command ≡ true) × (is_played line.command ≡ true))) }
{
    match network_says(topology, words)? {
        Some(command) => Ok(Some(JoinLine {
            number,
            which,
            command,
        })),
        None => Ok(None),
    }
}

/// Whether a word is the text.
fn is_text(word: &[u8], text: &str) -> bool
    ensures { result ≡ bytes_eq word.now text.now }
{
    word == text.as_bytes()
}

/// What the words of a line say, the first of them and those behind it.
fn says(
    first: &Topology,
    second: &Topology,
    number: u32,
    word: &[u8],
    rest: &[&[u8]],
) -> Result<Option<JoinLine>, ScriptRule>
    ensures value { result ≡ join_says first.now second.now number (word.now ∷ texts rest.now) }
    ensures fits { IfOk result (λ said. IfSome said (λ line. line_fits first.now second.now line ≡ true)) }
{
    if is_text(word, "1") {
        line_of(number, Which::First, first, rest)
    } else if is_text(word, "2") {
        line_of(number, Which::Second, second, rest)
    } else {
        Err(ScriptRule::UnknownWord)
    }
}

fn is_comment(word: &[u8]) -> bool
    ensures { result ≡ is_comment word.now }
{
    !word.is_empty() && word[0] == b'#'
}

/// What a line says, by its number: seven words are looked at, one for the network and six for its line.
pub(crate) fn read_line(
    alloc: Global,
    first: &Topology,
    second: &Topology,
    number: u32,
    line: &[u8],
) -> Result<Option<JoinLine>, ScriptBad>
    ensures value { ReadsLine number result (join_says first.now second.now number (line_words line.now)) }
    ensures fits { IfOk result (λ said. IfSome said (λ line. line_fits first.now second.now line ≡ true)) }
{
    let Some((word, rest)) = first_word(line) else {
        return Ok(None);
    };
    if is_comment(word) {
        return Ok(None);
    }
    let words = line_words(alloc, rest)?;
    match says(first, second, number, word, &words) {
        Ok(said) => Ok(said),
        Err(rule) => Err(ScriptBad::Refused { rule, line: number }),
    }
}
