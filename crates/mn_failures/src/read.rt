//! From the bytes of a file to its lines.
ghost use Rattle.std.specs.Prelude.{◌≡◌, ◌≤◌, ◌++◌, true, All, length, IfOk, IfSome, OnOk};
ghost use Rattle.std.specs.List.{list_any, list_all};
ghost use Rattle.std.specs.Str.Lines.{lines};
ghost use Rattle.mn_text.specs.Words.{words};
ghost use Rattle.mn_script.specs.Rules.{Reads};
ghost use Rattle.mn_script.specs.Reading.{line_of, lines_of};
ghost use Rattle.mn_script.specs.Words.{line_words};
ghost use Rattle.mn_failures.specs.Cutting.{pieces};
ghost use Rattle.mn_failures.specs.Language.{part_says, parts_say, same_part, is_twice, are_refused, fail_says, command_says, failure_says};
ghost use Rattle.mn_failures.specs.Meaning.{part_fits, command_fits};

use crate::command::{FailureCommand, FailureLine, Part, Parts};
use crate::cut::{before_comment, first_piece, first_words};
use crate::lone_lines::{is_lone, lone_line};
use crate::part_lines::part_says;
use mn_script::{ScriptBad, ScriptRule};
use mn_text::{first_line, first_word};
use mn_topo::Topology;
use std::alloc::{AllocError, Global};

/// The most parts of a line.
const MOST_PARTS: usize = 1024;

/// The part that a piece names.
#[tactic(auto, using(crate::proofs::Front::part_says_by_eight))]
fn part_of(topology: &Topology, piece: &[u8]) -> Result<Part, ScriptRule>
    ensures value { result ≡ part_says topology.now (words piece.now) }
    ensures fits { IfOk result (λ part. part_fits topology.now part ≡ true) }
{
    let (words, count) = first_words(piece);
    part_says(topology, &words[..count])
}

/// The parts that the pieces of a text name.
fn parts_of(
    alloc: Global,
    topology: &Topology,
    text: &[u8],
) -> Result<Result<Parts, ScriptRule>, AllocError>
    ensures value { IfOk result (λ said. said ≡ parts_say topology.now (pieces text.now)) }
    ensures fits { IfOk result (λ said. IfOk said (λ parts. list_all (part_fits topology.now) parts ≡ true)) }
{
    let mut parts = Parts::new(alloc);
    let mut rest = text;
    'pieces: loop {
        let (piece, next) = first_piece(rest);
        match part_of(topology, piece) {
            Ok(part) => parts.push(part)?,
            Err(rule) => return Ok(Err(rule)),
        }
        match next {
            Some(next) => rest = next,
            None => return Ok(Ok(parts)),
        }
    }
}

/// Whether two parts name the same link, session or node as the same kind.
fn same_part(one: &Part, other: &Part) -> bool
    ensures { result ≡ same_part one.now other.now }
{
    match (one, other) {
        (Part::LinkDown(link, _), Part::LinkDown(again, _)) => link.0 == again.0,
        (Part::LdpOff(link, _), Part::LdpOff(again, _)) => link.0 == again.0,
        (Part::BgpDown(a, b), Part::BgpDown(c, d)) => {
            a.0 == c.0 && b.0 == d.0 || a.0 == d.0 && b.0 == c.0
        }
        (Part::NodeDown(node), Part::NodeDown(again)) => node.0 == again.0,
        _ => false,
    }
}

fn is_among(part: &Part, others: &[Part]) -> bool
    ensures { result ≡ list_any (same_part part.now) others.now }
{
    others.iter().any(|other| same_part(part, other))
}

/// Whether a part stands twice.
fn is_twice(parts: &[Part]) -> bool
    ensures { result ≡ is_twice parts.now }
{
    let mut rest = parts;
    'parts: while let [part, others @ ..] = rest {
        if is_among(part, others) {
            return true;
        }
        rest = others;
    }
    false
}

/// Whether there are too many parts, or one stands twice.
fn are_refused(parts: &[Part]) -> bool
    ensures { result ≡ are_refused parts.now }
{
    parts.len() > MOST_PARTS || is_twice(parts)
}

/// The failure that the pieces of a text name.
#[tactic(auto, unfolding(crate::specs::Language::fail_says))]
fn failure_of(
    alloc: Global,
    topology: &Topology,
    text: &[u8],
) -> Result<Result<FailureCommand, ScriptRule>, AllocError>
    ensures value { IfOk result (λ said. said ≡ fail_says topology.now (pieces text.now)) }
    ensures fits { IfOk result (λ said. IfOk said (λ command. command_fits topology.now command ≡ true)) }
{
    match parts_of(alloc, topology, text)? {
        Ok(parts) => {
            if are_refused(parts.as_slice()) {
                Ok(Err(ScriptRule::WrongCount))
            } else {
                Ok(Ok(FailureCommand::Fail(parts)))
            }
        }
        Err(rule) => Ok(Err(rule)),
    }
}

/// What a text with words asks for.
fn command_of(
    alloc: Global,
    topology: &Topology,
    text: &[u8],
) -> Result<Result<FailureCommand, ScriptRule>, AllocError>
    ensures value { IfOk result (λ said. said ≡ command_says topology.now (pieces text.now)) }
    ensures fits { IfOk result (λ said. IfOk said (λ command. command_fits topology.now command ≡ true)) }
{
    let (piece, next) = first_piece(text);
    let (words, count) = first_words(piece);
    let words = &words[..count];
    if next.is_none() && is_lone(words) {
        Ok(lone_line(words))
    } else {
        failure_of(alloc, topology, text)
    }
}

/// What a line asks for, by its number and its bytes; nothing where it has no words.
fn line_says(
    alloc: Global,
    topology: &Topology,
    number: u32,
    line: &[u8],
) -> Result<Result<Option<FailureLine>, ScriptRule>, AllocError>
    ensures value { IfOk result (λ said. said ≡ failure_says topology.now number (line_words line.now)) }
    ensures fits { IfOk result (λ said. IfOk said (λ found. IfSome found (λ line. command_fits topology.now line.command ≡ true))) }
{
    let text = before_comment(line);
    let Some(_) = first_word(text) else {
        return Ok(Ok(None));
    };
    match command_of(alloc, topology, text)? {
        Ok(command) => Ok(Ok(Some(FailureLine { number, command }))),
        Err(rule) => Ok(Err(rule)),
    }
}

/// Adds what a line asks for, if it asks for something.
fn put(lines: &mut Vec<FailureLine>, said: Option<FailureLine>) -> Result<(), AllocError>
    ensures { OnOk result (lines.new.items ≡ lines.old.items ++ line_of said) }
{
    if let Some(line) = said {
        lines.push(line)?;
    }
    Ok(())
}

/// The lines of a file of failures, numbered from 1; lines past 4,294,967,295 have this number too.
///
/// The first refused line is answered, with its rule. A line takes no memory besides what it asks for.
pub fn read_failures(
    alloc: Global,
    topology: &Topology,
    bytes: &[u8],
) -> Result<Vec<FailureLine>, ScriptBad>
    ensures value { Reads result (lines_of (failure_says topology.now) 1 bytes.now) }
    ensures fits { IfOk result (λ lines. All (λ line. command_fits topology.now line.command ≡ true) lines.items) }
    ensures few { IfOk result (λ found. length found.items ≤ length (lines bytes.now)) }
{
    let mut found = Vec::new(alloc);
    let mut rest = bytes;
    let mut number: u32 = 1;
    'lines: while let Some((line, next)) = first_line(rest) {
        match line_says(alloc, topology, number, line)? {
            Ok(said) => put(&mut found, said)?,
            Err(rule) => return Err(ScriptBad::Refused { rule, line: number }),
        }
        rest = next;
        number = number.saturating_add(1);
    }
    Ok(found)
}
