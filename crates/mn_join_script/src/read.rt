//! The whole script.
ghost use Rattle.std.specs.Prelude.{◌≡◌, ◌≤◌, ◌++◌, Bool, true, All, length, IfOk, IfSome, OnOk};
ghost use Rattle.std.specs.Str.Lines.{lines};
ghost use Rattle.mn_script.specs.Rules.{Reads};
ghost use Rattle.mn_script.specs.Reading.{Says, line_of, lines_of};
ghost use Rattle.mn_script.specs.Words.{line_words};
ghost use Rattle.mn_join_script.specs.Language.{join_says, line_fits, ReadsLine};

use crate::language::read_line;
use crate::line::JoinLine;
use mn_script::ScriptBad;
use mn_text::first_line;
use mn_topo::Topology;
use std::alloc::{AllocError, Global};

/// What tells a line of a text.
trait Reader {
    /// What a line asks for, with its number.
    type Line: Drop;

    /// What a line says, by its number and its words.
    ghost says: { Self → Says Self.Line };

    /// Whether there is room for what a line asks for.
    ghost fits: { Self → Self.Line → Bool };

    /// What a line says, by its number, or the rule that refuses it.
    fn read(&self, alloc: Global, number: u32, line: &[u8]) -> Result<Option<Self::Line>, ScriptBad>
        ensures value { ReadsLine number result (says self.now number (line_words line.now)) }
        ensures fits { IfOk result (λ said. IfSome said (λ line. fits self.now line ≡ true)) };
}

/// Adds what a line asks for, if it asks for something.
fn put<L: Drop>(script: &mut Vec<L>, said: Option<L>) -> Result<(), AllocError>
    ensures { OnOk result (script.new.items ≡ script.old.items ++ line_of said) }
{
    if let Some(line) = said {
        script.push(line)?;
    }
    Ok(())
}

/// The lines of a text, numbered from 1, or the first refused line with its rule.
fn read_all<R: Reader>(alloc: Global, reader: &R, bytes: &[u8]) -> Result<Vec<R::Line>, ScriptBad>
    ensures value { Reads result (lines_of (R.says reader.now) 1 bytes.now) }
    ensures fits { IfOk result (λ script. All (λ line. R.fits reader.now line ≡ true) script.items) }
    ensures few { IfOk result (λ script. length script.items ≤ length (lines bytes.now)) }
{
    let mut script = Vec::new(alloc);
    let mut rest = bytes;
    let mut number: u32 = 1;
    'lines: while let Some((line, next)) = first_line(rest) {
        let said = reader.read(alloc, number, line)?;
        put(&mut script, said)?;
        rest = next;
        number = number.saturating_add(1);
    }
    Ok(script)
}

/// The lines of scripts of two networks.
#[derive(Drop)]
struct JoinLines<'t> {
    first: &'t Topology,
    second: &'t Topology,
}

impl Reader for JoinLines<'_> {
    type Line = JoinLine;

    ghost says = { λ lines. join_says lines.first.now lines.second.now };

    ghost fits = { λ lines line. line_fits lines.first.now lines.second.now line };

    fn read(&self, alloc: Global, number: u32, line: &[u8]) -> Result<Option<JoinLine>, ScriptBad> {
        read_line(alloc, self.first, self.second, number, line)
    }
}

/// The lines of a script of two networks, numbered from 1; lines past 4,294,967,295 have this number too.
///
/// The first refused line is answered, with its rule. Each line takes at most six words besides what it asks for.
pub fn read_join_lines(
    alloc: Global,
    first: &Topology,
    second: &Topology,
    bytes: &[u8],
) -> Result<Vec<JoinLine>, ScriptBad>
    ensures value { Reads result (lines_of (join_says first.now second.now) 1 bytes.now) }
    ensures fits { IfOk result (λ script. All (λ line. line_fits first.now second.now line ≡ true) script.items) }
    ensures few { IfOk result (λ script. length script.items ≤ length (lines bytes.now)) }
{
    read_all(alloc, &JoinLines { first, second }, bytes)
}
