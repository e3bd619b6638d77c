//! The lines of a file, in any language of lines.
ghost use Rattle.std.specs.Prelude.{◌≡◌, ◌≤◌, ◌<◌, ◌++◌, ℕ, Bool, true, List, All, Some, Ok, length, take, IfOk, IfSome, OnOk};
ghost use Rattle.std.specs.Str.Lines.{lines};
ghost use Rattle.mn_script.specs.Words.{texts, line_words};
ghost use Rattle.mn_script.specs.Rules.{Reads};
ghost use Rattle.mn_script.specs.Reading.{Says, SaysAgain, IsKnown, line_of, lines_of};

use crate::words::first_words;
use crate::{ScriptBad, ScriptRule};
use mn_text::first_line;
use std::alloc::{AllocError, Global};

/// A language of lines: what a line says, by its words.
pub trait Language {
    /// What a line asks for, with its number.
    type Line: Drop;

    /// What a line says, by its number and its words.
    ghost says: { Self → Says Self.Line };

    /// Whether there is room for what a line asks for.
    ghost fits: { Self → Self.Line → Bool };

    /// What a line says, by its number and its first words; nothing where it has none. There is room for what it
    /// asks for. Six words are enough, by `by_six`.
    fn says(&self, number: u32, words: &[&[u8]]) -> Result<Option<Self::Line>, ScriptRule>
        ensures value { result ≡ says self.now number (texts words.now) }
        ensures fits { IfOk result (λ said. IfSome said (λ line. fits self.now line ≡ true)) };

    /// What a line asks for that says the same as this one, at another number; none where the language has no quicker way
    /// than to read it.
    fn again(&self, line: &Self::Line, number: u32) -> Option<Self::Line>
        ensures says { IfSome result (λ again. SaysAgain (says self.now) line.now number again) }
        ensures fits { IfSome result (λ again. fits self.now line.now ≡ true → fits self.now again ≡ true) }
    {
        None
    }

    /// A law, which takes no time: no line has a form of more than five words, so six tell what it says.
    fn by_six(&self)
        ensures { (number : ℕ) (words : List (List ℕ)) → says self.now number (take 6 words) ≡ says self.now number words };
}

/// Adds what a line asks for, if it asks for something.
fn put<L: Drop>(script: &mut Vec<L>, said: Option<L>) -> Result<(), AllocError>
    ensures { OnOk result (script.new.items ≡ script.old.items ++ line_of said) }
{
    if let Some(line) = said {
        script.push(line)?;
    }
    Ok(())
}

/// What a line asks for, by its number and its bytes.
fn line_says<L: Language>(
    language: &L,
    number: u32,
    line: &[u8],
) -> Result<Option<L::Line>, ScriptRule>
    ensures value { result ≡ L.says language.now number (line_words line.now) }
    ensures fits { IfOk result (λ said. IfSome said (λ line. L.fits language.now line ≡ true)) }
{
    language.by_six();
    let (words, count) = first_words(line);
    language.says(number, &words[..count])
}

/// A line that is remembered, and the place of what it asks for among all that was asked for so far.
type Known<'t> = Option<(&'t [u8], usize)>;

/// Lines that are remembered at a time.
const SLOTS: usize = 64;

/// Bytes at the end of a line that tell its slot.
const TOLD_BY: usize = 8;

/// Where a line is remembered. Another of the same slot takes its place: it would be read once more.
fn slot_of(line: &[u8]) -> usize
    ensures { result < 64 }
{
    let mut sum = line.len();
    for byte in &line[line.len().saturating_sub(TOLD_BY)..] {
        sum = sum.wrapping_mul(37).wrapping_add(usize::from(*byte));
    }
    sum % SLOTS
}

/// What the remembered line asked for, at another number, where a line has the same bytes: a script says few things
/// many times.
fn known_again<L: Language>(
    language: &L,
    script: &[L::Line],
    known: Known<'_>,
    number: u32,
    line: &[u8],
) -> Option<L::Line>
    requires known { IsKnown (L.says language.now) script.now known }
    ensures value { IfSome result (λ again. L.says language.now number (line_words line.now) ≡ Ok (Some again)) }
    ensures fits { All (λ known. L.fits language.now known ≡ true) script.now → IfSome result (λ again. L.fits language.now again ≡ true) }
{
    let (text, place) = known?;
    if line != text {
        return None;
    }
    language.again(script.get(place)?, number)
}

/// What a line asks for, by its number and its bytes, or as before where it is the remembered line again.
fn said<L: Language>(
    language: &L,
    script: &[L::Line],
    known: Known<'_>,
    number: u32,
    line: &[u8],
) -> Result<Option<L::Line>, ScriptRule>
    requires known { IsKnown (L.says language.now) script.now known }
    requires fitting { All (λ known. L.fits language.now known ≡ true) script.now }
    ensures value { result ≡ L.says language.now number (line_words line.now) }
    ensures fits { IfOk result (λ said. IfSome said (λ line. L.fits language.now line ≡ true)) }
{
    match known_again(language, script, known, number, line) {
        Some(again) => Ok(Some(again)),
        None => line_says(language, number, line),
    }
}

/// The lines of a file in a language, of which the first has the number; lines past 4,294,967,295 have this number
/// too.
///
/// The first refused line is answered, with its rule. A line takes no memory besides what it asks for.
pub fn read_lines<L: Language>(
    alloc: Global,
    language: &L,
    first: u32,
    bytes: &[u8],
) -> Result<Vec<L::Line>, ScriptBad>
    ensures value { Reads result (lines_of (L.says language.now) first bytes.now) }
    ensures fits { IfOk result (λ script. All (λ line. L.fits language.now line ≡ true) script.items) }
    ensures few { IfOk result (λ script. length script.items ≤ length (lines bytes.now)) }
{
    let mut script = Vec::new(alloc);
    let mut rest = bytes;
    let mut number = first;
    let mut known: [Known<'_>; SLOTS] = [None; SLOTS];
    'lines: while let Some((line, next)) = first_line(rest) {
        let slot = slot_of(line);
        let said = match said(language, &script, known[slot], number, line) {
            Ok(said) => said,
            Err(rule) => return Err(ScriptBad::Refused { rule, line: number }),
        };
        if said.is_some() {
            known[slot] = Some((line, script.len()));
        }
        put(&mut script, said)?;
        rest = next;
        number = number.saturating_add(1);
    }
    Ok(script)
}
