//! The words of a line, and how many there are.
ghost use Rattle.std.specs.Prelude.{◌≡◌, ◌≤◌, ◌∷◌, [], OnOk, length, take, take_while, IfOk};
ghost use Rattle.std.specs.Str.{bytes_eq};
ghost use Rattle.mn_script.specs.Words.{texts, is_comment, line_words, word_at, is_word, choice, counted};

use crate::ScriptRule;
use mn_text::first_word;
use std::alloc::{AllocError, Global};

fn is_comment(word: &[u8]) -> bool
    ensures { result ≡ is_comment word.now }
{
    !word.is_empty() && word[0] == b'#'
}

/// Words of a line that are looked at: no form of any language of lines has more than five.
const MOST_WORDS: usize = 6;

/// The first words of a line, before one that begins with `#`, and how many they are. They are six at most: what the
/// line says is S2 by then, or S1 of its first words.
pub(crate) fn first_words(line: &[u8]) -> ([&[u8]; MOST_WORDS], usize)
    ensures words { texts (take result.1 result.0) ≡ take 6 (line_words line.now) }
    ensures few { result.1 ≤ 6 }
{
    let mut found: [&[u8]; MOST_WORDS] = [&[]; MOST_WORDS];
    let mut count = 0;
    let mut rest = line;
    'words: while let Some((word, next)) = first_word(rest) {
        if is_comment(word) || count == MOST_WORDS {
            return (found, count);
        }
        found[count] = word;
        count += 1;
        rest = next;
    }
    (found, count)
}

/// The first words of a line, before one that begins with `#`. They are six at most, so that a line of millions of
/// words takes no more memory than a command: what it says is S2 by then, or S1 of its first words.
pub fn line_words(alloc: Global, line: &[u8]) -> Result<Vec<&[u8]>, AllocError>
    ensures { IfOk result (λ found. texts found.items ≡ take 6 (line_words line.now)) }
{
    let (words, count) = first_words(line);
    Vec::from_slice(alloc, &words[..count])
}

/// The word at `k`, from 0, and the empty text where there is none.
#[inline(always)]
pub fn word_at<'a>(words: &[&'a [u8]], k: usize) -> &'a [u8]
    ensures { result.now ≡ word_at (texts words.now) k }
{
    match words.get(k) {
        Some(word) => word,
        None => &[],
    }
}

fn same(word: &[u8], text: &[u8]) -> bool
    ensures { result ≡ bytes_eq word.now text.now }
{
    word == text
}

/// Whether the word at `k`, from 0, is the text; none is the empty text. Most words differ in length, which is told first.
#[inline(always)]
pub fn is_word(words: &[&[u8]], k: usize, text: &str) -> bool
    ensures { result ≡ is_word (texts words.now) k text.now }
{
    let (word, text) = (word_at(words, k), text.as_bytes());
    word.len() == text.len() && same(word, text)
}

/// Whether the second word is the one of two or the other: S2 where it is the only word that there is, and S1 where
/// it is neither.
pub fn choice(words: &[&[u8]], one: &str, other: &str) -> Result<bool, ScriptRule>
    ensures { result ≡ choice (texts words.now) one.now other.now }
{
    if words.len() == 1 {
        return Err(ScriptRule::WrongCount);
    }
    if is_word(words, 1, one) {
        return Ok(true);
    }
    if is_word(words, 1, other) {
        return Ok(false);
    }
    Err(ScriptRule::UnknownWord)
}

/// That the line has so many words: S2 otherwise.
pub fn counted(words: &[&[u8]], count: usize) -> Result<(), ScriptRule>
    ensures { result ≡ counted (texts words.now) count }
{
    if words.len() == count {
        Ok(())
    } else {
        Err(ScriptRule::WrongCount)
    }
}
