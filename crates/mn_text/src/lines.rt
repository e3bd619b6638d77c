ghost use Rattle.std.specs.Prelude.{◌≡◌, ◌<◌, ◌==◌, ◌∷◌, [], length, IfSome, MatchOption, position, option_copied, slice_get};
ghost use Rattle.std.specs.List.{slice_split};
ghost use Rattle.std.specs.Str.Lines.{lines, strip_carriage_return};
ghost use Rattle.mn_text.specs.Words.{is_blank, words, parts_after};

use memchr::memchr;

fn first_feed(text: &[u8]) -> Option<usize>
    ensures { result ≡ position (λ b. b == 10) text.now }
{
    memchr(b'\n', text)
}

fn without_return(line: &[u8]) -> &[u8]
    ensures { result.now ≡ strip_carriage_return line.now }
{
    match line {
        [front @ .., b'\r'] => front,
        _ => line,
    }
}

/// The first line of a text, and what follows it. `None` where the text is empty.
#[tactic(auto, using(crate::proofs::Parts::line_some, crate::proofs::Parts::line_none))]
pub fn first_line(text: &[u8]) -> Option<(&[u8], &[u8])>
    ensures first { MatchOption result (lines text.now ≡ []) (λ p. lines text.now ≡ p.0.now ∷ lines p.1.now) }
    ensures shorter { IfSome result (λ p. length p.1.now < length text.now) }
{
    if text.is_empty() {
        return None;
    }
    match first_feed(text) {
        Some(i) => Some((without_return(&text[..i]), &text[i + 1..])),
        None => Some((text, &[])),
    }
}

fn is_blank(byte: u8) -> bool
    ensures { result ≡ is_blank byte }
{
    byte == b' ' || byte == b'\t'
}

fn first_blank(line: &[u8]) -> Option<usize>
    ensures { result ≡ position is_blank line.now }
{
    line.iter().position(|byte| is_blank(*byte))
}

/// The part before the first blank, and what follows that blank.
#[tactic(auto, using(crate::proofs::Parts::split_some, crate::proofs::Parts::split_none))]
fn first_part(line: &[u8]) -> (&[u8], Option<&[u8]>)
    ensures parts { slice_split is_blank line.now ≡ result.0.now ∷ parts_after result.1 }
    ensures shorter { IfSome result.1 (λ rest. length rest.now < length line.now) }
{
    match first_blank(line) {
        Some(i) => (&line[..i], Some(&line[i + 1..])),
        None => (line, None),
    }
}

/// The first word of a line, and what follows it. `None` where the line has no word.
pub fn first_word(line: &[u8]) -> Option<(&[u8], &[u8])>
    ensures first { MatchOption result (words line.now ≡ []) (λ p. words line.now ≡ p.0.now ∷ words p.1.now) }
    ensures shorter { IfSome result (λ p. length p.1.now < length line.now) }
{
    let mut rest = line;
    'parts: loop {
        let (part, more) = first_part(rest);
        let next = match more {
            Some(next) => next,
            None if part.is_empty() => return None,
            None => return Some((part, &[])),
        };
        if !part.is_empty() {
            return Some((part, next));
        }
        rest = next;
    }
}

/// The word of a line at `k`, from 0. `None` where the line has at most `k` words.
pub fn word(line: &[u8], k: usize) -> Option<&[u8]>
    ensures { option_copied result ≡ slice_get (words line.now) k }
{
    let mut left = k;
    let mut rest = line;
    'words: while let Some((found, next)) = first_word(rest) {
        if left == 0 {
            return Some(found);
        }
        left -= 1;
        rest = next;
    }
    None
}
