//! A line cut at its commas, and the words of a piece.
ghost use Rattle.std.specs.Prelude.{◌≡◌, ◌≤◌, ◌<◌, ◌==◌, ◌∷◌, length, take, position, IfSome};
ghost use Rattle.std.specs.List.{slice_split};
ghost use Rattle.mn_text.specs.Words.{is_blank, words};
ghost use Rattle.mn_script.specs.Words.{texts, line_words};
ghost use Rattle.mn_failures.specs.Cutting.{is_comma, pieces_after};

use mn_text::first_word;

fn is_blank(byte: u8) -> bool
    ensures { result ≡ is_blank byte }
{
    byte == b' ' || byte == b'\t'
}

/// The line before its first comment.
#[tactic(auto, using(crate::proofs::Comments::comment_ends, crate::proofs::Comments::no_comment))]
pub(crate) fn before_comment(line: &[u8]) -> &[u8]
    ensures { words result.now ≡ line_words line.now }
{
    let mut begins = true;
    for (i, byte) in line.iter().enumerate() {
        if begins && *byte == b'#' {
            return &line[..i];
        }
        begins = is_blank(*byte);
    }
    line
}

fn first_comma(text: &[u8]) -> Option<usize>
    ensures { result ≡ position is_comma text.now }
{
    text.iter().position(|byte| *byte == b',')
}

/// The piece before the first comma, and what follows that comma.
#[tactic(auto, using(mn_text::proofs::Parts::split_some, mn_text::proofs::Parts::split_none))]
pub(crate) fn first_piece(text: &[u8]) -> (&[u8], Option<&[u8]>)
    ensures pieces { slice_split is_comma text.now ≡ result.0.now ∷ pieces_after result.1 }
    ensures shorter { IfSome result.1 (λ rest. length rest.now < length text.now) }
{
    match first_comma(text) {
        Some(i) => (&text[..i], Some(&text[i + 1..])),
        None => (text, None),
    }
}

/// Words of a piece that are looked at: no form has more than seven.
const MOST_WORDS: usize = 8;

/// The first words of a piece, and how many they are. They are eight at most: what the piece says is S2 by then, or S1
/// of its first words.
pub(crate) fn first_words(piece: &[u8]) -> ([&[u8]; MOST_WORDS], usize)
    ensures words { texts (take result.1 result.0) ≡ take 8 (words piece.now) }
    ensures few { result.1 ≤ 8 }
{
    let mut found: [&[u8]; MOST_WORDS] = [&[]; MOST_WORDS];
    let mut count = 0;
    let mut rest = piece;
    'words: while let Some((word, next)) = first_word(rest) {
        if count == MOST_WORDS {
            return (found, count);
        }
        found[count] = word;
        count += 1;
        rest = next;
    }
    (found, count)
}
