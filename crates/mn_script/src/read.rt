//! From the bytes of a file to the script.
ghost use Rattle.std.specs.Prelude.{◌≡◌, ◌≤◌, ◌==◌, length, count_by, IfOk};
ghost use Rattle.std.specs.Str.Lines.{lines};
ghost use Rattle.mn_script.specs.Rules.{Reads};
ghost use Rattle.mn_script.specs.Counting.{ends_open, line_count};
ghost use Rattle.mn_script.specs.Lines.{command_fits};
ghost use Rattle.mn_script.specs.Script.{command_says, script_of, AllFit};

use crate::lines::numbered_line;
use crate::reading::{Language, read_lines};
use crate::{Line, ScriptBad, ScriptRule};
use mn_topo::Topology;
use std::alloc::Global;

/// As many bytes as a number of eight bits can count: so the compiler counts sixteen of them at a time.
const PART: usize = 255;

/// The line feeds of a part.
fn feeds_of_part(part: &[u8]) -> u8
    requires { length part.now ≤ 255 }
    ensures { result ≡ count_by (λ byte. byte == 10) part.now }
{
    let mut feeds = 0u8;
    for byte in part {
        if *byte == b'\n' {
            feeds += 1;
        }
    }
    feeds
}

fn feeds(bytes: &[u8]) -> usize
    ensures { result ≡ count_by (λ byte. byte == 10) bytes.now }
{
    let mut feeds = 0;
    let mut rest = bytes;
    'parts: while rest.len() > PART {
        let (part, next) = rest.split_at(PART);
        feeds += usize::from(feeds_of_part(part));
        rest = next;
    }
    feeds + usize::from(feeds_of_part(rest))
}

fn ends_open(bytes: &[u8]) -> bool
    ensures { result ≡ ends_open bytes.now }
{
    !bytes.is_empty() && bytes[bytes.len() - 1] != b'\n'
}

/// How many lines the bytes have: as many as line feeds, and one more where a byte stands after the last.
#[tactic(auto, using(crate::proofs::Counting::lines_counted))]
pub fn count_lines(bytes: &[u8]) -> u64
    ensures lines { result ≡ length (lines bytes.now) }
    ensures feeds { result ≡ line_count bytes.now }
{
    let feeds = feeds(bytes) as u64;
    if ends_open(bytes) { feeds + 1 } else { feeds }
}

/// The language of scripts over a topology.
#[derive(Drop)]
pub struct Commands<'t>(pub &'t Topology);

impl Language for Commands<'_> {
    type Line = Line;

    ghost says = { λ commands. command_says commands.0.now };

    ghost fits = { λ commands line. command_fits commands.0.now line.command };

    fn says(&self, number: u32, words: &[&[u8]]) -> Result<Option<Line>, ScriptRule> {
        numbered_line(self.0, number, words)
    }

    #[tactic(auto, using(crate::proofs::Numbered::says_again))]
    fn again(&self, line: &Line, number: u32) -> Option<Line> {
        Some(Line { number, ..*line })
    }

    #[tactic(auto, using(crate::proofs::Front::command_says_by_six))]
    fn by_six(&self) {}
}

/// The script of a file.
///
/// The first refused line is answered, with the first rule by number that it breaks.
pub fn read_script(alloc: Global, topology: &Topology, bytes: &[u8]) -> Result<Vec<Line>, ScriptBad>
    ensures value { Reads result (script_of topology.now bytes.now) }
    ensures fits { IfOk result (λ script. AllFit topology.now script.items) }
    ensures few { IfOk result (λ script. length script.items ≤ length (lines bytes.now)) }
{
    read_lines(alloc, &Commands(topology), 1, bytes)
}
