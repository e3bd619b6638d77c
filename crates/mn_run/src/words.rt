//! The words of the command line.
ghost use Rattle.std.specs.Prelude.{◌≡◌, ◌≤◌, IfSome};
ghost use Rattle.mn_edge.specs.Written.{texts};
ghost use Rattle.mn_join_run.specs.Inside.{is_inside};
ghost use Rattle.mn_reach_run.specs.Answer.{name_of};
ghost use Rattle.mn_run.specs.Words.{word, is_run, is_check, is_flood, is_reflect, is_join, is_reach, failures_name, generator_number, job_of, IsForm};

use mn_text::number_up_to;

/// The greatest number of the generator.
const MOST_NUMBER: u64 = 99;

/// What the words of a command line ask for.
#[derive(Clone, Copy, Debug, PartialEq, Eq)]
pub(crate) enum Job {
    /// `run TOPOLOGY SCRIPT CAPTURE FOLDER`.
    Run,
    /// `check TOPOLOGY`.
    Check,
    /// `flood TOPOLOGY SCRIPT`.
    Flood,
    /// `reflect TOPOLOGY SCRIPT`.
    Reflect,
    /// `join TOPOLOGY1 TOPOLOGY2 JOINTS SCRIPT CAPTURE FOLDER`.
    Join,
    /// `reach TOPOLOGY [FAILURES]`.
    Reach,
    /// `generate NUMBER`, from 0 to 99.
    Generate(u32),
    /// Nothing that the program does.
    Nothing,
}

/// The word at a place, from 0; the empty one where there is none.
pub(crate) fn word(words: &[String], place: usize) -> &str
    ensures { result.now ≡ word (texts words.now) place }
{
    match words.get(place) {
        Some(word) => word.as_str(),
        None => "",
    }
}

/// What the words ask for.
pub(crate) fn parse_job(words: &[String]) -> Job
    ensures value { result ≡ job_of (texts words.now) }
    ensures form { IsForm result (texts words.now) }
{
    if is_run(words) {
        Job::Run
    } else if is_check(words) {
        Job::Check
    } else if is_flood(words) {
        Job::Flood
    } else if is_reflect(words) {
        Job::Reflect
    } else if is_join(words) {
        Job::Join
    } else if is_reach(words) {
        Job::Reach
    } else {
        match generator_number(words) {
            Some(number) => Job::Generate(number),
            None => Job::Nothing,
        }
    }
}

/// Whether the words are `run TOPOLOGY SCRIPT CAPTURE FOLDER`, and no input lies in the folder that is written.
fn is_run(words: &[String]) -> bool
    ensures { result ≡ is_run (texts words.now) }
{
    if words.len() != 5 || word(words, 0) != "run" {
        return false;
    }
    let folder = word(words, 4);
    !(is_inside(word(words, 1), folder)
        || is_inside(word(words, 2), folder)
        || is_inside(word(words, 3), folder))
}

/// Whether the words are `check TOPOLOGY`.
fn is_check(words: &[String]) -> bool
    ensures { result ≡ is_check (texts words.now) }
{
    words.len() == 2 && word(words, 0) == "check"
}

/// Whether the words are `flood TOPOLOGY SCRIPT`.
fn is_flood(words: &[String]) -> bool
    ensures { result ≡ is_flood (texts words.now) }
{
    words.len() == 3 && word(words, 0) == "flood"
}

/// Whether the words are `reflect TOPOLOGY SCRIPT`.
fn is_reflect(words: &[String]) -> bool
    ensures { result ≡ is_reflect (texts words.now) }
{
    words.len() == 3 && word(words, 0) == "reflect"
}

/// Whether the words are `join TOPOLOGY1 TOPOLOGY2 JOINTS SCRIPT CAPTURE FOLDER`, and no input lies in the folder that is written.
fn is_join(words: &[String]) -> bool
    ensures { result ≡ is_join (texts words.now) }
{
    if words.len() != 7 || word(words, 0) != "join" {
        return false;
    }
    let folder = word(words, 6);
    !(is_inside(word(words, 1), folder)
        || is_inside(word(words, 2), folder)
        || is_inside(word(words, 3), folder)
        || is_inside(word(words, 4), folder)
        || is_inside(word(words, 5), folder))
}

/// Whether the words are `reach TOPOLOGY [FAILURES]`.
fn is_reach(words: &[String]) -> bool
    ensures { result ≡ is_reach (texts words.now) }
{
    (words.len() == 2 || words.len() == 3) && word(words, 0) == "reach"
}

/// The name of the file of failures, if one is given.
pub(crate) fn failures_name(words: &[String]) -> Option<&str>
    ensures { name_of result ≡ failures_name (texts words.now) }
{
    if words.len() == 3 {
        Some(word(words, 2))
    } else {
        None
    }
}

/// The number of `generate NUMBER`, from 0 to 99.
fn generator_number(words: &[String]) -> Option<u32>
    ensures number { result ≡ generator_number (texts words.now) }
    ensures small { IfSome result (λ number. number ≤ 99) }
{
    if words.len() != 2 || word(words, 0) != "generate" {
        return None;
    }
    match number_up_to(word(words, 1).as_bytes(), MOST_NUMBER) {
        Some(number) => Some(number as u32),
        None => None,
    }
}

/// Whether the name begins with the folder's and `/`.
fn is_inside(name: &str, folder: &str) -> bool
    ensures { result ≡ is_inside name.now folder.now }
{
    let name = name.as_bytes();
    let folder = folder.as_bytes();
    if name.len() <= folder.len() {
        return false;
    }
    &name[..folder.len()] == folder && name[folder.len()] == b'/'
}
