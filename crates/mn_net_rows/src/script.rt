//! `script play` plays the text's lines up to the one that stops the script, and tells how many; `script play N` with a watch
//! whose call N fails. Then `script line N` tells what a line, from 1, came to, and how many steps are done and what the clock is
//! after it; `script journal` compares the lines of the steps with the text, and `script end` the last of them; `script noted` tells
//! how many there are, `script faults` how many reads and writes failed.
ghost use Rattle.std.specs.Prelude.{◌≡◌, true, false};
ghost use Rattle.mn_script.specs.Lines.{command_fits};
ghost use Rattle.mn_sched.specs.Playing.{is_show};

use crate::recorder::Recorder;
use mn_net::Net;
use mn_rows::{Answer, Call, shown};
use mn_sched::{Played, Stopped, play};
use mn_script::{Command, Line, ScriptBad, count_lines, damage_fits, read_script};
use mn_topo::Topology;
use std::alloc::{AllocError, Global};

/// What a line came to, and how many steps were done and what the clock was after it.
#[derive(Clone, Copy)]
struct Outcome {
    played: Result<Played, Stopped>,
    steps: usize,
    tick: u64,
}

/// What the lines of a script came to, and what the watch kept.
#[derive(Drop)]
pub(crate) struct Playing {
    watch: Recorder,
    outcomes: Vec<Outcome>,
}

impl Playing {
    pub(crate) fn new(alloc: Global) -> Playing {
        Playing {
            watch: Recorder::new(alloc, Vec::new(alloc), 0),
            outcomes: Vec::new(alloc),
        }
    }
}

/// Whether the line can be played: it isn't a table of the report.
fn is_playable(topology: &Topology, command: &Command) -> bool
    ensures fits { result ≡ true → command_fits topology.now command.now ≡ true }
    ensures shows { result ≡ true → is_show command.now ≡ false }
{
    match *command {
        Command::Do(step) => topology.fits(&step),
        Command::Damage(damage) => damage_fits(topology, &damage),
        Command::Run(ticks) => ticks <= 1_000_000,
        Command::Drain(Some(most)) => most <= 4_000_000,
        Command::Drain(None) | Command::Flush => true,
        Command::Show(_) => false,
    }
}

/// Plays a line. One that can't be played counts as out of memory, which no row expects.
fn play_line(net: &mut Net, command: &Command, watch: &mut Recorder) -> Result<Played, Stopped> {
    if is_playable(net.topology(), command) && net.tick() <= 1 << 61 {
        play(net, command, watch)
    } else {
        Err(Stopped::NoMemory)
    }
}

/// Plays lines, up to the one that stops the script.
fn play_through(net: &mut Net, lines: &[Line], playing: &mut Playing) -> Result<(), AllocError> {
    for line in lines {
        let played = play_line(net, &line.command, &mut playing.watch);
        playing.outcomes.push(Outcome {
            played,
            steps: net.journal().len(),
            tick: net.tick(),
        })?;
        if played.is_err() {
            return Ok(());
        }
    }
    Ok(())
}

/// Plays a script over a watch that fails at its call of this number.
fn play_text(
    alloc: Global,
    net: &mut Net,
    playing: &mut Playing,
    record: &[u8],
    text: &str,
    failing: u64,
) -> Answer {
    let lines = match read_script(alloc, net.topology(), text.as_bytes()) {
        Ok(lines) => lines,
        Err(bad) => return shown(alloc, &Err::<(), ScriptBad>(bad)),
    };
    let mut packet = Vec::new(alloc);
    packet.extend_from_slice(record)?;
    *playing = Playing {
        watch: Recorder::new(alloc, packet, failing),
        outcomes: Vec::new(alloc),
    };
    play_through(net, &lines, playing)?;
    Ok(Some(format!(in alloc; "{} lines", playing.outcomes.len())?))
}

fn line(alloc: Global, playing: &Playing, number: Option<u32>) -> Answer {
    let Some(place) = number.and_then(|number| number.checked_sub(1)) else {
        return Ok(None);
    };
    Ok(Some(match playing.outcomes.get(place as usize) {
        Some(outcome) => {
            format!(in alloc;
                "{} steps, tick {}: {:?}",
                outcome.steps, outcome.tick, outcome.played
            )?
        }
        None => String::from_str(alloc, "not played")?,
    }))
}

/// That the journal is as expected, or what it is.
fn compared(alloc: Global, journal: &[u8], is_expected: bool) -> Answer {
    if is_expected {
        return Ok(Some(String::from_str(alloc, "the text")?));
    }
    match str::from_utf8(journal) {
        Ok(found) => shown(alloc, &found),
        Err(_) => Ok(None),
    }
}

fn faults(alloc: Global, watch: &Recorder) -> Answer {
    let text = format!(in alloc; "{} of reading, {} of writing", watch.reads, watch.writes)?;
    Ok(Some(text))
}

pub(crate) fn script_row(
    alloc: Global,
    net: &mut Net,
    playing: &mut Playing,
    record: &[u8],
    call: Call<'_>,
) -> Answer {
    let text = call.text();
    match call.verb() {
        b"play" => {
            let failing = call.number(2, u64::MAX).unwrap_or(0);
            play_text(alloc, net, playing, record, text, failing)
        }
        b"line" => line(alloc, playing, call.number_u32(2)),
        b"journal" => {
            let journal = playing.watch.journal.as_slice();
            compared(alloc, journal, journal == text.as_bytes())
        }
        b"end" => {
            let journal = playing.watch.journal.as_slice();
            compared(alloc, journal, journal.ends_with(text.as_bytes()))
        }
        b"noted" => shown(alloc, &count_lines(&playing.watch.journal)),
        b"faults" => faults(alloc, &playing.watch),
        _ => Ok(None),
    }
}
