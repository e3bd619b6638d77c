//! Scripts, read over the last topology.
use crate::escapes::unescaped;
use crate::topologies::Topologies;
use mn_rows::{Answer, Call, done, shown};
use mn_script::{Line, ScriptBad, count_lines, read_script};
use mn_topo::Topology;
use std::alloc::{AllocError, Global};
use std::fmt::Write;

/// Each line's number and command, or `nothing`.
fn listed(alloc: Global, lines: &[Line]) -> Result<String, AllocError> {
    let mut text = String::new(alloc);
    for line in lines {
        if !text.is_empty() {
            text.push(' ')?;
        }
        let number = line.number;
        let command = line.command;
        write!(text, "{number} {command:?}")?;
    }
    if lines.is_empty() {
        text.push_str("nothing")?;
    }
    Ok(text)
}

/// The lines of a script, or the rule that refuses it and the line.
fn reading(alloc: Global, topology: &Topology, bytes: &[u8]) -> Answer {
    match read_script(alloc, topology, bytes) {
        Ok(lines) => Ok(Some(listed(alloc, &lines)?)),
        Err(ScriptBad::Refused { rule, line }) => {
            Ok(Some(format!(in alloc; "{rule:?} at {line}")?))
        }
        Err(ScriptBad::NoMemory) => Err(AllocError),
    }
}

/// The script that the rest of the row spells.
pub(crate) fn script_row(alloc: Global, topologies: &Topologies, call: Call<'_>) -> Answer {
    let (Some(topology), Some(bytes)) = (topologies.last(), unescaped(alloc, call.rest(1))?) else {
        return Ok(None);
    };
    reading(alloc, topology, &bytes)
}

fn laws(alloc: Global) -> Answer {
    mn_script::first_refused();
    mn_script::all_read();
    mn_script::command_again();
    mn_script::command_only();
    done(alloc)
}

/// How many lines the rest of the row spells.
pub(crate) fn lines_row(alloc: Global, call: Call<'_>) -> Answer {
    if call.has(1, b"laws") {
        return laws(alloc);
    }
    match unescaped(alloc, call.rest(1))? {
        Some(bytes) => shown(alloc, &count_lines(&bytes)),
        None => Ok(None),
    }
}
