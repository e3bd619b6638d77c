//! Files of failures, read over the last topology.
use crate::escapes::unescaped;
use crate::topologies::Topologies;
use mn_failures::{FailureLine, exchange, read_failures};
use mn_rows::{Answer, Call, shown};
use mn_script::ScriptBad;
use mn_topo::Topology;
use std::alloc::{AllocError, Global};
use std::fmt::Write;

/// Each line's number and command, or `nothing`.
fn listed(alloc: Global, lines: &[FailureLine]) -> Result<String, AllocError> {
    let mut text = String::new(alloc);
    for line in lines {
        if !text.is_empty() {
            text.push(' ')?;
        }
        let number = line.number;
        let command = &line.command;
        write!(text, "{number} {command:?}")?;
    }
    if lines.is_empty() {
        text.push_str("nothing")?;
    }
    Ok(text)
}

/// The lines of a file of failures, or the rule that refuses it and the line.
fn reading(alloc: Global, topology: &Topology, bytes: &[u8]) -> Answer {
    match read_failures(alloc, topology, bytes) {
        Ok(lines) => Ok(Some(listed(alloc, &lines)?)),
        Err(ScriptBad::Refused { rule, line }) => {
            Ok(Some(format!(in alloc; "{rule:?} at {line}")?))
        }
        Err(ScriptBad::NoMemory) => Err(AllocError),
    }
}

/// The file of failures that the rest of the row spells.
pub(crate) fn failures_row(alloc: Global, topologies: &Topologies, call: Call<'_>) -> Answer {
    let (Some(topology), Some(bytes)) = (topologies.last(), unescaped(alloc, call.rest(1))?) else {
        return Ok(None);
    };
    reading(alloc, topology, &bytes)
}

/// Whether the two nodes exchange routes.
pub(crate) fn exchange_row(alloc: Global, topologies: &Topologies, call: Call<'_>) -> Answer {
    match (topologies.last(), call.node(1), call.node(2)) {
        (Some(topology), Some(one), Some(other)) => {
            shown(alloc, &exchange(topology, one, other))
        }
        _ => Ok(None),
    }
}
