//! A set of route targets: `targets add TARGET`, `targets remove TARGET`, `targets has TARGET`, `targets meets TARGET ..`,
//! `targets all`.
use mn_base::Rt;
use mn_rows::{Answer, Call, Paired, shown};
use mn_targets::Targets;
use std::alloc::{AllocError, Global};

/// The targets that a row names from word `k` on.
pub(crate) fn targets_from(alloc: Global, call: Call<'_>, k: usize) -> Result<Vec<Rt>, AllocError> {
    let mut found = Vec::new(alloc);
    for at in k..64 {
        let Some(target) = call.rt(at) else {
            return Ok(found);
        };
        found.push(target)?;
    }
    Ok(found)
}

/// Targets as words, each behind a blank.
pub(crate) fn target_words(alloc: Global, targets: &[Rt]) -> Result<String, AllocError> {
    let mut text = String::new(alloc);
    for target in targets {
        let word = format!(in alloc; " {}", Paired(target.0))?;
        text.push_str(word.as_str())?;
    }
    Ok(text)
}

/// All targets of a set.
pub(crate) fn target_list(alloc: Global, targets: &[Rt]) -> Answer {
    let words = target_words(alloc, targets)?;
    Ok(Some(format!(in alloc; "all{words}")?))
}

fn of_target(alloc: Global, targets: &mut Targets, call: Call<'_>) -> Answer {
    let Some(target) = call.rt(2) else {
        return Ok(None);
    };
    match call.verb() {
        b"add" => shown(alloc, &targets.add(target)),
        b"remove" => shown(alloc, &targets.remove(target)),
        b"has" => shown(alloc, &targets.has(target)),
        _ => Ok(None),
    }
}

pub(crate) fn target_row(alloc: Global, targets: &mut Targets, call: Call<'_>) -> Answer {
    match call.verb() {
        b"meets" => {
            let others = targets_from(alloc, call, 2)?;
            shown(alloc, &targets.meets(&others))
        }
        b"all" => target_list(alloc, targets.as_slice()),
        _ => of_target(alloc, targets, call),
    }
}
