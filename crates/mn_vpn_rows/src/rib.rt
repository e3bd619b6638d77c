//! What was received from a peer: `rib set RD PREFIX LABEL TARGET ..`, `rib remove RD PREFIX`, `rib clear`, `rib size`, and `rib at K`,
//! which answers a route in these words.
use crate::targets::{target_words, targets_from};
use mn_rib_in::{HeardRoute, RibIn};
use mn_rows::{Answer, Call, Paired, Slashed, done, shown};
use std::alloc::Global;

fn route(alloc: Global, found: Option<&HeardRoute>) -> Answer {
    let Some(route) = found else {
        return Ok(Some(String::from_str(alloc, "none")?));
    };
    let targets = target_words(alloc, route.targets())?;
    Ok(Some(format!(in alloc;
        "{} {} {}{targets}",
        Paired(route.rd().0),
        Slashed(route.prefix()),
        route.label()
    )?))
}

fn set(alloc: Global, rib: &mut RibIn, call: Call<'_>) -> Answer {
    match (call.rd(2), call.prefix(3), call.number_u32(4)) {
        (Some(rd), Some(prefix), Some(label)) => {
            let targets = targets_from(alloc, call, 5)?;
            shown(alloc, &rib.set(rd, prefix, label, &targets))
        }
        _ => Ok(None),
    }
}

pub(crate) fn rib_row(alloc: Global, rib: &mut RibIn, call: Call<'_>) -> Answer {
    match call.verb() {
        b"set" => set(alloc, rib, call),
        b"remove" => match (call.rd(2), call.prefix(3)) {
            (Some(rd), Some(prefix)) => shown(alloc, &rib.remove(rd, prefix)),
            _ => Ok(None),
        },
        b"clear" => {
            rib.clear();
            done(alloc)
        }
        b"size" => shown(alloc, &(rib.len(), rib.iter().count())),
        b"at" => match call.number_u16(2) {
            Some(k) => route(alloc, rib.at(usize::from(k))),
            None => Ok(None),
        },
        _ => Ok(None),
    }
}
