//! The VRF 0 with the distinguisher 65000:1: `vrf first PREFIX SOURCE` makes it anew, with this route offered;
//! `vrf replace PREFIX SOURCE`, `vrf withdraw PREFIX SOURCE`, `vrf retract PREFIX SOURCE`; `vrf lookup ADDRESS`,
//! `vrf lookup_among ADDRESS WAYS`, `vrf open_at PREFIX WAYS`, where WAYS has a digit for each node, `vrf held K`, and
//! `vrf sources PREFIX`, which tells its sources and how many prefixes of its length there are. `vrf add PREFIX SITE`,
//! `vrf del PREFIX SITE`, `vrf static K`, `vrf statics`; `vrf import TARGET on`, `off`, `vrf export ..`, `vrf imports`,
//! `vrf exports`, `vrf name`. `vrf take` takes all that it holds out, `vrf hold` gives it what was taken out and then nothing.
//! `vrf says REFUSAL` is a refusal as text.
ghost use Rattle.std.specs.Prelude.{◌≡◌, []};

use crate::routes::{route, source, source_words, ways};
use crate::targets::target_list;
use mn_base::{Rd, SiteNo, VrfNo};
use mn_prefix::{Prefix, PrefixTable};
use mn_rows::{Answer, Call, Paired, Slashed, displayed, done, shown};
use mn_vrf::{Routes, Source, StaticRoute, Vrf, VrfBad};
use std::alloc::{AllocError, Global};
use std::mem;

/// A VRF, and what was taken out of it.
#[derive(Drop)]
pub(crate) struct Held {
    vrf: Vrf,
    taken: Routes,
}

fn red(alloc: Global) -> Vrf
    ensures { result.held ≡ [] }
{
    Vrf::new(alloc, VrfNo(0), Rd(0x0000_FDE8_0000_0001))
}

impl Held {
    pub(crate) fn new(alloc: Global) -> Held {
        Held {
            vrf: red(alloc),
            taken: Routes::new(alloc),
        }
    }

    fn first(&mut self, alloc: Global, prefix: Prefix, source: Source) -> Answer {
        let mut vrf = red(alloc);
        let answer = vrf.offer(prefix, source);
        self.vrf = vrf;
        shown(alloc, &answer)
    }

    fn of_source(&mut self, alloc: Global, call: Call<'_>) -> Answer {
        let (Some(prefix), Some(source)) = (call.prefix(2), source(call)) else {
            return Ok(None);
        };
        match call.verb() {
            b"first" => self.first(alloc, prefix, source),
            b"replace" => shown(alloc, &self.vrf.replace(prefix, source)),
            b"withdraw" => shown(alloc, &self.vrf.withdraw(prefix, &source)),
            b"retract" => shown(alloc, &self.vrf.retract(prefix, &source)),
            _ => Ok(None),
        }
    }

    fn hold(&mut self, alloc: Global) -> Answer {
        let taken = mem::replace(&mut self.taken, Routes::new(alloc));
        self.vrf.hold(taken);
        done(alloc)
    }
}

fn of_static(alloc: Global, vrf: &mut Vrf, call: Call<'_>) -> Answer {
    let (Some(prefix), Some(site)) = (call.prefix(2), call.site(3)) else {
        return Ok(None);
    };
    match call.verb() {
        b"add" => shown(alloc, &vrf.add_static(prefix, site)),
        b"del" => shown(alloc, &vrf.del_static(prefix, site)),
        _ => Ok(None),
    }
}

fn of_target(alloc: Global, vrf: &mut Vrf, call: Call<'_>) -> Answer {
    let Some(target) = call.rt(2) else {
        return Ok(None);
    };
    let on = call.has(3, b"on");
    match call.verb() {
        b"import" => shown(alloc, &vrf.import(target, on)),
        b"export" => shown(alloc, &vrf.export(target, on)),
        _ => Ok(None),
    }
}

fn static_words(alloc: Global, found: Option<StaticRoute>) -> Answer {
    Ok(Some(match found {
        Some(found) => format!(in alloc; "{} {}", Slashed(found.prefix()), found.site().0)?,
        None => String::from_str(alloc, "none")?,
    }))
}

/// A prefix's sources, the preferred first, and how many prefixes have its length.
fn sources(alloc: Global, vrf: &Vrf, prefix: Prefix) -> Answer {
    let same_length = vrf.table().level(prefix.length()).len();
    let mut text = format!(in alloc; "{same_length}")?;
    if let Some(sources) = vrf.table().get(prefix) {
        for source in sources.as_slice() {
            text.push_str(", ")?;
            text.push_str(source_words(alloc, source)?.as_str())?;
        }
    }
    Ok(Some(text))
}

fn refusal(call: Call<'_>) -> Option<VrfBad> {
    match call.word(2)? {
        b"PrefixTaken" => Some(VrfBad::PrefixTaken {
            site: call.site(3)?,
        }),
        b"NoRouteThere" => Some(VrfBad::NoRouteThere),
        b"Unchanged" => Some(VrfBad::Unchanged),
        b"TargetsFull" => Some(VrfBad::TargetsFull),
        b"NoMemory" => Some(VrfBad::NoMemory),
        _ => None,
    }
}

fn at_number(alloc: Global, vrf: &Vrf, call: Call<'_>) -> Answer {
    let Some(k) = call.number_u32(2) else {
        return Ok(None);
    };
    match call.verb() {
        b"held" => route(alloc, vrf.held(k)),
        _ => static_words(alloc, vrf.static_at(k)),
    }
}

fn open_at(alloc: Global, vrf: &Vrf, call: Call<'_>) -> Answer {
    let Some(prefix) = call.prefix(2) else {
        return Ok(None);
    };
    let ways = ways(alloc, call)?;
    Ok(Some(match vrf.open_at(prefix, &ways) {
        Some(source) => source_words(alloc, &source)?,
        None => String::from_str(alloc, "none")?,
    }))
}

fn lookup_among(alloc: Global, vrf: &Vrf, call: Call<'_>) -> Answer {
    let Some(address) = call.address(2) else {
        return Ok(None);
    };
    let ways = ways(alloc, call)?;
    route(alloc, vrf.lookup_among(address, &ways))
}

/// What a VRF says without a change.
fn look(alloc: Global, vrf: &Vrf, call: Call<'_>) -> Answer {
    match call.verb() {
        b"held" | b"static" => at_number(alloc, vrf, call),
        b"statics" => shown(alloc, &vrf.statics().count()),
        b"imports" => shown(alloc, &vrf.imports().as_slice().len()),
        b"exports" => target_list(alloc, vrf.exports().as_slice()),
        b"name" => Ok(Some(format!(in alloc; "{} {}", vrf.number().0, Paired(vrf.rd().0))?)),
        b"lookup" => match call.address(2) {
            Some(address) => route(alloc, vrf.lookup(address)),
            None => Ok(None),
        },
        b"lookup_among" => lookup_among(alloc, vrf, call),
        b"open_at" => open_at(alloc, vrf, call),
        b"sources" => match call.prefix(2) {
            Some(prefix) => sources(alloc, vrf, prefix),
            None => Ok(None),
        },
        _ => Ok(None),
    }
}

pub(crate) fn vrf_row(alloc: Global, held: &mut Held, call: Call<'_>) -> Answer {
    match call.verb() {
        b"first" | b"replace" | b"withdraw" | b"retract" => held.of_source(alloc, call),
        b"add" | b"del" => of_static(alloc, &mut held.vrf, call),
        b"import" | b"export" => of_target(alloc, &mut held.vrf, call),
        b"take" => {
            held.taken = held.vrf.take_held();
            done(alloc)
        }
        b"hold" => held.hold(alloc),
        b"says" => match refusal(call) {
            Some(bad) => displayed(alloc, &bad),
            None => Ok(None),
        },
        _ => look(alloc, &held.vrf, call),
    }
}
