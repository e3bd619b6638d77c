//! `rd form BYTES`, `rt form BYTES`: whether these eight bytes are a route distinguisher or a target; `rd before BYTES BYTES`,
//! `rt before ..`; `list push NUMBER`, `list all`.
use mn_base::{ListOf, Rd, Rt};
use mn_rows::{Answer, Call, shown};
use std::alloc::{AllocError, Global};

/// A list of numbers.
#[derive(Drop)]
pub(crate) struct Numbers {
    list: ListOf<u16>,
}

impl Numbers {
    pub(crate) fn new(alloc: Global) -> Numbers {
        Numbers {
            list: ListOf::from_vec(Vec::new(alloc)),
        }
    }
}

/// The number of eight bytes in hexadecimal.
fn eight_bytes(alloc: Global, call: Call<'_>, k: usize) -> Result<Option<u64>, AllocError> {
    let Some(bytes) = call.bytes(alloc, k)? else {
        return Ok(None);
    };
    Ok(match bytes.as_slice() {
        [a, b, c, d, e, f, g, h] => Some(u64::from_be_bytes([*a, *b, *c, *d, *e, *f, *g, *h])),
        _ => None,
    })
}

fn form(alloc: Global, call: Call<'_>) -> Answer {
    let Some(number) = eight_bytes(alloc, call, 2)? else {
        return Ok(None);
    };
    match call.part() {
        b"rd" => shown(alloc, &Rd(number).has_form()),
        _ => shown(alloc, &Rt(number).has_form()),
    }
}

fn before(alloc: Global, call: Call<'_>) -> Answer {
    let (Some(one), Some(other)) = (eight_bytes(alloc, call, 2)?, eight_bytes(alloc, call, 3)?)
    else {
        return Ok(None);
    };
    match call.part() {
        b"rd" => shown(alloc, &(Rd(one) < Rd(other))),
        _ => shown(alloc, &(Rt(one) < Rt(other))),
    }
}

pub(crate) fn number_row(alloc: Global, numbers: &mut Numbers, call: Call<'_>) -> Answer {
    match (call.part(), call.verb()) {
        (b"list", b"push") => match call.number_u16(2) {
            Some(number) => shown(alloc, &numbers.list.push(number)),
            None => Ok(None),
        },
        (b"list", b"all") => shown(alloc, &numbers.list.as_slice()),
        (b"rd" | b"rt", b"form") => form(alloc, call),
        (b"rd" | b"rt", b"before") => before(alloc, call),
        _ => Ok(None),
    }
}
