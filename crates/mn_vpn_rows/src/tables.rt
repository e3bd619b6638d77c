//! Two kinds of tables of prefixes, `plain` and `levels`, each with `insert PREFIX VALUE`, `remove PREFIX`, `get PREFIX` and
//! `longest ADDRESS`; `levels level LENGTH ADDRESS` is how many prefixes have the length, and the value at one of them.
use mn_lpm::LengthTable;
use mn_prefix::{Prefix, PrefixTable};
use mn_rows::{Answer, Call, Slashed, shown};
use std::alloc::Global;

/// The longest match of an address, and its value.
fn longest<T: PrefixTable<u16>>(alloc: Global, table: &T, call: Call<'_>) -> Answer {
    let Some(address) = call.address(2) else {
        return Ok(None);
    };
    Ok(Some(match table.longest(address) {
        Some((prefix, value)) => format!(in alloc; "{} {value}", Slashed(prefix))?,
        None => String::from_str(alloc, "none")?,
    }))
}

fn at_prefix<T: PrefixTable<u16>>(
    alloc: Global,
    table: &mut T,
    call: Call<'_>,
    prefix: Prefix,
) -> Answer {
    match call.verb() {
        b"insert" => match call.number_u16(3) {
            Some(value) => shown(alloc, &table.insert(prefix, value)),
            None => Ok(None),
        },
        b"remove" => shown(alloc, &table.remove(prefix)),
        b"get" => shown(alloc, &table.get(prefix).copied()),
        _ => Ok(None),
    }
}

pub(crate) fn table_row<T: PrefixTable<u16>>(
    alloc: Global,
    table: &mut T,
    call: Call<'_>,
) -> Answer {
    if matches!(call.verb(), b"longest") {
        return longest(alloc, table, call);
    }
    match call.prefix(2) {
        Some(prefix) => at_prefix(alloc, table, call, prefix),
        None => Ok(None),
    }
}

pub(crate) fn level_row(alloc: Global, table: &LengthTable<u16>, call: Call<'_>) -> Answer {
    match (call.number(2, 32), call.address(3)) {
        (Some(length), Some(address)) => {
            let level = table.level(length as u8);
            shown(alloc, &(level.len(), level.get(&address).copied()))
        }
        _ => Ok(None),
    }
}
