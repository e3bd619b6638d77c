//! The links.
ghost use Rattle.std.specs.Prelude.{◌≡◌, ◌≤◌, ◌^◌, [], length};
ghost use Rattle.toml.specs.View.{table_view, items_view};
ghost use Rattle.mn_topo_toml.specs.Rules.{Reads};
ghost use Rattle.mn_topo_toml.specs.Tables.{tables_of};
ghost use Rattle.mn_topo_toml.specs.Links.{has_wrong_kind, links_from, ReadsDelays, ReadsEnds, ReadsLink};

use crate::tables::{has_unknown_key, is_integer_at, lacks, named_at, number_at, text_at};
use crate::{Place, TopoBad, TopoRule};
use mn_base::NodeNo;
use mn_topo::{Links, Nodes};
use mn_wiring::LinkEnds;
use std::alloc::Global;
use toml::{Table, Value};

const MOST_COST: u32 = 65_535;

const DEFAULT_COST: u32 = 10;

/// Ticks.
const MOST_DELAY: u32 = 1000;

const DEFAULT_DELAY: u32 = 1;

/// Frames from one that is lost to the next.
const MOST_LOSS: u32 = 65_535;

const DEFAULT_LOSS: u32 = 0;

/// Ticks.
const MOST_LIFE: u32 = 1_000_000;

const DEFAULT_LIFE: u32 = 2000;

/// An end isn't a text, or a figure isn't an integer.
fn has_wrong_kind(entry: &Table) -> bool
    ensures { result ≡ has_wrong_kind (table_view entry.now) }
{
    text_at("a", entry).is_none()
        || text_at("b", entry).is_none()
        || !is_integer_at("cost", entry)
        || !is_integer_at("delay", entry)
        || !is_integer_at("loss", entry)
        || !is_integer_at("life", entry)
}

/// The two nodes that an entry joins.
fn ends_in(nodes: &Nodes, entry: &Table) -> Result<(u16, u16), TopoRule>
    ensures { ReadsEnds nodes.now.names (table_view entry.now) result }
{
    if has_unknown_key(&["a", "b", "cost", "delay", "loss", "life"], entry) {
        return Err(TopoRule::UnknownKey);
    }
    if lacks("a", entry) || lacks("b", entry) {
        return Err(TopoRule::MissingKey);
    }
    if has_wrong_kind(entry) {
        return Err(TopoRule::WrongKind);
    }
    let a = named_at(nodes.names(), "a", entry).ok_or(TopoRule::NoSuchName)?;
    let b = named_at(nodes.names(), "b", entry).ok_or(TopoRule::NoSuchName)?;
    Ok((a, b))
}

/// The delay, the loss and the life of an entry, if each is in its range and the life is no less than the delay.
fn delays_in(entry: &Table) -> Option<(u32, u32, u32)>
    ensures { ReadsDelays (table_view entry.now) result }
{
    let delay = number_at("delay", 1, MOST_DELAY, DEFAULT_DELAY, entry)?;
    let loss = number_at("loss", 0, MOST_LOSS, DEFAULT_LOSS, entry)?;
    let life = number_at("life", 1, MOST_LIFE, DEFAULT_LIFE, entry)?;
    if life < delay {
        return None;
    }
    Some((delay, loss, life))
}

/// The link that an entry is.
fn link_in(links: &Links, nodes: &Nodes, entry: &Table) -> Result<LinkEnds, TopoRule>
    ensures { ReadsLink nodes.now.names links.now (table_view entry.now) result }
{
    let (a, b) = ends_in(nodes, entry)?;
    if a == b {
        return Err(TopoRule::SelfLink);
    }
    if links.are_joined(a, b) {
        return Err(TopoRule::TwiceLinked);
    }
    let Some(cost) = number_at("cost", 1, MOST_COST, DEFAULT_COST, entry) else {
        return Err(TopoRule::BadCost);
    };
    let Some((delay, loss, life)) = delays_in(entry) else {
        return Err(TopoRule::BadDelay);
    };
    Ok(LinkEnds {
        a: NodeNo(a),
        b: NodeNo(b),
        cost,
        delay,
        loss,
        life,
    })
}

/// The links of an array of tables.
pub(crate) fn read_links(alloc: Global, nodes: &Nodes, values: &[Value]) -> Result<Links, TopoBad>
    requires { length values.now ≤ 2 ^ 16 }
    ensures { Reads result (links_from nodes.now.names (tables_of (items_view values.now)) []) }
{
    let mut links = Links::new(alloc);
    for value in values {
        let Some(entry) = value.as_table() else {
            continue;
        };
        let place = Place::Link(links.as_slice().len() as u32);
        match link_in(&links, nodes, entry) {
            Ok(link) => links.put(link)?,
            Err(rule) => return Err(TopoBad::Refused { rule, place }),
        }
    }
    Ok(links)
}
