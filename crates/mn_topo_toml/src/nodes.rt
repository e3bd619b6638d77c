//! The nodes.
ghost use Rattle.std.specs.Prelude.{◌≡◌, ◌≤◌, ◌^◌, length};
ghost use Rattle.toml.specs.View.{table_view, items_view};
ghost use Rattle.mn_topo.specs.Nodes.{no_nodes, is_loopback};
ghost use Rattle.mn_topo_toml.specs.Rules.{Reads};
ghost use Rattle.mn_topo_toml.specs.Tables.{tables_of};
ghost use Rattle.mn_topo_toml.specs.Nodes.{loopback_in, loopback_at, nodes_from, ReadsNode};

use crate::tables::{has_unknown_key, is_name, lacks, text_at};
use crate::{Place, TopoBad, TopoRule};
use mn_text::address_of;
use mn_topo::Nodes;
use std::alloc::Global;
use toml::{Table, Value};

fn is_loopback(address: u32) -> bool
    ensures { result ≡ is_loopback address }
{
    let first = address >> 24;
    !(first == 0 || first == 127) && first < 224
}

fn loopback_in(word: &[u8]) -> Option<u32>
    ensures { result ≡ loopback_in word.now }
{
    match address_of(word) {
        Some(address) if is_loopback(address) => Some(address),
        _ => None,
    }
}

fn loopback_at(entry: &Table) -> Option<u32>
    ensures { result ≡ loopback_at (table_view entry.now) }
{
    match text_at("loopback", entry) {
        Some(text) => loopback_in(text.as_bytes()),
        None => None,
    }
}

/// The name and the loopback of an entry.
#[tactic(auto, unfolding(crate::specs::Nodes::node_rule))]
fn node_in<'a>(nodes: &Nodes, entry: &'a Table) -> Result<(&'a [u8], u32), TopoRule>
    ensures { ReadsNode nodes.now (table_view entry.now) result }
{
    if has_unknown_key(&["name", "loopback"], entry) {
        return Err(TopoRule::UnknownKey);
    }
    if lacks("name", entry) || lacks("loopback", entry) {
        return Err(TopoRule::MissingKey);
    }
    let name = text_at("name", entry).ok_or(TopoRule::WrongKind)?;
    let loopback = loopback_at(entry).ok_or(TopoRule::WrongKind)?;
    let name = name.as_bytes();
    if !is_name(name) {
        return Err(TopoRule::BadName);
    }
    if nodes.names().has(name) {
        return Err(TopoRule::TwiceNamed);
    }
    if nodes.has_loopback(loopback) {
        return Err(TopoRule::TwiceLoopback);
    }
    Ok((name, loopback))
}

/// The nodes of an array of tables.
pub(crate) fn read_nodes(alloc: Global, values: &[Value]) -> Result<Nodes, TopoBad>
    requires { length values.now ≤ 2 ^ 16 }
    ensures { Reads result (nodes_from (tables_of (items_view values.now)) no_nodes) }
{
    let mut nodes = Nodes::new(alloc);
    for value in values {
        let Some(entry) = value.as_table() else {
            continue;
        };
        let place = Place::Node(nodes.names().len() as u32);
        match node_in(&nodes, entry) {
            Ok((name, loopback)) => nodes.put(alloc, name, loopback)?,
            Err(rule) => return Err(TopoBad::Refused { rule, place }),
        }
    }
    Ok(nodes)
}
