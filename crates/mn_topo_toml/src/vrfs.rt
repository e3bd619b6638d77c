//! The VRFs.
ghost use Rattle.std.specs.Prelude.{◌≡◌, ◌≤◌, ◌^◌, [], length, option_map, IfOk};
ghost use Rattle.toml.specs.View.{table_view, items_view};
ghost use Rattle.mn_topo_toml.specs.Rules.{Reads};
ghost use Rattle.mn_topo_toml.specs.Tables.{tables_of};

use crate::tables::{has_unknown_key, is_name, lacks, named_at, text_at, texts_at};
use crate::{Place, TopoBad, TopoRule};
use mn_base::{ListOf, NodeNo, Rd, Rt};
use mn_text::{rd, rt};
use mn_topo::{Nodes, VrfDef, Vrfs};
use std::alloc::{AllocError, Global};
use toml::{Table, Value};

/// The most targets of one set.
const MOST_TARGETS: usize = 16;

/// The most nodes that have a VRF.
const MOST_EDGES: usize = 64;

/// What the first rules take from an entry.
#[derive(Drop)]
pub(crate) struct VrfHead<'a> {
    name: &'a [u8],
    node: u16,
    rd: Option<Rd>,
    import: &'a [Value],
    export: &'a [Value],
}

ghost use Rattle.mn_topo.specs.VrfTable.{no_vrfs};
ghost use Rattle.mn_topo_toml.specs.Vrfs.{rd_at, has_target, next_target, targets_from, ReadsKeys, ReadsValues, ReadsVrfHead, is_rd_taken, is_65th_edge, ReadsVrf, vrfs_from};

/// The distinguisher, where it is of its form.
fn rd_at(entry: &Table) -> Option<Rd>
    ensures { result ≡ rd_at (table_view entry.now) }
{
    match text_at("rd", entry) {
        Some(text) => rd(text.as_bytes()).ok(),
        None => None,
    }
}

fn has_target(targets: &[Rt], target: Rt) -> bool
    ensures { result ≡ has_target targets.now target }
{
    targets.iter().any(|other| target.0 == other.0)
}

/// The target that a text is, unless it is among the earlier ones of the set or is its 17th.
fn next_target(earlier: &[Rt], word: &[u8]) -> Option<Rt>
    ensures { result ≡ next_target earlier.now word.now }
{
    match rt(word) {
        Ok(target) if !has_target(earlier, target) && earlier.len() < MOST_TARGETS => Some(target),
        _ => None,
    }
}

/// The set of targets that the texts are.
fn target_set(alloc: Global, texts: &[Value]) -> Result<Option<ListOf<Rt>>, AllocError>
    ensures { IfOk result (λ targets. targets ≡ targets_from [] (items_view texts.now)) }
{
    let mut targets = Vec::new(alloc);
    for value in texts {
        let Some(text) = value.as_str() else {
            return Ok(None);
        };
        let Some(target) = next_target(&targets, text.as_bytes()) else {
            return Ok(None);
        };
        targets.push(target)?;
    }
    Ok(Some(ListOf::from_vec(targets)))
}

/// Whether a VRF at the node makes a 65th edge.
fn is_65th_edge(vrfs: &Vrfs, node: u16) -> bool
    ensures { result ≡ is_65th_edge vrfs.now node }
{
    !vrfs.is_edge(node) && vrfs.edge_count() >= MOST_EDGES
}

/// The name and the sets of targets of an entry, if each value is of its kind.
fn values_in<'a>(entry: &'a Table) -> Option<(&'a [u8], &'a [Value], &'a [Value])>
    ensures { ReadsValues (table_view entry.now) result }
{
    let name = text_at("name", entry)?;
    if text_at("node", entry).is_none() || text_at("rd", entry).is_none() {
        return None;
    }
    let import = texts_at("import", entry)?;
    let export = texts_at("export", entry)?;
    Some((name.as_bytes(), import, export))
}

/// The same, if the entry's keys are as they have to be too.
fn keyed_in<'a>(entry: &'a Table) -> Result<(&'a [u8], &'a [Value], &'a [Value]), TopoRule>
    ensures { ReadsKeys (table_view entry.now) result }
{
    if has_unknown_key(&["name", "node", "rd", "import", "export"], entry) {
        return Err(TopoRule::UnknownKey);
    }
    if lacks("name", entry) || lacks("node", entry) || lacks("rd", entry) {
        return Err(TopoRule::MissingKey);
    }
    match values_in(entry) {
        Some(values) => Ok(values),
        None => Err(TopoRule::WrongKind),
    }
}

/// What the first rules take from an entry.
fn head_in<'a>(vrfs: &Vrfs, nodes: &Nodes, entry: &'a Table) -> Result<VrfHead<'a>, TopoRule>
    ensures { ReadsVrfHead nodes.now.names vrfs.now (table_view entry.now) result }
{
    let (name, import, export) = keyed_in(entry)?;
    if !is_name(name) {
        return Err(TopoRule::BadName);
    }
    if vrfs.names().has(name) {
        return Err(TopoRule::TwiceNamed);
    }
    let Some(node) = named_at(nodes.names(), "node", entry) else {
        return Err(TopoRule::NoSuchName);
    };
    let rd = rd_at(entry);
    if is_rd_taken(vrfs, rd) {
        return Err(TopoRule::TwiceRd);
    }
    Ok(VrfHead {
        name,
        node,
        rd,
        import,
        export,
    })
}

fn is_rd_taken(vrfs: &Vrfs, rd: Option<Rd>) -> bool
    ensures { result ≡ is_rd_taken vrfs.now rd }
{
    match rd {
        Some(rd) => vrfs.has_rd(rd),
        None => false,
    }
}

/// The name and the VRF that an entry is.
#[tactic(auto, unfolding(crate::specs::Vrfs::vrf_rule))]
fn vrf_in<'a>(
    alloc: Global,
    vrfs: &Vrfs,
    nodes: &Nodes,
    entry: &'a Table,
) -> Result<Result<(&'a [u8], VrfDef), TopoRule>, AllocError>
    ensures { IfOk result (ReadsVrf nodes.now.names vrfs.now (table_view entry.now)) }
{
    let head = match head_in(vrfs, nodes, entry) {
        Ok(head) => head,
        Err(rule) => return Ok(Err(rule)),
    };
    let Some(rd) = head.rd else {
        return Ok(Err(TopoRule::BadTarget));
    };
    let Some(import) = target_set(alloc, head.import)? else {
        return Ok(Err(TopoRule::BadTarget));
    };
    let Some(export) = target_set(alloc, head.export)? else {
        return Ok(Err(TopoRule::BadTarget));
    };
    if is_65th_edge(vrfs, head.node) {
        return Ok(Err(TopoRule::TooMany));
    }
    let vrf = VrfDef {
        node: NodeNo(head.node),
        rd,
        import,
        export,
    };
    Ok(Ok((head.name, vrf)))
}

/// The VRFs of an array of tables.
pub(crate) fn read_vrfs(alloc: Global, nodes: &Nodes, values: &[Value]) -> Result<Vrfs, TopoBad>
    requires { length values.now ≤ 2 ^ 16 }
    ensures { Reads result (vrfs_from nodes.now.names (tables_of (items_view values.now)) no_vrfs) }
{
    let mut vrfs = Vrfs::new(alloc);
    for value in values {
        let Some(entry) = value.as_table() else {
            continue;
        };
        let place = Place::Vrf(vrfs.names().len() as u32);
        match vrf_in(alloc, &vrfs, nodes, entry)? {
            Ok((name, vrf)) => vrfs.put(alloc, name, vrf)?,
            Err(rule) => return Err(TopoBad::Refused { rule, place }),
        }
    }
    Ok(vrfs)
}
