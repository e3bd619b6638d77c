//! The texts of which lines are made, put behind what a line has so far.
ghost use Rattle.std.specs.Prelude.{◌≡◌, ◌++◌, ◌∷◌, [], ℕ, true, codes, OnOk};
ghost use Rattle.std.specs.List.{list_all};
ghost use Rattle.std.specs.Io.Iter.{u64_saturate};
ghost use Rattle.mn_topo.specs.Steps.{has_link};
ghost use Rattle.mn_reach.specs.Plans.{numbers_of};
ghost use Rattle.mn_failures.specs.Meaning.{part_fits};
ghost use Rattle.mn_reach_run.specs.Lines.{pair_text, path_text, arrival_text, fall_text, part_text, more_parts_text, parts_text, failure_text, changes_count_text};
ghost use Rattle.mn_lines.specs.Lines.{text};
ghost use Rattle.mn_output_laws.specs.Tables.{link_names};

use itoa::Buffer;
use mn_base::{LinkNo, NodeNo, SiteNo};
use mn_candidates::Pair;
use mn_drops::Rule;
use mn_failures::Part;
use mn_lines::{node_name, put_pieces, rule_name, site_name};
use mn_text::put_prefix;
use mn_topo::Topology;
use mn_wiring::Dir;
use std::alloc::AllocError;

/// Puts a pair's site and prefix, a space behind each.
pub(crate) fn put_pair(
    line: &mut Vec<u8>,
    topology: &Topology,
    pair: Pair,
) -> Result<(), AllocError>
    ensures { OnOk result (line.new.items ≡ line.old.items ++ pair_text topology.now pair) }
{
    put_pieces(line, &[site_name(topology, pair.site), b" "])?;
    put_prefix(line, pair.prefix)?;
    put_pieces(line, &[b" "])
}

/// Puts the nodes of a path, each behind a space.
fn put_path(line: &mut Vec<u8>, topology: &Topology, path: &[NodeNo]) -> Result<(), AllocError>
    ensures { OnOk result (line.new.items ≡ line.old.items ++ path_text topology.now (numbers_of path.now)) }
{
    for node in path {
        put_pieces(line, &[b" ", node_name(topology, *node)])?;
    }
    Ok(())
}

/// Puts that packets are delivered, where, and on which path, and ends the line.
pub(crate) fn put_arrival(
    line: &mut Vec<u8>,
    topology: &Topology,
    site: SiteNo,
    ttl: u32,
    path: &[NodeNo],
) -> Result<(), AllocError>
    ensures { OnOk result (line.new.items ≡ line.old.items ++ arrival_text topology.now site.0 ttl (numbers_of path.now)) }
{
    let place = site_name(topology, site);
    let mut buffer = Buffer::new();
    let left = buffer.format(ttl).as_bytes();
    put_pieces(line, &[b"delivered ", place, b" ttl ", left, b" path"])?;
    put_path(line, topology, path)?;
    put_pieces(line, &[b"\n"])
}

/// Puts a cause and a place, and ends the line.
fn put_at<'a>(line: &mut Vec<u8>, cause: &'a [u8], place: &'a [u8]) -> Result<(), AllocError>
    ensures { OnOk result (line.new.items ≡ line.old.items ++ text (cause.now ∷ codes " at " ∷ place.now ∷ codes "\n" ∷ [])) }
{
    put_pieces(line, &[cause, b" at ", place, b"\n"])
}

/// Puts by which rule packets are dropped, and where, and ends the line.
pub(crate) fn put_fall(
    line: &mut Vec<u8>,
    topology: &Topology,
    rule: Rule,
    node: NodeNo,
) -> Result<(), AllocError>
    ensures { OnOk result (line.new.items ≡ line.old.items ++ fall_text topology.now rule node.0) }
{
    put_at(line, rule_name(rule).as_bytes(), node_name(topology, node))
}

/// Puts the words of a part that names a link.
fn put_link<'a>(
    line: &mut Vec<u8>,
    topology: &'a Topology,
    words: &'a [u8],
    link: LinkNo,
    dir: Dir,
) -> Result<(), AllocError>
    requires { has_link topology.now link ≡ true }
    ensures { OnOk result (line.new.items ≡ line.old.items ++ words.now ++ link_names topology.now link.0 dir) }
{
    topology.laws();
    let ends = &topology.links()[usize::from(link.0)];
    let (from, to) = match dir {
        Dir::Forth => (ends.a, ends.b),
        Dir::Back => (ends.b, ends.a),
    };
    let (from, to) = (node_name(topology, from), node_name(topology, to));
    put_pieces(line, &[words, from, b" ", to])
}

/// Puts a part in the words of a file of failures.
fn put_part(line: &mut Vec<u8>, topology: &Topology, part: Part) -> Result<(), AllocError>
    requires { part_fits topology.now part ≡ true }
    ensures { OnOk result (line.new.items ≡ line.old.items ++ part_text topology.now part) }
{
    match part {
        Part::LinkDown(link, dir) => put_link(line, topology, b"link down ", link, dir),
        Part::LdpOff(link, dir) => put_link(line, topology, b"ldp off ", link, dir),
        Part::BgpDown(one, other) => {
            let (one, other) = (node_name(topology, one), node_name(topology, other));
            put_pieces(line, &[b"bgp down ", one, b" ", other])
        }
        Part::NodeDown(node) => put_pieces(line, &[b"node down ", node_name(topology, node)]),
    }
}

/// Puts parts, each behind a comma.
fn put_more(line: &mut Vec<u8>, topology: &Topology, parts: &[Part]) -> Result<(), AllocError>
    requires { list_all (part_fits topology.now) parts.now ≡ true }
    ensures { OnOk result (line.new.items ≡ line.old.items ++ more_parts_text topology.now parts.now) }
{
    for part in parts {
        put_pieces(line, &[b", "])?;
        put_part(line, topology, *part)?;
    }
    Ok(())
}

/// Puts the parts of a failure.
fn put_parts(line: &mut Vec<u8>, topology: &Topology, parts: &[Part]) -> Result<(), AllocError>
    requires { list_all (part_fits topology.now) parts.now ≡ true }
    ensures { OnOk result (line.new.items ≡ line.old.items ++ parts_text topology.now parts.now) }
{
    match parts {
        [] => Ok(()),
        [part, more @ ..] => {
            put_part(line, topology, *part)?;
            put_more(line, topology, more)
        }
    }
}

/// Puts a failure by its number, its line and its parts.
pub(crate) fn put_failure(
    line: &mut Vec<u8>,
    topology: &Topology,
    number: u64,
    at: u32,
    parts: &[Part],
) -> Result<(), AllocError>
    requires { list_all (part_fits topology.now) parts.now ≡ true }
    ensures { (count : ℕ) → number ≡ u64_saturate count → OnOk result (line.new.items ≡ line.old.items ++ failure_text topology.now count at parts.now) }
{
    let (mut first, mut second) = (Buffer::new(), Buffer::new());
    let number = first.format(number).as_bytes();
    let at = second.format(at).as_bytes();
    put_pieces(line, &[b"failure ", number, b" line ", at, b" "])?;
    put_parts(line, topology, parts)
}

/// Puts how many pairs a failure changes, and ends the line.
pub(crate) fn put_counts(line: &mut Vec<u8>, lost: u64, moved: u64) -> Result<(), AllocError>
    ensures { OnOk result (line.new.items ≡ line.old.items ++ changes_count_text lost moved) }
{
    let (mut first, mut second) = (Buffer::new(), Buffer::new());
    let lost = first.format(lost).as_bytes();
    let moved = second.format(moved).as_bytes();
    put_pieces(line, &[b" lost ", lost, b" part 0 moved ", moved, b"\n"])
}
