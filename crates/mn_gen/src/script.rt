// The script of a number.
ghost use Rattle.std.specs.Prelude.{◌≡◌, ◌≤◌, ◌++◌, nat_lt, filter, IfOk, OnOk, string_bytes};
ghost use Rattle.std.specs.List.{flat_map};
ghost use Rattle.mn_gen.specs.Shape.{edges};
ghost use Rattle.mn_gen.specs.Script.{link_up, ring_up, chord_up, bgp_up, sessions_up, inject, sending, turns, links_up, brought_up, script_text};

use crate::shape::{after, below, edge_count, edges, half, node_count};
use std::alloc::{AllocError, Global};

/// How many packets a script sends.
#[tactic(auto, unfolding(crate::specs::Script::turns))]
fn turns() -> u32
    ensures { result ≡ turns }
{
    1_000
}

#[tactic(auto, unfolding(crate::specs::Script::link_up))]
fn link_up(alloc: Global, a: u32, b: u64) -> Result<String, AllocError>
    ensures { IfOk result (λ words. string_bytes words ≡ link_up a b) }
{
    format!(in alloc; "link up n{a} n{b}\n")
}

#[tactic(auto, unfolding(crate::specs::Script::bgp_up))]
fn bgp_up(alloc: Global, edge: u32, peer: u32) -> Result<String, AllocError>
    ensures { IfOk result (λ words. string_bytes words ≡ bgp_up edge peer) }
{
    format!(in alloc; "bgp up n{edge} n{peer}\n")
}

#[tactic(auto, unfolding(crate::specs::Script::inject))]
fn inject(alloc: Global, letter: &str, edge: u32, nth: u64) -> Result<String, AllocError>
    ensures { IfOk result (λ words. string_bytes words ≡ inject letter.now edge nth) }
{
    format!(in alloc; "inject {letter}{edge} {nth}\n")
}

fn put_ring(alloc: Global, out: &mut Vec<u8>, number: u32, nodes: &[u32]) -> Result<(), AllocError>
    requires { number ≤ 99 }
    ensures { OnOk result (out.new.items ≡ out.old.items ++ flat_map (ring_up number) nodes.now) }
{
    for node in nodes {
        let words = link_up(alloc, *node, after(number, *node))?;
        out.extend_from_slice(words.as_bytes())?;
    }
    Ok(())
}

fn put_chords(
    alloc: Global,
    out: &mut Vec<u8>,
    number: u32,
    nodes: &[u32],
) -> Result<(), AllocError>
    requires { number ≤ 99 }
    ensures { OnOk result (out.new.items ≡ out.old.items ++ flat_map (chord_up number) nodes.now) }
{
    let across = u64::from(half(number));
    for node in nodes {
        let words = link_up(alloc, *node, u64::from(*node) + across)?;
        out.extend_from_slice(words.as_bytes())?;
    }
    Ok(())
}

/// The sessions of an edge with the later ones.
fn put_sessions(alloc: Global, out: &mut Vec<u8>, edge: u32, all: &[u32]) -> Result<(), AllocError>
    ensures { OnOk result (out.new.items ≡ out.old.items ++ sessions_up all.now edge) }
{
    for peer in all {
        if edge < *peer {
            let words = bgp_up(alloc, edge, *peer)?;
            out.extend_from_slice(words.as_bytes())?;
        }
    }
    Ok(())
}

fn put_all_sessions(alloc: Global, out: &mut Vec<u8>, edges: &[u32]) -> Result<(), AllocError>
    ensures { OnOk result (out.new.items ≡ out.old.items ++ flat_map (sessions_up edges.now) edges.now) }
{
    for edge in edges {
        put_sessions(alloc, out, *edge, edges)?;
    }
    Ok(())
}

/// The sessions of all pairs of edges.
fn put_pairs(alloc: Global, out: &mut Vec<u8>, number: u32) -> Result<(), AllocError>
    requires { number ≤ 99 }
    ensures { OnOk result (out.new.items ≡ out.old.items ++ flat_map (sessions_up (edges number)) (edges number)) }
{
    let edges = edges(alloc, number)?;
    put_all_sessions(alloc, out, &edges)
}

/// The line of a turn: its packet enters at red sites and blue ones by turns, edge by edge.
fn sending(alloc: Global, number: u32, turn: u32) -> Result<String, AllocError>
    requires { number ≤ 99 }
    ensures { IfOk result (λ words. string_bytes words ≡ sending number turn) }
{
    let edges = edge_count(number);
    let letter = if turn % 2 == 0 { "r" } else { "b" };
    let nth = (7 * turn as u64 + 1) % edges as u64 + 1;
    inject(alloc, letter, 4 * (turn % edges), nth)
}

fn put_sendings(
    alloc: Global,
    out: &mut Vec<u8>,
    number: u32,
    turns: &[u32],
) -> Result<(), AllocError>
    requires { number ≤ 99 }
    ensures { OnOk result (out.new.items ≡ out.old.items ++ flat_map (sending number) turns.now) }
{
    for turn in turns {
        let words = sending(alloc, number, *turn)?;
        out.extend_from_slice(words.as_bytes())?;
    }
    Ok(())
}

fn links_up(alloc: Global, number: u32) -> Result<Vec<u8>, AllocError>
    requires { number ≤ 99 }
    ensures { IfOk result (λ text. text.items ≡ links_up number) }
{
    let nodes = below(alloc, node_count(number))?;
    let chords = below(alloc, half(number))?;
    let mut out = Vec::new(alloc);
    put_ring(alloc, &mut out, number, &nodes)?;
    put_chords(alloc, &mut out, number, &chords)?;
    Ok(out)
}

/// Links, sessions, and what follows from them.
fn brought_up(alloc: Global, number: u32) -> Result<Vec<u8>, AllocError>
    requires { number ≤ 99 }
    ensures { IfOk result (λ text. text.items ≡ brought_up number) }
{
    let mut out = links_up(alloc, number)?;
    put_pairs(alloc, &mut out, number)?;
    out.extend_from_slice("drain 4000000\n".as_bytes())?;
    Ok(out)
}

/// The script of a number, 0 to 99: every link up, a session for each pair of edges, all settled by a drain, a thousand packets, and a
/// flush.
#[tactic(auto, unfolding(crate::specs::Script::script_text))]
pub fn script_text(alloc: Global, number: u32) -> Result<Vec<u8>, AllocError>
    requires { number ≤ 99 }
    ensures { IfOk result (λ text. text.items ≡ script_text number) }
{
    let turns = below(alloc, turns())?;
    let mut out = brought_up(alloc, number)?;
    put_sendings(alloc, &mut out, number, &turns)?;
    out.extend_from_slice("flush\n".as_bytes())?;
    Ok(out)
}
