//! Parts of a network fail, and are mended.
ghost use Rattle.std.specs.Prelude.{◌≡◌, ◌++◌, List, ◌<◌, ◌||◌, ◌&&◌, ◌==◌, ℕ, true, false, [], length, OnOk};
ghost use Rattle.std.specs.List.{list_all, list_any};
ghost use Rattle.mn_topo.specs.Network.{link_numbered};
ghost use Rattle.mn_failures.specs.Meaning.{part_fits, is_end_of, takes_down, switches_off, ends_session, is_down, is_ldp_off, is_bgp_off};
ghost use Rattle.mn_failures.specs.declared.command.Part.{Part};
ghost use Rattle.mn_reach.specs.Reaching.{is_between};
ghost use Rattle.mn_reach_run.specs.Playing.{AreSet, AreApart, HaveFailed};

use mn_base::{LinkNo, NodeNo};
use mn_failures::Part;
use mn_reach::Reach;
use mn_topo::Topology;
use mn_wiring::LinkEnds;
use std::alloc::AllocError;

/// Whether the node is an end of the link.
fn is_end_of(link: &LinkEnds, node: NodeNo) -> bool
    ensures { result ≡ is_end_of link.now node.0 }
{
    link.a.0 == node.0 || link.b.0 == node.0
}

/// Makes a link up or down if the node is an end of it.
fn set_if_end(
    reach: &mut Reach,
    topology: &Topology,
    link: u16,
    node: NodeNo,
    up: bool,
) -> Result<(), AllocError>
    requires sound { reach.old.failed ≡ false }
    requires links { reach.old.plan.links ≡ topology.now.links }
    requires each { length reach.old.up ≡ length topology.now.links }
    requires there { link < length topology.now.links }
    ensures set { OnOk result (AreSet (λ l. (link == l) && is_end_of (link_numbered topology.now l) node.0) up reach.old.up reach.new.up) }
    ensures same { OnOk result (reach.new ≡ record reach.old { up = reach.new.up }) }
{
    if is_end_of(&topology.links()[usize::from(link)], node) {
        reach.set_up(LinkNo(link), up)
    } else {
        Ok(())
    }
}

/// How many links there are: at most 1,024.
pub(crate) fn link_count(topology: &Topology) -> u16
    ensures { result ≡ length topology.now.links }
{
    topology.laws();
    topology.links().len() as u16
}

/// Makes all links of a node up or down.
fn set_links_of(
    reach: &mut Reach,
    topology: &Topology,
    node: NodeNo,
    up: bool,
) -> Result<(), AllocError>
    requires sound { reach.old.failed ≡ false }
    requires links { reach.old.plan.links ≡ topology.now.links }
    requires each { length reach.old.up ≡ length topology.now.links }
    ensures set { OnOk result (AreSet (λ l. is_end_of (link_numbered topology.now l) node.0) up reach.old.up reach.new.up) }
    ensures same { OnOk result (reach.new ≡ record reach.old { up = reach.new.up }) }
{
    for link in 0..link_count(topology) {
        set_if_end(reach, topology, link, node, up)?;
    }
    Ok(())
}

/// Switches the links and the LDP that a part names.
fn switch_part(
    reach: &mut Reach,
    topology: &Topology,
    part: Part,
    on: bool,
) -> Result<(), AllocError>
    requires fits { part_fits topology.now part ≡ true }
    requires sound { reach.old.failed ≡ false }
    requires links { reach.old.plan.links ≡ topology.now.links }
    requires up_each { length reach.old.up ≡ length topology.now.links }
    requires ldp_each { length reach.old.ldp ≡ length topology.now.links }
    ensures up { OnOk result (AreSet (λ l. takes_down topology.now l part) on reach.old.up reach.new.up) }
    ensures ldp { OnOk result (AreSet (λ l. switches_off l part) on reach.old.ldp reach.new.ldp) }
    ensures same { OnOk result (reach.new ≡ record reach.old { up = reach.new.up; ldp = reach.new.ldp }) }
{
    match part {
        Part::LinkDown(link, _) => reach.set_up(link, on),
        Part::LdpOff(link, _) => {
            reach.set_ldp(link, on);
            Ok(())
        }
        Part::BgpDown(_, _) => Ok(()),
        Part::NodeDown(node) => set_links_of(reach, topology, node, on),
    }
}

/// Switches the links and the LDP that parts name.
fn switch_parts(
    reach: &mut Reach,
    topology: &Topology,
    parts: &[Part],
    on: bool,
) -> Result<(), AllocError>
    requires fit { list_all (part_fits topology.now) parts.now ≡ true }
    requires sound { reach.old.failed ≡ false }
    requires links { reach.old.plan.links ≡ topology.now.links }
    requires up_each { length reach.old.up ≡ length topology.now.links }
    requires ldp_each { length reach.old.ldp ≡ length topology.now.links }
    ensures up { OnOk result (AreSet (is_down topology.now parts.now) on reach.old.up reach.new.up) }
    ensures ldp { OnOk result (AreSet (is_ldp_off parts.now) on reach.old.ldp reach.new.ldp) }
    ensures same { OnOk result (reach.new ≡ record reach.old { up = reach.new.up; ldp = reach.new.ldp }) }
{
    for part in parts {
        switch_part(reach, topology, *part, on)?;
    }
    Ok(())
}

/// Ends the session that a part names.
fn end_session_of(reach: &mut Reach, part: Part) -> Result<(), AllocError>
    ensures ended { OnOk result ((one other : ℕ) → list_any (is_between one other) reach.new.ended ≡
        (list_any (is_between one other) reach.old.ended || ends_session one other part)) }
    ensures same { OnOk result (reach.new ≡ record reach.old { ended = reach.new.ended }) }
{
    match part {
        Part::BgpDown(one, other) => {
            if one.0 < other.0 {
                reach.end_session(one, other)
            } else {
                reach.end_session(other, one)
            }
        }
        Part::LinkDown(_, _) | Part::LdpOff(_, _) | Part::NodeDown(_) => Ok(()),
    }
}

/// Ends the sessions that parts name.
fn end_sessions(reach: &mut Reach, parts: &[Part]) -> Result<(), AllocError>
    ensures ended { OnOk result ((one other : ℕ) → list_any (is_between one other) reach.new.ended ≡
        (list_any (is_between one other) reach.old.ended || is_bgp_off parts.now one other)) }
    ensures same { OnOk result (reach.new ≡ record reach.old { ended = reach.new.ended }) }
{
    for part in parts {
        end_session_of(reach, *part)?;
    }
    Ok(())
}

/// These parts fail too.
pub(crate) fn fail(reach: &mut Reach, topology: &Topology, parts: &[Part]) -> Result<(), AllocError>
    requires fit { list_all (part_fits topology.now) parts.now ≡ true }
    requires sound { reach.old.failed ≡ false }
    requires links { reach.old.plan.links ≡ topology.now.links }
    requires up_each { length reach.old.up ≡ length topology.now.links }
    requires ldp_each { length reach.old.ldp ≡ length topology.now.links }
    ensures failed { (front : List Part) → HaveFailed topology.now reach.old.ends front reach.old →
        OnOk result (HaveFailed topology.now reach.old.ends (front ++ parts.now) reach.new) }
    ensures plan { OnOk result (reach.new.plan ≡ reach.old.plan) }
{
    switch_parts(reach, topology, parts, false)?;
    end_sessions(reach, parts)?;
    Ok(())
}

/// These parts are mended, which failed last. All sessions begin again.
pub(crate) fn mend(reach: &mut Reach, topology: &Topology, parts: &[Part]) -> Result<(), AllocError>
    requires fit { list_all (part_fits topology.now) parts.now ≡ true }
    requires sound { reach.old.failed ≡ false }
    requires links { reach.old.plan.links ≡ topology.now.links }
    requires up_each { length reach.old.up ≡ length topology.now.links }
    requires ldp_each { length reach.old.ldp ≡ length topology.now.links }
    ensures mended { (front : List Part) → AreApart topology.now front parts.now → HaveFailed topology.now reach.old.ends (front ++ parts.now) reach.old →
        OnOk result (HaveFailed topology.now reach.old.ends front reach.new) }
    ensures plan { OnOk result (reach.new.plan ≡ reach.old.plan) }
{
    switch_parts(reach, topology, parts, true)?;
    reach.begin_sessions();
    Ok(())
}
