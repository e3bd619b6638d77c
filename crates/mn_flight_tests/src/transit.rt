//! Packets over two links, with tables made by hand. The edges know of each other's site by label 18.
//!
//! ```text
//!   site a --- pe1 --- p --- pe2 --- site b
//! ```
ghost use Rattle.std.specs.Prelude.{◌≡◌, ◌<◌, ◌≤◌, ◌*◌, length, IfOk};
ghost use Rattle.std.specs.List.{All};
ghost use Rattle.mn_transit.specs.Entering.{HasRoom, OuterFits};

use mn_base::{LinkNo, NodeNo, SiteNo};
use mn_drops::Rule;
use mn_flight::Clock;
use mn_ledger::Verdict;
use mn_lfib::Lfib;
use mn_pe::Entered;
use mn_stack::Frame;
use mn_test_nets::row_text;
use mn_topo::Topology;
use mn_topo_toml::read_topology;
use mn_transit::Transit;
use mn_wiring::Dir;
use std::alloc::Global;
use std::process::Abort;
use std::test::Fail;

const PE1: NodeNo = NodeNo(0);

const P: NodeNo = NodeNo(1);

const PE2: NodeNo = NodeNo(2);

const SITE_B: SiteNo = SiteNo(1);

/// The links from pe1 to p and from p to pe2.
const NEAR: LinkNo = LinkNo(0);

const FAR: LinkNo = LinkNo(1);

/// From 10.1.0.1 to 10.2.0.1 as it leaves pe1, with TTL 63: eight bytes of UDP.
const SENT: [u8; 28] = [
    0x45, 0x00, 0x00, 0x1c, 0x00, 0x00, 0x00, 0x00, 0x3f, 0x11, 0x67, 0xcd, 0x0a, 0x01, 0x00, 0x01,
    0x0a, 0x02, 0x00, 0x01, 0x00, 0x35, 0x00, 0x35, 0x00, 0x08, 0x00, 0x00,
];

/// As site b has it, with TTL 61.
const DELIVERED: [u8; 28] = [
    0x45, 0x00, 0x00, 0x1c, 0x00, 0x00, 0x00, 0x00, 0x3d, 0x11, 0x69, 0xcd, 0x0a, 0x01, 0x00, 0x01,
    0x0a, 0x02, 0x00, 0x01, 0x00, 0x35, 0x00, 0x35, 0x00, 0x08, 0x00, 0x00,
];

fn joined(alloc: Global, front: &[u8], back: &[u8]) -> Result<Vec<u8>, Fail> {
    let mut bytes = Vec::from_slice(alloc, front)?;
    bytes.extend_from_slice(back)?;
    Ok(bytes)
}

/// The packet with the label of site b.
fn frame_for_b(alloc: Global) -> Result<Frame, Fail>
    ensures { IfOk result (λ frame. (0 < length frame.entries) × (0 < frame.room)) }
{
    Ok(Frame::read(alloc, &joined(alloc, &[0x00, 0x01, 0x21, 0x3f], &SENT)?)?)
}

/// The packet alone.
fn packet_alone(alloc: Global) -> Result<Frame, Fail> {
    let mut frame = frame_for_b(alloc)?;
    frame.pop();
    Ok(frame)
}

/// The table of a node on the way.
#[derive(Clone, Copy)]
enum Table {
    /// Of p: label 17 is that of pe2's FEC, of which p is the last hop but one.
    OfP,
    /// Of pe2, where site b is attached.
    OfPe2,
    /// The same once site b was detached and attached anew.
    LaterOfPe2,
}

fn made(alloc: Global, table: Table) -> Result<Lfib, Fail> {
    let mut made = Lfib::new(alloc);
    match table {
        Table::OfP => made.set_fec(17, Some((PE2, 3)))?,
        Table::OfPe2 => made.set_site(18, Some(SITE_B))?,
        Table::LaterOfPe2 => {
            made.set_site(18, Some(SITE_B))?;
            made.set_site(18, None)?;
            made.set_site(19, Some(SITE_B))?;
        }
    }
    Ok(made)
}

/// How a packet enters at pe1, as the edge says of it.
#[derive(Clone, Copy)]
enum Way {
    /// It is for site b, and flies to p with p's label for pe2 over that of the site.
    Out,
    /// It is for site b, and there is no way to pe2.
    Nowhere,
    /// It is for a site of the edge.
    Local,
    /// There is no route.
    NoRoute,
}

/// What is done in a run, or what holds of it then.
#[derive(Clone, Copy)]
enum Act<'a> {
    /// A packet enters; whether it flies.
    Inject(Way, bool),
    /// The first frame on a link comes to its end at a node of this table, at a tick; whether it flies on.
    Carry(Table, LinkNo, u64, bool),
    /// The first frame on a link is lost.
    Lose(LinkNo),
    Down(LinkNo),
    /// What became of a packet, and where it was.
    Ends(u32, Verdict, &'a [NodeNo]),
    /// The frame of a number: when it is due, and what stands before the packet.
    Flies(u64, u64, &'a [u8]),
    /// How many frames fly over a link.
    On(LinkNo, Dir, u64),
    /// How many frames fly, and how many bytes.
    InFlight(u64, u64),
    /// Whether a frame is due by a tick.
    IsDue(u64, bool),
    /// The packet that the last step delivered.
    Delivers(Option<&'a [u8]>),
}

use Act::{Carry, Delivers, Down, Ends, Flies, InFlight, Inject, IsDue, Lose, On};

/// A run, whose next step makes an item of this number.
#[derive(Drop)]
struct Run {
    topology: Topology,
    transit: Transit,
    number: u64,
    ghost channels: { transit.channels ≡ 2 * length topology.links },
    ghost numbers: { All (λ item. item.number < number) transit.flying },
    ghost copies: { transit.copies ≤ number },
    ghost verdicts: { length transit.verdicts ≤ number },
}

impl Run {
    fn begins(alloc: Global) -> Result<Run, Fail> {
        let topology = read_topology(alloc, row_text(alloc, &[])?.as_bytes())?;
        let transit = Transit::new(alloc, &topology)?;
        Ok(Run {
            topology,
            transit,
            number: 0,
        })
    }

    /// A packet enters at pe1, as the edge says of it, by this way out.
    fn injects(
        &mut self,
        rt: &impl Abort,
        entered: Entered,
        outer: Option<(NodeNo, Option<u32>)>,
    ) -> Result<bool, Fail>
        requires room { HasRoom entered }
        requires label { OuterFits outer }
    {
        assert!(rt; self.number < 1000);
        assert!(rt; !self.topology.nodes().is_empty());
        assert!(rt; self.transit.flying_bytes() < 1000);
        let clock = Clock {
            tick: 0,
            number: self.number,
        };
        let flies = self
            .transit
            .inject(&self.topology, PE1, entered, outer, clock)?;
        self.number += 1;
        Ok(flies)
    }

    fn enters(&mut self, rt: &impl Abort, alloc: Global, way: Way) -> Result<bool, Fail> {
        match way {
            Way::Out => {
                let frame = frame_for_b(alloc)?;
                let entered = Entered::Tunnel { edge: PE2, frame };
                self.injects(rt, entered, Some((P, Some(17))))
            }
            Way::Nowhere => {
                let frame = frame_for_b(alloc)?;
                self.injects(rt, Entered::Tunnel { edge: PE2, frame }, None)
            }
            Way::Local => self.injects(rt, Entered::Local(SITE_B, packet_alone(alloc)?), None),
            Way::NoRoute => self.injects(rt, Entered::Drop(Rule::NoRoute), None),
        }
    }

    /// The first frame on a link comes to its end.
    fn carries(&mut self, rt: &impl Abort, table: &Lfib, link: LinkNo, tick: u64) -> bool {
        assert!(rt; tick < 1000);
        assert!(rt; self.number < 1000);
        assert!(rt; usize::from(link.0) < self.topology.links().len());
        assert!(rt; self.transit.flying(link, Dir::Forth) > 0);
        assert!(rt; self.transit.flying_bytes() < 1000);
        let clock = Clock {
            tick,
            number: self.number,
        };
        let flies = self
            .transit
            .carry(&self.topology, table, link, Dir::Forth, 0, clock);
        self.number += 1;
        flies
    }

    /// The first frame on a link is lost.
    fn loses(&mut self, rt: &impl Abort, link: LinkNo) {
        assert!(rt; usize::from(link.0) < self.topology.links().len());
        assert!(rt; self.transit.flying(link, Dir::Forth) > 0);
        self.transit.lose(&self.topology, link, Dir::Forth, 0);
    }

    fn goes_down(&mut self, rt: &impl Abort, link: LinkNo) {
        assert!(rt; usize::from(link.0) < self.topology.links().len());
        self.transit.link_down(&self.topology, link);
    }

    /// What became of a packet, and where it was.
    fn ends(&self, rt: &impl Abort, packet: u32, verdict: Verdict, path: &[NodeNo]) {
        assert!(rt; self.number < 1000);
        assert!(rt; packet < self.transit.packets());
        assert_eq!(rt; self.transit.verdict(packet), verdict);
        assert_eq!(rt; self.transit.path(packet), path);
    }

    /// The frame of a number: when it is due, and its bytes.
    fn flies(
        &self,
        rt: &impl Abort,
        alloc: Global,
        number: u64,
        due: u64,
        stack: &[u8],
    ) -> Result<(), Fail> {
        let Some(item) = self.transit.frame(number) else {
            return Err(Fail::new("no such frame"));
        };
        assert_eq!(rt; item.due, due);
        let bytes = joined(alloc, stack, &SENT)?;
        assert_eq!(rt; item.item.frame.bytes(), bytes.as_slice());
        Ok(())
    }

    /// What holds of the run.
    fn holds(&self, rt: &impl Abort, alloc: Global, act: Act<'_>) -> Result<(), Fail> {
        match act {
            Ends(packet, verdict, path) => self.ends(rt, packet, verdict, path),
            Flies(number, due, stack) => return self.flies(rt, alloc, number, due, stack),
            On(link, dir, count) => {
                assert_eq!(rt; self.transit.flying(link, dir), count);
            }
            InFlight(frames, bytes) => {
                assert_eq!(rt; self.transit.in_flight(), frames);
                assert_eq!(rt; self.transit.flying_bytes(), bytes);
            }
            IsDue(tick, is_due) => {
                assert_eq!(rt; self.transit.earliest(tick).is_some(), is_due);
            }
            Delivers(packet) => {
                assert_eq!(rt; self.transit.delivered(), packet);
            }
            _ => {}
        }
        Ok(())
    }

    /// Does an act, or sees that it holds.
    fn does(&mut self, rt: &impl Abort, alloc: Global, act: Act<'_>) -> Result<(), Fail> {
        match act {
            Inject(way, flies) => {
                let found = self.enters(rt, alloc, way)?;
                assert_eq!(rt; found, flies);
            }
            Carry(table, link, tick, flies) => {
                let table = made(alloc, table)?;
                let found = self.carries(rt, &table, link, tick);
                assert_eq!(rt; found, flies);
            }
            Lose(link) => self.loses(rt, link),
            Down(link) => self.goes_down(rt, link),
            _ => return self.holds(rt, alloc, act),
        }
        Ok(())
    }

    /// A run of these acts.
    fn of(rt: &impl Abort, alloc: Global, acts: &[Act<'_>]) -> Result<Run, Fail> {
        let mut run = Run::begins(alloc)?;
        for act in acts {
            run.does(rt, alloc, *act)?;
        }
        Ok(run)
    }
}

/// A packet for site b enters, and flies.
const SEND: Act<'static> = Inject(Way::Out, true);

/// The first packet comes to p, and flies on; then to pe2, where it ends.
const OVER_P: Act<'static> = Carry(Table::OfP, NEAR, 2, true);

const TO_PE2: Act<'static> = Carry(Table::OfPe2, FAR, 4, false);

/// A packet was dropped.
fn dropped(rule: Rule, node: NodeNo) -> Verdict {
    Verdict::Dropped { rule, node }
}

/// Site b has the first packet.
const DELIVERED_TO_B: Verdict = Verdict::Delivered {
    site: SITE_B,
    ttl: 61,
    copy: 1,
};

#[test]
fn a_packet_crosses_two_links(rt: HostRuntime) -> Result<(), Fail> {
    let flying = Verdict::Flying {
        link: NEAR,
        dir: Dir::Forth,
    };
    let mut run = Run::of(
        &rt,
        rt.alloc(),
        &[
            SEND,
            Ends(0, flying, &[PE1]),
            Flies(0, 2, &[0x00, 0x01, 0x10, 0x3f, 0x00, 0x01, 0x21, 0x3f]),
            InFlight(1, 28),
            OVER_P,
            Flies(1, 4, &[0x00, 0x01, 0x21, 0x3e]),
            On(NEAR, Dir::Forth, 0),
            On(FAR, Dir::Forth, 1),
            On(FAR, Dir::Back, 0),
            IsDue(3, false),
            IsDue(4, true),
            TO_PE2,
            Ends(0, DELIVERED_TO_B, &[PE1, P, PE2]),
            Delivers(Some(DELIVERED.as_slice())),
            InFlight(0, 0),
        ],
    )?;
    run.transit.begin();
    assert!(rt; run.transit.delivered().is_none());
    Ok(())
}

/// Site b is attached anew, with label 19, while the packet flies.
#[test]
fn an_old_label_is_not_of_the_new_attachment(rt: HostRuntime) -> Result<(), Fail> {
    Run::of(
        &rt,
        rt.alloc(),
        &[
            SEND,
            OVER_P,
            Carry(Table::LaterOfPe2, FAR, 4, false),
            Ends(0, dropped(Rule::SiteGone, PE2), &[PE1, P, PE2]),
            Delivers(None),
        ],
    )?;
    Ok(())
}

#[test]
fn all_on_a_link_are_cut_at_their_sender(rt: HostRuntime) -> Result<(), Fail> {
    let cut = dropped(Rule::LinkCut, PE1);
    Run::of(
        &rt,
        rt.alloc(),
        &[
            SEND,
            SEND,
            SEND,
            Down(FAR),
            On(NEAR, Dir::Forth, 3),
            Down(NEAR),
            InFlight(0, 0),
            Ends(0, cut, &[PE1]),
            Ends(1, cut, &[PE1]),
            Ends(2, cut, &[PE1]),
        ],
    )?;
    Ok(())
}

#[test]
fn the_next_takes_the_place_of_a_lost_one(rt: HostRuntime) -> Result<(), Fail> {
    Run::of(
        &rt,
        rt.alloc(),
        &[
            SEND,
            SEND,
            Lose(NEAR),
            OVER_P,
            TO_PE2,
            Ends(0, dropped(Rule::Lost, PE1), &[PE1]),
            Ends(1, DELIVERED_TO_B, &[PE1, P, PE2]),
            On(NEAR, Dir::Forth, 0),
        ],
    )?;
    Ok(())
}

#[test]
fn a_packet_is_dropped_as_it_enters(rt: HostRuntime) -> Result<(), Fail> {
    Run::of(
        &rt,
        rt.alloc(),
        &[
            Inject(Way::NoRoute, false),
            Ends(0, dropped(Rule::NoRoute, PE1), &[PE1]),
        ],
    )?;
    Ok(())
}

#[test]
fn a_packet_for_a_site_of_its_edge_is_delivered_at_once(rt: HostRuntime) -> Result<(), Fail> {
    let delivered = Verdict::Delivered {
        site: SITE_B,
        ttl: 63,
        copy: 1,
    };
    Run::of(
        &rt,
        rt.alloc(),
        &[
            Inject(Way::Local, false),
            Ends(0, delivered, &[PE1]),
            Delivers(Some(SENT.as_slice())),
        ],
    )?;
    Ok(())
}

#[test]
fn a_packet_with_no_way_out_is_dropped_at_its_edge(rt: HostRuntime) -> Result<(), Fail> {
    Run::of(
        &rt,
        rt.alloc(),
        &[
            Inject(Way::Nowhere, false),
            Ends(0, dropped(Rule::NoLsp, PE1), &[PE1]),
        ],
    )?;
    Ok(())
}
