//! One line of each table, as it is to be read.
ghost use Rattle.std.specs.Prelude.{◌≡◌, ◌<◌, length, IsTrue};

use mn_base::{LinkNo, NodeNo, SiteNo, VrfNo};
use mn_edge::{DeviceBad, MemSink};
use mn_lines::Page;
use mn_states::{BgpState, LdpState};
use mn_tables::{
    BgpEnd, Direction, FarRoute, HeldPrefix, LdpEnds, LinkState, NearSite, Walk, put_bgp,
    put_counts, put_far_route, put_frames, put_ldp, put_link, put_near_route, put_own_route,
    put_walk,
};
use mn_test_nets::row;
use mn_topo::Topology;
use mn_wiring::Dir;
use std::test::Fail;

/// What these lines are to be.
const LINES: &[u8] = b"link p pe2 down cost 20 changes 2\n\
tree pe1 to pe2 cost 30 next p\n\
tree pe1 to pe2 unreachable\n\
ldp pe1 operational p openrec\n\
ldp p none pe2 none\n\
bgp pe1 openconfirm pe2 opensent\n\
notices 3\nmessages 0\n\
frames pe2 p 5\n\
route red1 10.1.0.0/16 site a\n\
route red1 10.2.0.0/16 vrf red2 site b\n\
route red1 10.3.0.0/16 edge pe2 label 18\n\
route red1 10.4.0.0/16 edge pe2 label 19 unresolved\n";

const PE1: NodeNo = NodeNo(0);

const P: NodeNo = NodeNo(1);

const PE2: NodeNo = NodeNo(2);

/// The links from pe1 to p and from p to pe2.
const FIRST: LinkNo = LinkNo(0);

const SECOND: LinkNo = LinkNo(1);

const RED1: VrfNo = VrfNo(0);

const RED2: VrfNo = VrfNo(1);

/// A line, by what it is given; of a route, that red1 holds.
#[derive(Clone, Copy)]
enum Line<'a> {
    Link(LinkNo, bool, u32),
    Tree(NodeNo, NodeNo, Option<u32>, Option<NodeNo>),
    Ldp(LinkNo, Option<LdpState>, Option<LdpState>),
    Bgp((NodeNo, BgpState), (NodeNo, BgpState)),
    Counts(u64, u64),
    Frames(LinkNo, Dir, u64),
    Own(&'a [u8], SiteNo),
    Near(&'a [u8], VrfNo, SiteNo),
    Far(&'a [u8], NodeNo, u32, bool),
}

use Line::{Bgp, Counts, Far, Frames, Ldp, Link, Near, Own, Tree};

const GIVEN: [Line<'static>; 13] = [
    Link(SECOND, false, 2),
    Tree(PE1, PE2, Some(30), Some(P)),
    Tree(PE1, PE2, None, None),
    Ldp(FIRST, Some(LdpState::Operational), Some(LdpState::OpenRec)),
    Ldp(SECOND, None, None),
    Bgp((PE1, BgpState::OpenConfirm), (PE2, BgpState::OpenSent)),
    Counts(3, 0),
    Frames(FIRST, Dir::Forth, 0),
    Frames(SECOND, Dir::Back, 5),
    Own(b"10.1.0.0/16", SiteNo(0)),
    Near(b"10.2.0.0/16", RED2, SiteNo(1)),
    Far(b"10.3.0.0/16", PE2, 18, false),
    Far(b"10.4.0.0/16", PE2, 19, true),
];

fn is_there(topology: &Topology, link: LinkNo) -> bool
    ensures { IsTrue result → link.0 < length topology.now.links }
{
    usize::from(link.0) < topology.links().len()
}

fn end(one: (NodeNo, BgpState)) -> BgpEnd {
    BgpEnd {
        edge: one.0,
        state: one.1,
    }
}

fn held(prefix: &[u8]) -> HeldPrefix<'_> {
    HeldPrefix { vrf: RED1, prefix }
}

/// Puts a line. One of a link that isn't there counts as a put that fails.
fn put(
    out: &mut MemSink,
    page: &mut Page,
    topology: &Topology,
    line: Line<'_>,
) -> Result<(), DeviceBad> {
    match line {
        Link(link, up, changes) if is_there(topology, link) => {
            put_link(out, page, topology, link, LinkState { up, changes })
        }
        Tree(from, to, dist, hop) => {
            let walk = Walk {
                from,
                to,
                dist,
                hop,
            };
            put_walk(out, page, topology, walk)
        }
        Ldp(link, a, b) if is_there(topology, link) => {
            put_ldp(out, page, topology, link, LdpEnds { a, b })
        }
        Bgp(one, other) => put_bgp(out, page, topology, end(one), end(other)),
        Counts(notices, messages) => put_counts(out, page, notices, messages),
        Frames(link, dir, count) if is_there(topology, link) => {
            put_frames(out, page, topology, Direction(link, dir), count)
        }
        Own(prefix, site) => put_own_route(out, page, topology, held(prefix), site),
        Near(prefix, vrf, site) => {
            put_near_route(out, page, topology, held(prefix), NearSite { vrf, site })
        }
        Far(prefix, edge, label, unresolved) => {
            let far = FarRoute {
                edge,
                label,
                unresolved,
            };
            put_far_route(out, page, topology, held(prefix), far)
        }
        _ => Err(DeviceBad::Failed),
    }
}

fn put_all(out: &mut MemSink, page: &mut Page, topology: &Topology) -> Result<(), DeviceBad> {
    for line in GIVEN {
        put(out, page, topology, line)?;
    }
    page.end(out)
}

#[test]
fn lines_say_what_they_are_given(rt: HostRuntime) -> Result<(), Fail> {
    let topology = row(rt.alloc())?;
    let mut page = Page::new(rt.alloc())?;
    let mut sink = MemSink::new(rt.alloc(), Vec::new(rt.alloc()));
    put_all(&mut sink, &mut page, &topology)?;
    assert_eq!(rt; sink.bytes(), LINES);
    Ok(())
}
