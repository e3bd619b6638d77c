//! A network at its start, where one of two sites of an edge is detached and attached anew.
//!
//! ```text
//!   sites a and b --- pe1 --- p --- pe2 --- site c
//! ```
use mn_base::{LinkNo, NodeNo, SiteNo};
use mn_flight::Flight;
use mn_labels::Bind;
use mn_test_nets::{SiteText, row_text};
use mn_topo_toml::read_topology;
use mn_transport::Transport;
use std::test::Fail;

const SITES: [SiteText<'static>; 3] = [
    ("a", "red1", &["10.1.0.0/16"]),
    ("b", "red1", &["10.2.0.0/16"]),
    ("c", "red2", &["10.3.0.0/16"]),
];

const PE1: NodeNo = NodeNo(0);

const PE2: NodeNo = NodeNo(2);

const A: SiteNo = SiteNo(0);

const B: SiteNo = SiteNo(1);

const C: SiteNo = SiteNo(2);

/// No edge offers another node's FEC, so its sites alone have labels.
#[test]
fn a_site_that_is_attached_anew_has_the_next_label(rt: HostRuntime) -> Result<(), Fail> {
    let text = row_text(rt.alloc(), &SITES)?;
    let topology = read_topology(rt.alloc(), text.as_bytes())?;
    let mut transport = Transport::new(rt.alloc(), &topology)?;
    topology.laws();
    assert!(rt; topology.nodes().len() == 3);
    assert!(rt; topology.links().len() == 2);
    assert!(rt; topology.sites().len() == 3);

    assert!(rt; !transport.is_link_up(LinkNo(1)));
    assert!(rt; transport.ldp_on(LinkNo(1)));
    assert_eq!(rt; transport.notices().len(), 0);
    assert_eq!(rt; transport.messages().len(), 0);
    let at_start = transport.node(PE1).labels();
    assert_eq!(rt; at_start.means(16), Some(Bind::Site(A, 1)));
    assert_eq!(rt; at_start.means(17), Some(Bind::Site(B, 1)));
    assert_eq!(rt; at_start.means(18), None);
    assert_eq!(rt;
        transport.node(PE2).labels().means(16),
        Some(Bind::Site(C, 1))
    );

    transport.detach(&topology, A);
    let label = transport.attach(&topology, A)?;
    assert_eq!(rt; label, 18);
    assert_eq!(rt;
        transport.node(PE1).labels().means(18),
        Some(Bind::Site(A, 2))
    );
    Ok(())
}
