//! The counts of a topology at its start.

use mn_net_tally::Tally;
use mn_test_nets::{SiteText, row_text};
use mn_topo_toml::read_topology;
use std::test::Fail;

const SITES: [SiteText<'static>; 2] = [
    ("a", "red1", &["10.1.0.0/16", "10.2.0.0/16"]),
    ("b", "red1", &["10.3.0.0/16"]),
];

#[test]
fn routes_of_all_sites_count(rt: HostRuntime) -> Result<(), Fail> {
    let text = row_text(rt.alloc(), &SITES)?;
    let topology = read_topology(rt.alloc(), text.as_bytes())?;
    let mut tally = Tally::new(rt.alloc(), &topology)?;
    tally.reserve(1)?;
    assert_eq!(rt; tally.statics(), 3);
    Ok(())
}
