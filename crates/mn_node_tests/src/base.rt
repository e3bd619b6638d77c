ghost use Rattle.std.specs.Prelude.{◌≡◌, ◌<◌};

use mn_base::{LinkNo, NodeNo, SiteNo, Steps, VrfNo};
use mn_drops::Rule;
use mn_states::{BgpState, LdpState};
use mn_wiring::{Dir, LinkEnds};
use std::marker::Brand;
use std::sync::ledger::{Blank, Ledger};

/// Counts two steps over the ledger that is opened on the blank.
fn two_steps<L: Ledger>(blank: Blank)
    requires name { blank.name ≡ L.name }
    requires parts { blank.parts ≡ L.parts }
    requires some { 0 < blank.parts }
{
    let mut steps = Steps::<L>::new(blank);
    steps.tick();
    steps.tick();
}

#[test]
fn steps_are_counted_over_a_blank_ledger() {
    two_steps::<Brand>(Blank::new(1));
}

#[test]
fn numbers_and_kinds_are_told_apart(rt: HostRuntime) {
    assert_ne!(rt; NodeNo(1), NodeNo(2));
    assert_ne!(rt; LinkNo(1), LinkNo(2));
    assert_ne!(rt; VrfNo(1), VrfNo(2));
    assert_ne!(rt; SiteNo(1), SiteNo(2));
    assert_ne!(rt; Dir::Forth, Dir::Back);
    assert_ne!(rt; Rule::NoLsp, Rule::NoEntry);
    assert_ne!(rt; LdpState::OpenSent, LdpState::OpenRec);
    assert_ne!(rt; BgpState::OpenSent, BgpState::OpenConfirm);
    let ends = LinkEnds {
        a: NodeNo(0),
        b: NodeNo(1),
        cost: 10,
        delay: 2,
        loss: 0,
        life: 2000,
    };
    let copy = ends;
    assert_eq!(rt; copy.b, ends.b);
}
