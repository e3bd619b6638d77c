// Lines with ample memory, and pages that fill.
use mn_base::{LinkNo, NodeNo, SiteNo};
use mn_drops::Rule;
use mn_edge::{DeviceBad, MemSink};
use mn_ledger::{Refused, Verdict};
use mn_lines::{
    Packet, Page, Sent, Totals, write_packet, write_refusal, write_refused, write_total,
};
use mn_test_nets::pair;
use mn_wiring::Dir;
use std::alloc::{AllocError, Global};
use std::test::Fail;

const SENT: Sent = Sent {
    line: 2,
    site: SiteNo(0),
    record: 7,
};

fn packet(number: u32, verdict: Verdict, path: &[NodeNo]) -> Packet<'_> {
    Packet {
        number,
        sent: SENT,
        verdict,
        path,
    }
}

#[test]
fn a_packet_has_its_line(rt: HostRuntime) -> Result<(), Fail> {
    let topology = pair(rt.alloc())?;
    let (first, both) = ([NodeNo(0)], [NodeNo(0), NodeNo(1)]);
    let mut line = Vec::new(rt.alloc());
    let delivered = Verdict::Delivered {
        site: SiteNo(1),
        ttl: 62,
        copy: 3,
    };
    write_packet(&mut line, &topology, packet(1, delivered, &both))?;
    let dropped = Verdict::Dropped {
        rule: Rule::NoRoute,
        node: NodeNo(0),
    };
    write_packet(&mut line, &topology, packet(2, dropped, &first))?;
    let flying = Verdict::Flying {
        link: LinkNo(0),
        dir: Dir::Back,
    };
    write_packet(&mut line, &topology, packet(4294967295, flying, &[]))?;
    let lines = "packet 1 line 2 site a record 7 delivered b ttl 62 copy 3 path pe1 pe2\n\
                 packet 2 line 2 site a record 7 dropped NoRoute at pe1 path pe1\n\
                 packet 4294967295 line 2 site a record 7 flying pe2 pe1 path\n";
    assert!(rt; line.as_slice() == lines.as_bytes());
    Ok(())
}

#[test]
fn a_refused_line_tells_its_cause(rt: HostRuntime) -> Result<(), Fail> {
    let topology = pair(rt.alloc())?;
    let mut line = Vec::new(rt.alloc());
    write_refused(&mut line, 3, "NoRecord")?;
    write_refusal(&mut line, &topology, 4, Refused::TooManySteps)?;
    let taken = Refused::PrefixTaken { site: SiteNo(1) };
    write_refusal(&mut line, &topology, 5, taken)?;
    let lines =
        "line 3 refused NoRecord\nline 4 refused TooManySteps\nline 5 refused PrefixTaken b\n";
    assert!(rt; line.as_slice() == lines.as_bytes());
    Ok(())
}

#[test]
fn the_total_counts(rt: HostRuntime) -> Result<(), Fail> {
    let mut line = Vec::new(rt.alloc());
    let totals = Totals {
        packets: 6,
        delivered: 3,
        dropped: 2,
        flying: 1,
        steps: 4000000,
        refused: 5,
        tick: 18446744073709551615,
    };
    write_total(&mut line, totals)?;
    let total =
        "total packets 6 delivered 3 dropped 2 flying 1 steps 4000000 refused 5 tick 18446744073709551615\n";
    assert!(rt; line.as_slice() == total.as_bytes());
    Ok(())
}

/// As many bytes of one value.
fn of_one(alloc: Global, value: u8, count: usize) -> Result<Vec<u8>, AllocError> {
    vec![in alloc; value; count]
}

#[test]
fn a_page_is_put_when_it_is_full(rt: HostRuntime) -> Result<(), Fail> {
    let alloc = rt.alloc();
    let mut out = MemSink::new(alloc, vec![in alloc; 5u64]?);
    let mut page = Page::new(alloc)?;
    let most = of_one(alloc, b'a', 65_535)?;
    assert!(rt; page.put(&mut out, &most) == Ok(()));
    assert!(rt; page.put(&mut out, b"b") == Ok(()));
    assert!(rt; out.bytes().is_empty());
    assert!(rt; page.put(&mut out, b"c") == Ok(()));
    assert!(rt; out.bytes().len() == 65_536);
    let long = of_one(alloc, b'd', 65_537)?;
    assert!(rt; page.put(&mut out, &long) == Ok(()));
    assert!(rt; out.bytes().len() == 131_074);
    assert!(rt; page.put(&mut out, b"e") == Ok(()));
    assert!(rt; page.end(&mut out) == Ok(()));
    assert!(rt; out.bytes().len() == 131_075);
    assert!(rt; out.bytes().ends_with(b"de"));
    // Four puts so far: the fifth fails.
    assert!(rt; page.put(&mut out, b"f") == Ok(()));
    assert!(rt; page.end(&mut out) == Err(DeviceBad::Failed));
    Ok(())
}

#[test]
fn nothing_waits_after_a_put_that_fails(rt: HostRuntime) -> Result<(), Fail> {
    let alloc = rt.alloc();
    let mut out = MemSink::new(alloc, vec![in alloc; 1u64]?);
    let mut page = Page::new(alloc)?;
    assert!(rt; page.put(&mut out, b"first") == Ok(()));
    assert!(rt; page.end(&mut out) == Err(DeviceBad::Failed));
    assert!(rt; out.bytes() == b"fi".as_slice());
    assert!(rt; page.put(&mut out, b"then") == Ok(()));
    assert!(rt; page.end(&mut out) == Ok(()));
    assert!(rt; page.end(&mut out) == Ok(()));
    assert!(rt; out.bytes() == b"fithen".as_slice());
    Ok(())
}
