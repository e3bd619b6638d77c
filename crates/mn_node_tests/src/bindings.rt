use mn_base::NodeNo;
use mn_bindings::{Lib, LibEvent, Tell, TellKind};
use std::test::Fail;

const PE1: NodeNo = NodeNo(0);

const P: NodeNo = NodeNo(1);

const PE2: NodeNo = NodeNo(2);

fn map(to: NodeNo, fec: NodeNo) -> Tell {
    Tell {
        to,
        kind: TellKind::Map,
        fec,
    }
}

fn withdraw(to: NodeNo, fec: NodeNo) -> Tell {
    Tell {
        to,
        kind: TellKind::Withdraw,
        fec,
    }
}

fn release(to: NodeNo, fec: NodeNo) -> Tell {
    Tell {
        to,
        kind: TellKind::Release,
        fec,
    }
}

#[test]
fn a_node_maps_what_it_can_use(rt: HostRuntime) -> Result<(), Fail> {
    let mut lib = Lib::new(rt.alloc(), P, 3, 10)?;
    let first = lib.apply(
        &[
            LibEvent::Next(PE1, Some(PE1)),
            LibEvent::Next(PE2, Some(PE2)),
            LibEvent::Opened(PE1),
        ],
        0,
    )?;
    assert_eq!(rt; first.tells.as_slice(), [map(PE1, P)].as_slice());
    assert_eq!(rt; lib.usable(PE1), None);
    let mapped = lib.apply(&[LibEvent::Map(PE1, PE1, 3)], 0)?;
    assert_eq!(rt; mapped.tells.as_slice(), [map(PE1, PE1)].as_slice());
    assert_eq!(rt; lib.usable(PE1), Some((PE1, 3)));
    let second = lib.apply(&[LibEvent::Opened(PE2), LibEvent::Map(PE2, PE2, 3)], 0)?;
    let told = [map(PE2, PE1), map(PE2, P), map(PE1, PE2), map(PE2, PE2)];
    assert_eq!(rt; second.tells.as_slice(), told.as_slice());
    Ok(())
}

#[test]
fn a_neighbour_that_opens_again_has_said_nothing(rt: HostRuntime) -> Result<(), Fail> {
    let mut lib = Lib::new(rt.alloc(), P, 3, 10)?;
    lib.apply(
        &[
            LibEvent::Next(PE1, Some(PE1)),
            LibEvent::Next(PE2, Some(PE2)),
            LibEvent::Opened(PE1),
            LibEvent::Opened(PE2),
            LibEvent::Map(PE1, PE1, 3),
            LibEvent::Map(PE2, PE2, 3),
        ],
        0,
    )?;
    let again = lib.apply(&[LibEvent::Closed(PE1), LibEvent::Opened(PE1)], 0)?;
    let told = [withdraw(PE2, PE1), map(PE1, P), map(PE1, PE2)];
    assert_eq!(rt; again.tells.as_slice(), told.as_slice());
    assert_eq!(rt; lib.usable(PE1), None);
    assert_eq!(rt; lib.usable(PE2), Some((PE2, 3)));
    Ok(())
}

#[test]
fn nothing_is_released_to_a_neighbour_that_closes(rt: HostRuntime) -> Result<(), Fail> {
    let mut lib = Lib::new(rt.alloc(), P, 3, 10)?;
    lib.apply(
        &[
            LibEvent::Next(PE1, Some(PE1)),
            LibEvent::Next(PE2, Some(PE2)),
            LibEvent::Opened(PE1),
            LibEvent::Opened(PE2),
            LibEvent::Map(PE1, PE1, 3),
            LibEvent::Map(PE2, PE2, 3),
        ],
        0,
    )?;
    let closing = lib.apply(
        &[
            LibEvent::Withdraw(PE2, PE2),
            LibEvent::Withdraw(PE1, PE1),
            LibEvent::Closed(PE2),
        ],
        0,
    )?;
    let told = [release(PE1, PE1), withdraw(PE1, PE1), withdraw(PE1, PE2)];
    assert_eq!(rt; closing.tells.as_slice(), told.as_slice());
    Ok(())
}

/// The next hop towards node 3 changes from node 1 to node 2, which both mapped it, and then there is none.
#[test]
fn another_next_hop_that_has_mapped_is_used(rt: HostRuntime) -> Result<(), Fail> {
    let fec = NodeNo(3);
    let (one, two) = (NodeNo(1), NodeNo(2));
    let mut lib = Lib::new(rt.alloc(), NodeNo(0), 4, 10)?;
    lib.apply(
        &[
            LibEvent::Opened(one),
            LibEvent::Opened(two),
            LibEvent::Map(one, fec, 19),
            LibEvent::Map(two, fec, 18),
            LibEvent::Next(fec, Some(one)),
        ],
        0,
    )?;
    assert_eq!(rt; lib.usable(fec), Some((one, 19)));
    let other = lib.apply(&[LibEvent::Next(fec, Some(two))], 0)?;
    assert!(rt; other.tells.is_empty());
    assert_eq!(rt; lib.usable(fec), Some((two, 18)));
    let gone = lib.apply(&[LibEvent::Next(fec, None)], 0)?;
    assert_eq!(rt;
        gone.tells.as_slice(),
        [withdraw(one, fec), withdraw(two, fec)].as_slice()
    );
    Ok(())
}

/// The next hop towards node 3 changes from node 1, which mapped it, to node 2, which has not.
#[test]
fn another_next_hop_that_has_not_mapped_is_not_used(rt: HostRuntime) -> Result<(), Fail> {
    let fec = NodeNo(3);
    let (one, two) = (NodeNo(1), NodeNo(2));
    let mut lib = Lib::new(rt.alloc(), NodeNo(0), 4, 10)?;
    lib.apply(
        &[
            LibEvent::Opened(one),
            LibEvent::Opened(two),
            LibEvent::Map(one, fec, 19),
            LibEvent::Next(fec, Some(one)),
        ],
        0,
    )?;
    let other = lib.apply(&[LibEvent::Next(fec, Some(two))], 0)?;
    assert_eq!(rt;
        other.tells.as_slice(),
        [withdraw(one, fec), withdraw(two, fec)].as_slice()
    );
    assert_eq!(rt; lib.usable(fec), None);
    Ok(())
}

/// Where an allocation fails, what was kept stays.
#[test]
fn want_of_memory_changes_nothing(rt: HostRuntime) -> Result<(), Fail> {
    let mut lib = Lib::new(rt.alloc(), P, 3, 10)?;
    let opened = lib.apply(
        &[
            LibEvent::Opened(PE1),
            LibEvent::Map(PE1, PE1, 3),
            LibEvent::Next(PE1, Some(PE1)),
        ],
        0,
    );
    let usable = if opened.is_ok() { Some((PE1, 3)) } else { None };
    assert_eq!(rt; lib.usable(PE1), usable);
    Ok(())
}

#[test]
fn a_label_is_free_once_released_and_a_life_later(rt: HostRuntime) -> Result<(), Fail> {
    let mut lib = Lib::new(rt.alloc(), P, 3, 10)?;
    let begun = lib.apply(
        &[
            LibEvent::Next(PE1, Some(PE1)),
            LibEvent::Opened(PE1),
            LibEvent::Opened(PE2),
            LibEvent::Map(PE1, PE1, 3),
        ],
        0,
    )?;
    assert_eq!(rt; begun.begun.as_slice(), [PE1].as_slice());
    let ended = lib.apply(&[LibEvent::Withdraw(PE1, PE1)], 5)?;
    let told = [release(PE1, PE1), withdraw(PE1, PE1), withdraw(PE2, PE1)];
    assert_eq!(rt; ended.tells.as_slice(), told.as_slice());
    lib.apply(&[LibEvent::Released(PE1, PE1)], 6)?;
    assert_eq!(rt; lib.is_free(PE1, 100), false);
    lib.apply(&[LibEvent::Released(PE2, PE1)], 7)?;
    assert_eq!(rt; lib.is_free(PE1, 17), false);
    assert_eq!(rt; lib.is_free(PE1, 18), true);
    Ok(())
}
