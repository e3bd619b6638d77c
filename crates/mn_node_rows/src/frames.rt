//! `frame TABLE STACK`: what a table of labels does with a stack over the packet, and the first bytes then: those before the
//! packet's addresses, which stay.
ghost use Rattle.std.specs.Prelude.{◌<◌, length, IfOk, IfSome};

use mn_base::{NodeNo, SiteNo};
use mn_lfib::{Forwarded, Lfib};
use mn_rows::{Answer, Call, in_hex};
use mn_stack::Frame;
use std::alloc::{AllocError, Global};

/// From 10.1.0.1 to 10.2.0.1 with TTL 63: eight bytes of UDP.
const PACKET: [u8; 28] = [
    0x45, 0x00, 0x00, 0x1c, 0x00, 0x00, 0x00, 0x00, 0x3f, 0x11, 0x67, 0xcd, 0x0a, 0x01, 0x00, 0x01,
    0x0a, 0x02, 0x00, 0x01, 0x00, 0x35, 0x00, 0x35, 0x00, 0x08, 0x00, 0x00,
];

/// The packet behind the stack that a word writes; none where they aren't a labelled frame.
pub(crate) fn labelled(alloc: Global, call: Call<'_>, k: usize) -> Result<Option<Frame>, AllocError>
    ensures { IfOk result (λ found. IfSome found (λ frame. 0 < length frame.entries)) }
{
    let Some(mut bytes) = call.bytes(alloc, k)? else {
        return Ok(None);
    };
    bytes.extend_from_slice(&PACKET)?;
    Ok(Frame::read(alloc, &bytes).ok())
}

/// What was done with a frame, and its first bytes; `-` where those that stay aren't there.
pub(crate) fn outcome(alloc: Global, answer: Forwarded, frame: &Frame) -> Answer {
    let front = frame.bytes().strip_suffix(&PACKET[12..]).unwrap_or(&[]);
    let front = in_hex(alloc, front)?;
    Ok(Some(format!(in alloc; "{answer:?} {front}")?))
}

/// Labels 16 and 17 of FECs, the first swapped for 100 and the second popped, and 18 and 19 of sites, of which 19 has ended.
fn four(alloc: Global) -> Result<Lfib, AllocError> {
    let mut lfib = Lfib::new(alloc);
    lfib.set_fec(16, Some((NodeNo(1), 100)))?;
    lfib.set_fec(17, Some((NodeNo(2), 3)))?;
    lfib.set_site(18, Some(SiteNo(5)))?;
    lfib.set_site(19, Some(SiteNo(6)))?;
    lfib.set_site(19, None)?;
    Ok(lfib)
}

/// Label 16 was ended as a site's before it was one, which changes nothing; where it begins it is then set to site 0, and where
/// it ends too it is ended.
fn of_site(alloc: Global, begins: bool, ends: bool) -> Result<Lfib, AllocError> {
    let mut lfib = Lfib::new(alloc);
    lfib.set_site(16, None)?;
    if !begins {
        return Ok(lfib);
    }
    lfib.set_site(16, Some(SiteNo(0)))?;
    if ends {
        lfib.set_site(16, None)?;
    }
    Ok(lfib)
}

/// Label 16 is swapped for 17, or was and has no use.
fn of_fec(alloc: Global, ends: bool) -> Result<Lfib, AllocError> {
    let mut lfib = Lfib::new(alloc);
    lfib.set_fec(16, Some((NodeNo(1), 17)))?;
    if ends {
        lfib.set_fec(16, None)?;
    }
    Ok(lfib)
}

fn table_of(alloc: Global, call: Call<'_>) -> Result<Option<Lfib>, AllocError> {
    Ok(match call.verb() {
        b"none" => Some(Lfib::new(alloc)),
        b"four" => Some(four(alloc)?),
        b"never" => Some(of_site(alloc, false, false)?),
        b"site" => Some(of_site(alloc, true, false)?),
        b"ended" => Some(of_site(alloc, true, true)?),
        b"fec" => Some(of_fec(alloc, false)?),
        b"unused" => Some(of_fec(alloc, true)?),
        _ => None,
    })
}

pub(crate) fn frame_row(alloc: Global, call: Call<'_>) -> Answer {
    let (Some(lfib), Some(mut frame)) = (table_of(alloc, call)?, labelled(alloc, call, 2)?) else {
        return Ok(None);
    };
    let answer = lfib.forward(&mut frame);
    outcome(alloc, answer, &frame)
}
