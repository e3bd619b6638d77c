//! The capture from its bytes, and its limits.
ghost use Rattle.std.specs.Prelude.{IfOk};
ghost use Rattle.mn_answer.specs.Inputs.{IsSound};
ghost use Rattle.mn_run.specs.Jobs.{HeldIs};

use mn_answer::{Limit, MOST_CAPTURE_BYTES, MOST_CAPTURE_RECORDS, Outcome, too_large};
use mn_join_run::MemoryCapture;
use mn_pcap::{PcapBad, count_records};
use std::alloc::{AllocError, Global};

/// Reads the bytes of a capture, or its refusal.
pub(crate) fn parse_capture(
    alloc: Global,
    bytes: Vec<u8>,
) -> Result<Result<MemoryCapture, Outcome>, AllocError>
    ensures answer { IfOk result (HeldIs bytes.items) }
    ensures sound { IfOk result IsSound }
{
    if bytes.len() as u64 > MOST_CAPTURE_BYTES {
        return Ok(Err(too_large(Limit::CaptureBytes, MOST_CAPTURE_BYTES)));
    }
    if count_records(&bytes) > MOST_CAPTURE_RECORDS {
        return Ok(Err(too_large(Limit::CaptureRecords, MOST_CAPTURE_RECORDS)));
    }
    match MemoryCapture::read(alloc, bytes) {
        Ok(capture) => Ok(Ok(capture)),
        Err(PcapBad::Refused { rule, place }) => Ok(Err(Outcome::BadCapture { rule, place })),
        Err(PcapBad::NoMemory) => Err(AllocError),
    }
}
