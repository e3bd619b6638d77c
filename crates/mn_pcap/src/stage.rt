// What the next byte of a capture belongs to.
use crate::message::{Form, Place};
use crate::refusal::PcapBad;

#[derive(Clone, Copy)]
pub(crate) enum Stage {
    /// The header of the file.
    FileHeader,
    /// The header of a record.
    RecordHeader { form: Form },
    /// The bytes of a record, of which so many are still to come.
    Captured { form: Form, place: Place, left: u32 },
    /// Nothing more: the file is refused, whatever comes.
    Refused { bad: PcapBad },
}
