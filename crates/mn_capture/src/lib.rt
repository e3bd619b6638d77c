//! A capture that stays in its file.
//!
//! A capture may have 64 MiB, and a run sends few of its packets at a time. So [`scan`] reads the file once, in
//! pieces of at most 64 KiB, and keeps where its records lie. [`Capture::fetch`] reads the bytes of one record
//! again when they are wanted.
//!
//! What the records hold is stated for the bytes that the file has at that moment: for those of the scan where
//! the file is as it was, which a shelf that tells its files shows, and one over a real disk doesn't.
#![tactic(auto)]

mod capture; // where the records lie, and their bytes
mod read; // a file, read once

pub use capture::Capture;
pub use read::{Scanned, scan};
