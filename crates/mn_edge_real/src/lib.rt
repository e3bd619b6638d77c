//! The real outside: files by name, and a stream of bytes as standard output.
//!
//! Both are the devices of `mn_edge` over what the system gives. Real files tell no content, nor does standard
//! output, so a program over them is promised causes and not bytes: each failure of a call rises its count of
//! faults, and running out of memory is answered as such, and is no fault. The last failure is kept, to be reported to who
//! runs the program. The sink is over any stream: where that tells its bytes, so does the sink.
//!
//! A program with thousands of files needs few descriptors: at most 64 files are open at a time, those that were
//! used last, so that an append in the common case opens nothing. How far each file was told of is kept, so that
//! one that was cut meanwhile isn't taken for one that ends there. The bytes of the last read are kept, up to 64 KiB, so
//! that the same read, asked for again and again, calls the system once.
#![tactic(auto)]

mod disk; // what a disk is asked, and the system's
mod fault; // which failures count, and what is kept of the last one
mod last_read; // what the last read gave
mod mem_disk; // a disk in memory
mod open_files; // the files that are open
mod reads; // what reads gave
mod shelf; // files by name
mod sink; // a stream of bytes
mod told; // how far files were told of

pub use disk::{Disk, HostDisk, Mode};
pub use fault::{Call, Failure};
pub use mem_disk::{MemDisk, MemFile};
pub use shelf::{DiskShelf, HostShelf};
pub use sink::HostSink;
