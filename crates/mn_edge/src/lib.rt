//! The outside of a program: a shelf of named files, and a sink that takes bytes in order.
//!
//! A program reads and writes through the traits [`Shelf`] and [`Sink`], so that contracts can speak of what
//! it read and wrote. A device may tell what it holds: then `files` is a finite map from names to bytes, and
//! `written` the bytes so far. One over a real disk tells nothing, and promises nothing of content.
//!
//! Every device counts its faults. It answers `Failed` only where the count rose in that call, and no other
//! answer touches a count. So a program that ends well, with all counts as they were, met no fault. A sound
//! device fails by itself at no call, and has no count: a fetch or an append fails only where no file has the
//! name. So a program that fails over sound devices has asked for a file that isn't there. And each device keeps
//! why its last call was refused, so that a call that ends at the first refusal can say so: its error is that one.
//!
//! Whole files are read by [`read_all`], and written in pieces by [`write_all`] and [`append_all`], which say
//! of a file that was cut short how it begins. Files that grow by many small pieces go through a [`Gather`],
//! which holds up to 64 KiB over all of them, or 1 MiB over more than 64, and so makes few appends.
#![tactic(auto)]

mod device; // the two traits
mod gather; // files that grow by small pieces
mod held; // what waits in a gather
mod line; // what a file grows by
mod memory; // both devices in memory
mod named; // files by name, for the shelf in memory
mod read; // a whole file, read in pieces
mod write; // files, written in pieces

pub use device::{DeviceBad, Shelf, Sink};
pub use gather::Gather;
pub use line::Line;
pub use memory::{MemShelf, MemSink};
pub use read::{Content, read_all};
pub use write::{append_all, begin_all, write_all};
