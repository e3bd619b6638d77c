//! Rows of calls, each with the answer that it must give: the tests of a layer as data, read by a program over this crate.
//!
//! ```text
//! # a remark: the file `lsr.rows`
//! | a line of the text
//! | that the next row takes
//! lsr new 1 -> Ok(())
//! lsr hear 0 0001.. -> _
//! ```
//!
//! A row is `CALL -> ANSWER`, one a line, and the first ` -> ` parts them. The call's words, which blanks part, name a part,
//! what is asked of it, and with what; the answer is how the call's result is printed. An answer `_` is met by any but an
//! error. Lines that begin with `| ` are handed to the next row as its text, without these two characters; `#` begins a
//! remark. Each file is read over a world of its own.
//!
//! - `words`: the words of a row, as numbers, addresses, prefixes and bytes
//! - `printed`: a result as text
//! - `rows`: the loop over the files, and what is reported of a row that differs
#![tactic(auto)]

mod hex; // bytes in hexadecimal
mod printed;
mod rows;
mod words;

pub use hex::in_hex;
pub use printed::{Answer, Dotted, Paired, Slashed, displayed, done, shown};
pub use rows::{World, run};
pub use words::Call;
