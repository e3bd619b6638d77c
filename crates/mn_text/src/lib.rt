//! The texts of numbers, addresses, prefixes, route distinguishers and targets, and the lines and
//! words in which they stand.
//!
//! ```text
//! number     decimal digits without a leading zero, or `0`
//! address    four numbers of 0 to 255 joined by dots
//! prefix     address `/` number of 0 to 32, the bits after so many being zero
//! pair       number of 0 to 65535 `:` number of 0 to 4294967295, or
//!            address `:` number of 0 to 65535
//! line       up to LF, or to the end of the text; a CR right before the LF isn't part of it
//! word       a longest run of bytes other than space and tab
//! ```
//!
//! Each text is written in one way, so what is read is the text of its value.
//!
//! - `refusal`: why a text isn't of its form
//! - `read`: from a word to its value, without memory
//! - `write`: from a value to its text, at the end of a buffer
//! - `lines`: the first line of a text, the first word of a line, and the k-th
//! - `laws`: what is written is read again
#![tactic(auto)]

mod laws;
mod lines;
mod read;
mod refusal;
mod write;

pub use laws::{address_again, number_again, prefix_again, rd_again, rt_again};
pub use lines::{first_line, first_word, word};
pub use read::{address, address_of, number, number_up_to, prefix, rd, rt};
pub use refusal::TextBad;
pub use write::{put_address, put_number, put_prefix, put_rd, put_rt};
