//! The top call: what the words of a command line say, done over a shelf of files and a sink.
//!
//! `run` reads its three inputs (`load`) and plays the script (`mn_perform`); `check` reads a topology and tells how
//! much it has; `generate` plays what `mn_gen` makes of a number, without files. What is refused puts one line
//! (`mn_answer`). [`command`] says how each call ends, which files it leaves, and what it puts, by definitions that
//! know nothing of the program (`specs/Answer`).
//!
//! - `top`: [`command`]
//! - `load`: the inputs of a run from their files; `parse`: a capture from its bytes, with its limits
//! - `generate`: the runs of the generator
//! - `check`: the line of `check`
//! - `words`: the words of the command line, and the job that they ask for
#![tactic(auto)]

mod check;
mod generate;
mod load;
mod parse;
mod top;
mod words;

pub use mn_answer::{Limit, Outcome};
pub use top::command;
