//! Tests of what is written: names of files, lines and tables, over the public calls of their crates.
//!
//! Expected values were worked by hand from docs/FORMATS.md.
#![tactic(auto)]

#[cfg(test)]
mod files; // the names of files
#[cfg(test)]
mod lines; // lines of the report, and pages that fill
#[cfg(test)]
mod tables; // one line of each table
