//! The labels that a node gives, and what each of them means on that node.
//!
//! Labels are given from 16 upward, since 0 to 15 are reserved (RFC 3032, section 2.1). The label space is the
//! platform's (RFC 3031, section 3.14), so one table serves the whole node. An attachment keeps its label for good, and so a
//! frame that was sent before a site's attachment ended is never taken for one of a later attachment. A FEC keeps its label
//! until it gives it up; then the label may be given to another FEC.
//!
//! ```text
//!  label 16           17           18       19                             1048575
//!       +------------+------------+--------+------------+--------+--   --+----------+
//!       | site 0,    | site 0,    | FEC of | site 1,    | nobody |       |   last   |
//!       | attached 1 | attached 2 | node 2 | attached 1 |        |       |          |
//!       +------------+------------+--------+------------+--------+--   --+----------+
//!                                  had by turns          had by turns
//! ```
//!
//! An attachment is given the label after the greatest, and a FEC that has none the least that nothing has.
//!
//! - `meaning`: what a label may be given for, and a giving
//! - `table`: the labels given so far
//! - `refusal`: why no label is given
#![tactic(auto)]

mod meaning;
mod refusal;
mod table;

pub use meaning::{Bind, Given};
pub use refusal::LabelBad;
pub use table::Labels;
