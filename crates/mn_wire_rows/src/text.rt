//! A route as text.
use mn_rows::{Paired, Slashed};
use mn_vpn_nlri::VpnRoute;
use std::fmt;
use std::fmt::Display;

/// Distinguisher, prefix and label, printed as `65000:1 10.2.0.0/16 16`.
#[derive(Clone, Copy)]
pub(crate) struct Routed<'a>(pub &'a VpnRoute);

impl Display for Routed<'_> {
    fn fmt<W: fmt::Write>(&self, f: &mut fmt::Formatter<W>) -> fmt::Result {
        let VpnRoute { rd, prefix, label } = *self.0;
        write!(f, "{} {} {label}", Paired(rd.0), Slashed(prefix))
    }
}
