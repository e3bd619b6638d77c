// One route.
ghost use Rattle.std.specs.Prelude.{◌≡◌};

use mn_base::{Rd, Rt};
use mn_prefix::Prefix;
use std::marker::Model;

/// A route as its last mention announced it.
#[derive(Debug, Drop)]
pub struct HeardRoute {
    pub(crate) rd: Rd,
    pub(crate) prefix: Prefix,
    pub(crate) label: u32,
    pub(crate) targets: Vec<Rt>,
}

impl Model for HeardRoute {
    ghost use Rattle.mn_rib_in.specs.Heard.{Heard};

    ghost Value = { Heard };

    ghost view = { λ r. record { rd = r.rd; prefix = r.prefix; label = r.label; targets = r.targets.items } };
}

impl HeardRoute {
    /// The distinguisher that makes the prefix one route of the provider's (RFC 4364, section 4.1).
    pub fn rd(&self) -> Rd
        ensures { result ≡ self.now.rd }
    {
        self.rd
    }

    /// The customer's prefix.
    pub fn prefix(&self) -> Prefix
        ensures { result ≡ self.now.prefix }
    {
        self.prefix
    }

    /// The label that the peer gave for it.
    pub fn label(&self) -> u32
        ensures { result ≡ self.now.label }
    {
        self.label
    }

    /// Its targets, in the order in which they were advertised.
    pub fn targets(&self) -> &[Rt]
        ensures { result.now ≡ self.now.targets }
    {
        &self.targets
    }
}
