// Where a route comes from, and which of two is preferred.
ghost use Rattle.std.specs.Prelude.{◌≡◌};
ghost use Rattle.mn_vrf.specs.Routes.{source_before, same_source, is_open};

use mn_base::{NodeNo, Rd, SiteNo, VrfNo};

/// Where a held route comes from. Of routes to one prefix an own static is preferred to one of another VRF of the edge,
/// of those the one of least VRF number, and any of these to one of another edge, of those by loopback and then by
/// distinguisher.
#[derive(Clone, Copy, Debug, PartialEq, Eq)]
pub enum Source {
    /// A static of the VRF, over this site.
    Own(SiteNo),
    /// Another VRF of the edge, over this site.
    Near(VrfNo, SiteNo),
    /// Another edge, which advertised it (RFC 4364, section 4.3.2).
    Far {
        /// The address of the edge.
        loopback: u32,
        /// The distinguisher under which it was advertised.
        rd: Rd,
        /// The edge.
        edge: NodeNo,
        /// The label that it gave for the route.
        label: u32,
    },
}

impl Source {
    /// Whether it is preferred to the other.
    pub(crate) fn is_before(&self, other: &Source) -> bool
        ensures { result ≡ source_before self.now other.now }
    {
        match (*self, *other) {
            (Source::Own(_), Source::Own(_)) => false,
            (Source::Own(_), _) => true,
            (Source::Near(..), Source::Own(_)) => false,
            (Source::Near(one, _), Source::Near(two, _)) => one.0 < two.0,
            (Source::Near(..), Source::Far { .. }) => true,
            (
                Source::Far { loopback, rd, .. },
                Source::Far {
                    loopback: other_loopback,
                    rd: other_rd,
                    ..
                },
            ) => {
                if loopback != other_loopback {
                    return loopback < other_loopback;
                }
                rd.0 < other_rd.0
            }
            (Source::Far { .. }, _) => false,
        }
    }
}

/// Whether a source is one of the edge itself, or of an edge that is among these, by number.
pub(crate) fn is_open(source: &Source, ways: &[bool]) -> bool
    ensures { result ≡ is_open ways.now source.now }
{
    match *source {
        Source::Far { edge, .. } => match ways.get(edge.0 as usize) {
            Some(is_open) => *is_open,
            None => false,
        },
        Source::Own(_) | Source::Near(_, _) => true,
    }
}

/// Whether two sources are the same.
pub(crate) fn are_same(one: &Source, other: &Source) -> bool
    ensures { result ≡ same_source one.now other.now }
{
    match (*one, *other) {
        (Source::Own(site), Source::Own(other_site)) => site.0 == other_site.0,
        (Source::Near(vrf, site), Source::Near(other_vrf, other_site)) => {
            vrf.0 == other_vrf.0 && site.0 == other_site.0
        }
        (
            Source::Far {
                loopback,
                rd,
                edge,
                label,
            },
            Source::Far {
                loopback: other_loopback,
                rd: other_rd,
                edge: other_edge,
                label: other_label,
            },
        ) => {
            loopback == other_loopback
                && rd.0 == other_rd.0
                && edge.0 == other_edge.0
                && label == other_label
        }
        (_, _) => false,
    }
}
