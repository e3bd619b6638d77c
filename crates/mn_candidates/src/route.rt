//! A route of a VRF, and which of two is preferred.
ghost use Rattle.std.specs.Prelude.{◌≡◌};
ghost use Rattle.mn_prefix.specs.Prefix.{contains};
ghost use Rattle.mn_ledger.specs.Held.{is_preferred, is_better};
ghost use Rattle.mn_candidates.specs.Routes.{source_in, held_as};

use mn_base::{NodeNo, Rd, SiteNo, VrfNo};
use mn_prefix::Prefix;

/// From where a VRF has a route.
#[derive(Clone, Copy)]
pub enum Source {
    /// A static of its own.
    Own,
    /// Another VRF of its edge.
    Near(VrfNo),
    /// Another edge: its address, and the route distinguisher.
    Far(u32, Rd),
}

/// A route of a VRF: the prefix, and the site of an edge over which it leads.
#[derive(Clone, Copy)]
pub struct Route {
    pub prefix: Prefix,
    pub source: Source,
    pub edge: NodeNo,
    pub site: SiteNo,
}

/// Whether the one edge's route is preferred to the other's: by address, and then by route distinguisher.
fn is_first(address: u32, rd: Rd, other: u32, other_rd: Rd) -> bool
    ensures { result ≡ is_preferred (source_in (Far address rd)) (source_in (Far other other_rd)) }
{
    address < other || address == other && rd.0 < other_rd.0
}

ghost use Rattle.mn_candidates.specs.declared.route.Source.TheVariants.{Far};

/// Whether the one source is preferred to the other.
fn is_preferred(source: Source, other: Source) -> bool
    ensures { result ≡ is_preferred (source_in source) (source_in other) }
{
    match source {
        Source::Own => !matches!(other, Source::Own),
        Source::Near(vrf) => match other {
            Source::Own => false,
            Source::Near(second) => vrf.0 < second.0,
            Source::Far(..) => true,
        },
        Source::Far(address, rd) => match other {
            Source::Far(second, second_rd) => is_first(address, rd, second, second_rd),
            Source::Own | Source::Near(_) => false,
        },
    }
}

/// Whether the one route is longer, or as long and of a source that is preferred (RFC 1812, section 5.2.4.3).
pub(crate) fn is_better(route: Route, other: Route) -> bool
    ensures { result ≡ is_better (held_as route) (held_as other) }
{
    let (length, second) = (route.prefix.length(), other.prefix.length());
    second < length || length == second && is_preferred(route.source, other.source)
}

/// Whether the route's prefix contains the address.
pub(crate) fn covers(route: Route, address: u32) -> bool
    ensures { result ≡ contains route.prefix address }
{
    route.prefix.contains(address)
}
