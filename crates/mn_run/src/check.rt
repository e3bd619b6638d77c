//! The line that tells how much a topology has.
ghost use Rattle.std.specs.Prelude.{◌≡◌, ◌<◌, ◌^◌, length, IfOk, string_bytes};
ghost use Rattle.mn_topo.specs.SiteTable.{statics_of};
ghost use Rattle.mn_run.specs.Answer.{check_line};

use mn_topo::{SiteDef, Topology};
use std::alloc::{AllocError, Global};

#[tactic(auto, unfolding(crate::specs::Answer::check_line))]
pub(crate) fn check_line(alloc: Global, topology: &Topology) -> Result<String, AllocError>
    ensures { IfOk result (λ line. string_bytes line ≡ check_line topology.now) }
{
    topology.laws();
    let nodes = topology.nodes().len();
    let links = topology.links().len();
    let vrfs = topology.vrfs().len();
    let sites = topology.sites().len();
    let prefixes = count_prefixes(topology.sites());
    format!(in alloc;
        "topology ok nodes {nodes} links {links} vrfs {vrfs} sites {sites} prefixes {prefixes}\n"
    )
}

/// How many prefixes the sites have together.
fn count_prefixes(sites: &[SiteDef]) -> usize
    requires { length (statics_of sites.now) < 2 ^ 32 }
    ensures { result ≡ length (statics_of sites.now) }
{
    let mut count = 0;
    for site in sites {
        count += site.prefixes.as_slice().len();
    }
    count
}
