//! The sites at which packets were sent into each network.
ghost use Rattle.std.specs.Prelude.{◌≡◌, IfOk, OnOk, ◌++◌, slice_index_or};
ghost use Rattle.mn_join_laws.specs.Pairing.{Pairing, Both};
ghost use Rattle.mn_join.specs.Pairs.{PairStands};
ghost use Rattle.mn_join_run.specs.Reading.{AreOf, sites_in};
ghost use Rattle.mn_join_run.specs.Report.{site_of, sites_of};

use mn_base::SiteNo;
use mn_join::Pair;
use mn_join_laws::Which;
use mn_topo::{JournalEntry, Step};
use std::alloc::{AllocError, Global};
use std::marker::Model;

/// Of each network the site of each injection, in order.
#[derive(Drop)]
pub(crate) struct Sites {
    first: Vec<SiteNo>,
    second: Vec<SiteNo>,
}

impl Model for Sites {
    ghost use Rattle.mn_join_run.specs.Reading.{SitesNow};

    ghost Value = { SitesNow };

    ghost view = { λ s. record { first = s.first.items; second = s.second.items } };
}

/// Adds the site of a step, if it injects a packet.
fn push_site(sites: &mut Vec<SiteNo>, step: &Step) -> Result<(), AllocError>
    ensures { OnOk result (sites.new.items ≡ sites.old.items ++ site_of step.now) }
{
    if let Step::Inject(site, _) = step {
        sites.push(*site)?;
    }
    Ok(())
}

/// The sites of a journal's injections, in order.
fn sites_of(alloc: Global, entries: &[JournalEntry]) -> Result<Vec<SiteNo>, AllocError>
    ensures { IfOk result (λ sites. sites.items ≡ sites_of entries.now) }
{
    let mut sites = Vec::new(alloc);
    for entry in entries {
        push_site(&mut sites, &entry.step)?;
    }
    Ok(sites)
}

impl Sites {
    /// Those of two networks.
    pub fn of(alloc: Global, pair: &Pair) -> Result<Sites, AllocError>
        ensures { IfOk result (λ sites. (pairing : Pairing) (both : Both) → PairStands pairing pair.now both → AreOf sites both) }
    {
        Ok(Sites {
            first: sites_of(alloc, pair.net(Which::First).journal())?,
            second: sites_of(alloc, pair.net(Which::Second).journal())?,
        })
    }

    /// The site of an injection of a network; past the last there is none, and site 0 stands for it.
    pub fn at(&self, which: Which, packet: u32) -> SiteNo
        ensures { result ≡ slice_index_or (sites_in self.now which) packet (record { 0 = 0 }) }
    {
        let sites = match which {
            Which::First => &self.first,
            Which::Second => &self.second,
        };
        match sites.get(packet as usize) {
            Some(site) => *site,
            None => SiteNo(0),
        }
    }
}
