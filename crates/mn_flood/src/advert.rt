//! Adverts, as nodes keep and send them.
ghost use Rattle.std.specs.Prelude.{◌≡◌, ◌==◌, IfOk};
ghost use Rattle.std.specs.List.{list_any};
ghost use Rattle.mn_flood.specs.Links.{numbers_of};
ghost use Rattle.mn_flood.specs.Queue.{way_of};

use mn_base::{LinkNo, NodeNo};
use mn_linkdb::SharedList;
use mn_wiring::Dir;
use std::alloc::{AllocError, Global};
use std::marker::Model;

/// The links of a node that were up, as it advertised them the number-th time. All copies own one list of them.
#[derive(Drop)]
pub(crate) struct Advert {
    pub(crate) origin: NodeNo,
    pub(crate) number: u32,
    pub(crate) links: SharedList<LinkNo>,
}

impl Model for Advert {
    ghost use Rattle.mn_flood_laws.specs.Flood.{Advert as Value_};
    ghost use Rattle.mn_flood.specs.Links.{numbers_of};

    ghost Value = { Value_ };

    ghost view = { λ a. record { origin = a.origin.0; number = a.number; links = numbers_of a.links } };
}

/// An advert on its way over a link.
#[derive(Drop)]
pub(crate) struct Sent {
    pub(crate) link: LinkNo,
    pub(crate) dir: Dir,
    pub(crate) advert: Advert,
}

impl Model for Sent {
    ghost use Rattle.mn_flood_laws.specs.Flood.{Sent as Value_};

    ghost Value = { Value_ };

    ghost view = { λ s. record { link = s.link.0; dir = s.dir; advert = s.advert } };
}

/// Whether a link is one of these.
fn is_among(link: LinkNo, links: &[LinkNo]) -> bool
    ensures { result ≡ list_any (λ other. other.0 == link.0) links.now }
{
    links.iter().any(|other| other.0 == link.0)
}

impl Sent {
    /// On which link and in which direction it flies.
    pub(crate) fn way(&self) -> (LinkNo, Dir)
        ensures { result ≡ way_of self.now }
    {
        (self.link, self.dir)
    }

    /// The advert itself.
    pub(crate) fn into_advert(self) -> Advert
        ensures { result ≡ self.advert }
    {
        self.advert
    }
}

impl Advert {
    /// An advert of these links.
    pub(crate) fn new(
        alloc: Global,
        origin: NodeNo,
        number: u32,
        links: Vec<LinkNo>,
    ) -> Result<Advert, AllocError>
        ensures { IfOk result (λ advert. advert ≡ record { origin = origin.0; number = number; links = numbers_of links.items }) }
    {
        let links = SharedList::from_vec(alloc, links)?;
        Ok(Advert {
            origin,
            number,
            links,
        })
    }

    /// The same once more. It copies no link.
    pub(crate) fn copy(&self) -> Result<Advert, AllocError>
        ensures { IfOk result (λ copy. copy ≡ self.now) }
    {
        let links = self.links.share()?;
        Ok(Advert {
            origin: self.origin,
            number: self.number,
            links,
        })
    }

    /// Whether it lists the link.
    pub(crate) fn lists(&self, link: LinkNo) -> bool
        ensures { result ≡ list_any (λ other. other == link.0) self.now.links }
    {
        is_among(link, self.links.as_slice())
    }
}
