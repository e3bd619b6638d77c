//! The adverts that fly, in the order of sending.
ghost use Rattle.std.specs.Prelude.{◌≡◌, ◌<◌, ◌≤◌, ◌^◌, ◌==◌, not, ◌∷◌, [], filter, length, slice_get, option_map, IfOk, OnOk, OnErr};
ghost use Rattle.mn_flood_laws.specs.Flood.{first_on, without_first};
ghost use Rattle.mn_flood.specs.Queue.{with_sents, way_of};

use crate::advert::Sent;
use mn_base::LinkNo;
use mn_flight::{Back, Flight};
use mn_flight_pool::PoolFlight;
use mn_wiring::{Dir, channel_of};
use std::alloc::{AllocError, Global};
use std::marker::Model;

/// Adverts in flight: each on the channel of its link and direction, all of them due, and numbered in the order of sending.
#[derive(Drop)]
pub(crate) struct Queue {
    flight: PoolFlight<Sent>,
    links: u32,
    made: u64,
}

impl Model for Queue {
    ghost use Rattle.std.specs.Prelude.{◌≡◌, ◌*◌};
    ghost use Rattle.mn_flood.specs.Queue.{Queued, sents_of, IsSending};

    ghost Value = { Queued };

    ghost view = { λ q. record { links = q.links; sents = sents_of q.flight.items; made = q.made } };

    ghost invariant = { λ q. (q.flight.channels ≡ 2 * q.links) × IsSending q.links q.made q.flight.items };
}

impl Queue {
    /// No advert, over so many links.
    pub(crate) fn new(alloc: Global, links: u32) -> Result<Queue, AllocError>
        requires { links ≤ 1024 }
        ensures { IfOk result (λ queue. queue ≡ record { links = links; sents = []; made = 0 }) }
    {
        let flight = PoolFlight::new(alloc, 2 * links)?;
        Ok(Queue {
            flight,
            links,
            made: 0,
        })
    }

    /// Sends an advert, behind all others. An `Err` changes nothing.
    pub(crate) fn send(&mut self, sent: Sent) -> Result<(), AllocError>
        requires link { sent.link < self.old.links }
        requires room { self.old.made < 2 ^ 63 }
        ensures ok { OnOk result (self.new ≡ with_sents self.old (sent ∷ [])) }
        ensures err { OnErr result (self.new ≡ self.old) }
    {
        let channel = channel_of(sent.link, sent.dir);
        match self.flight.push(channel, 0, self.made, sent) {
            Ok(()) => {
                self.made += 1;
                Ok(())
            }
            Err(Back(_)) => Err(AllocError),
        }
    }

    /// Takes what was sent first of what flies in a direction.
    pub(crate) fn take(&mut self, link: LinkNo, dir: Dir) -> Option<Sent>
        ensures value { result ≡ first_on link.0 dir self.old.sents }
        ensures left { self.new ≡ record self.old { sents = without_first link.0 dir self.old.sents } }
    {
        let channel = channel_of(link, dir);
        match self.flight.take(channel, 0) {
            Some(item) => Some(item.item),
            None => None,
        }
    }

    /// Drops all that flies over a link.
    pub(crate) fn drop_link(&mut self, link: LinkNo)
        ensures { self.new ≡ record self.old { sents = filter (λ sent. not (sent.link == link.0)) self.old.sents } }
    {
        self.flight.drop_channel(channel_of(link, Dir::Forth));
        self.flight.drop_channel(channel_of(link, Dir::Back));
    }

    /// How many adverts fly.
    pub(crate) fn len(&self) -> u64
        ensures { result ≡ length self.now.sents }
    {
        self.flight.len()
    }

    /// The direction of the advert that was sent first of all.
    pub(crate) fn first(&self) -> Option<(LinkNo, Dir)>
        ensures { result ≡ option_map way_of (slice_get self.now.sents 0) }
    {
        match self.flight.earliest(0) {
            Some(item) => Some(item.item.way()),
            None => None,
        }
    }
}
