//! What became of each packet, and what flies.
ghost use Rattle.std.specs.Prelude.{◌≡◌, ◌<◌, ◌*◌, ◌^◌, ◌==◌, [], length, map, find, option_map, slice_get, slice_index_or, Some};
ghost use Rattle.std.specs.Option.{option_copied};
ghost use Rattle.mn_transit.specs.Prelude.{earliest, IsFlight, on_channel, Labelling, path_of};
ghost use Rattle.mn_ledger.specs.Prelude.{Network, channel, Packets, flying_on, bytes_flying, verdict_on};
ghost use Rattle.mn_transit.specs.Moving.{bytes_in};
ghost use Rattle.mn_transit.specs.Landed.{site_as, IsLast, HasLanded};
ghost use Rattle.mn_transit.specs.Stands.{StandsFor};

use crate::flown::Flown;
use crate::transit::Transit;
use mn_base::{LinkNo, NodeNo, SiteNo};
use mn_flight::{Flight, Item};
use mn_ledger::Verdict;
use mn_wiring::{Dir, channel_of};

impl Transit {
    /// How many packets were injected.
    pub fn packets(&self) -> u32
        requires { length self.now.verdicts < 2 ^ 32 }
        ensures counted { result ≡ length self.now.verdicts }
        ensures told { (topology : Network) (given : Labelling) (packets : Packets) → StandsFor topology given self.now packets → result ≡ length packets.verdicts }
    {
        self.verdicts.len() as u32
    }

    /// What became of a packet.
    pub fn verdict(&self, packet: u32) -> Verdict
        requires { packet < length self.now.verdicts }
        ensures told { (topology : Network) (given : Labelling) (packets : Packets) → StandsFor topology given self.now packets → result ≡ verdict_on packets packet }
        ensures kept { slice_get self.now.verdicts packet ≡ Some result }
    {
        self.verdicts[packet as usize]
    }

    /// The nodes at which a packet was, from the entry on.
    pub fn path(&self, packet: u32) -> &[NodeNo]
        requires { packet < length self.now.verdicts }
        ensures told { (topology : Network) (given : Labelling) (packets : Packets) → StandsFor topology given self.now packets →
            map (λ node. node.0) result.now ≡ slice_index_or packets.paths packet [] }
        ensures kept { (path_of self.now.paths packet).nodes ≡ result.now }
    {
        self.paths.nodes(packet)
    }

    /// The packet that the last step delivered.
    pub fn delivered(&self) -> Option<&[u8]>
        ensures told { (topology : Network) (given : Labelling) (packets : Packets) → StandsFor topology given self.now packets → option_map (λ bytes. bytes.now) result ≡ packets.delivered }
    {
        match &self.delivered {
            Some(flown) => Some(flown.frame.packet()),
            None => None,
        }
    }

    /// The site of a packet, if it is the one that was delivered last.
    fn last_site(&self, packet: u32) -> Option<SiteNo>
        ensures { result ≡ site_as self.now.copies (slice_get self.now.verdicts packet) }
    {
        match self.verdicts.get(packet as usize) {
            Some(Verdict::Delivered { site, copy, .. }) if *copy == self.copies => Some(*site),
            _ => None,
        }
    }

    /// The packet that was delivered last, by its verdict, and its site.
    fn find_last(&self) -> Option<(u32, SiteNo)>
        requires { length self.now.verdicts < 2 ^ 32 }
        ensures { IsLast self.now.copies self.now.verdicts result }
    {
        for packet in 0..self.verdicts.len() as u32 {
            if let Some(site) = self.last_site(packet) {
                return Some((packet, site));
            }
        }
        None
    }

    /// Which packet the last step delivered, and at which site: the one whose verdict is the newest copy. It is remembered, and looked for
    /// among all only where its verdict should be another.
    pub fn landed(&self) -> Option<(u32, SiteNo)>
        requires { length self.now.verdicts < 2 ^ 32 }
        ensures { HasLanded self.now result }
    {
        let Some(flown) = &self.delivered else {
            return None;
        };
        match self.last_site(flown.packet) {
            Some(site) => Some((flown.packet, site)),
            None => self.find_last(),
        }
    }

    /// How many frames fly on a direction of a link.
    pub fn flying(&self, link: LinkNo, dir: Dir) -> u64
        ensures counted { result ≡ length (on_channel (channel link.0 dir) self.now.flying) }
        ensures told { (topology : Network) (given : Labelling) (packets : Packets) → StandsFor topology given self.now packets → result ≡ length (flying_on packets link.0 dir) }
    {
        self.frames.count(channel_of(link, dir))
    }

    /// The bytes of the packets that fly, without their labels.
    pub fn flying_bytes(&self) -> u64
        ensures counted { result ≡ bytes_in self.now.flying }
        ensures told { (topology : Network) (given : Labelling) (packets : Packets) → self.now.channels ≡ 2 * length topology.links →
            StandsFor topology given self.now packets → result ≡ bytes_flying topology packets }
    {
        self.bytes
    }

    /// How many frames fly.
    pub fn in_flight(&self) -> u64
        ensures { result ≡ length self.now.flying }
    {
        self.frames.len()
    }

    /// Of the frames that are due at a tick `limit` or before it, the one of least due tick and, among these, of least
    /// number; `None` where none is due by then.
    pub fn earliest(&self, limit: u64) -> Option<&Item<Flown>>
        ensures { option_copied result ≡ earliest limit self.now.flying }
    {
        self.frames.earliest(limit)
    }

    /// What holds of every one: its frames fly on its channels, by numbers that ascend.
    pub fn laws(&self)
        ensures flight { IsFlight self.now.channels self.now.flying }
    {
        let _ = &self.bytes;
    }

    /// The frame of a number; `None` where it isn't in flight.
    pub fn frame(&self, number: u64) -> Option<&Item<Flown>>
        ensures { option_copied result ≡ find (λ item. item.number == number) self.now.flying }
    {
        self.frames.get(number)
    }
}
