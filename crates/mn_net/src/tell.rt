//! What became of packets.
ghost use Rattle.std.specs.Prelude.{◌≡◌, ◌<◌, ◌^◌, List, ℕ, [], length, map, option_map, slice_get, slice_index_or, Some};
ghost use Rattle.mn_ledger.specs.Prelude.{packets_of, flying_on, Frames, items_on, flight_of, verdict_on};
ghost use Rattle.mn_transit.specs.Visits.{path_of};
ghost use Rattle.mn_net.specs.Prelude.{StandsFor};
ghost use Rattle.mn_net.specs.Landing.{IsLanding};

use crate::net::Net;
use mn_base::{LinkNo, NodeNo, SiteNo};
use mn_ledger::Verdict;
use mn_wiring::Dir;

impl Net {
    /// How many packets were injected.
    pub fn packets(&self) -> u32
        requires { length self.now.moving.verdicts < 2 ^ 32 }
        ensures counted { result ≡ length self.now.moving.verdicts }
        ensures told { (inputs : List (List ℕ)) → StandsFor self.now inputs → result ≡ length inputs }
    {
        self.transit.packets()
    }

    /// What became of a packet. After running out of memory it is what it was before.
    pub fn verdict(&self, packet: u32) -> Verdict
        requires { packet < length self.now.moving.verdicts }
        ensures told { (inputs : List (List ℕ)) → StandsFor self.now inputs → result ≡ verdict_on (packets_of self.now.topology self.now.journal inputs) packet }
        ensures kept { slice_get self.now.moving.verdicts packet ≡ Some result }
    {
        self.transit.verdict(packet)
    }

    /// The nodes at which a packet was, from the entry on. After running out of memory they are what they were before.
    pub fn path(&self, packet: u32) -> &[NodeNo]
        requires { packet < length self.now.moving.verdicts }
        ensures told { (inputs : List (List ℕ)) → StandsFor self.now inputs → map (λ node. node.0) result.now ≡ slice_index_or (packets_of self.now.topology self.now.journal inputs).paths packet [] }
        ensures kept { (path_of self.now.moving.paths packet).nodes ≡ result.now }
    {
        self.transit.path(packet)
    }

    /// How many frames fly on a direction of a link.
    pub fn flying(&self, link: LinkNo, dir: Dir) -> u64
        ensures told { (inputs : List (List ℕ)) → StandsFor self.now inputs → result ≡ length (flying_on (packets_of self.now.topology self.now.journal inputs) link.0 dir) }
        ensures items { (inputs : List (List ℕ)) → StandsFor self.now inputs → result ≡ length (items_on (Frames link.0 dir) (flight_of self.now.topology self.now.journal inputs).items) }
    {
        self.transit.flying(link, dir)
    }

    /// The packet that the last step delivered.
    pub fn delivered(&self) -> Option<&[u8]>
        ensures told { (inputs : List (List ℕ)) → StandsFor self.now inputs → option_map (λ bytes. bytes.now) result ≡ (packets_of self.now.topology self.now.journal inputs).delivered }
    {
        self.transit.delivered()
    }

    /// Which packet the last step delivered, by its number from 0, and at which site. After running out of memory it may tell of a step that was not
    /// done.
    pub fn landed(&self) -> Option<(u32, SiteNo)>
        requires { length self.now.moving.verdicts < 2 ^ 32 }
        ensures told { (inputs : List (List ℕ)) → StandsFor self.now inputs → IsLanding (packets_of self.now.topology self.now.journal inputs) result }
    {
        self.transit.landed()
    }
}
