//! What became of packets, and how many of each.
ghost use Rattle.std.specs.Prelude.{◌≡◌, ◌<◌, false, ◌++◌, ◌∷◌, [], ℕ, List, length};
ghost use Rattle.mn_join_run.specs.Prelude.{packets_of, verdict_on, Pairing, Both, travel, StandsFor, PairStands};
ghost use Rattle.mn_join_laws.specs.Pairing.{packets_in};
ghost use Rattle.mn_join_run.specs.Reading.{IsJoined, CountSome};
ghost use Rattle.mn_join_run.specs.Report.{last_leg, end_of, ends_of, totals_of};

use mn_base::SiteNo;
use mn_join::{Net, Pair};
use mn_join_laws::{Leg, Which};
use mn_ledger::{Refused, Verdict};

/// The end of a packet.
#[derive(Clone, Copy, Debug, PartialEq, Eq)]
pub enum End {
    /// The verdict of its last leg, in the network of that leg.
    Judged(Which, Verdict),
    /// A network didn't take it in at a joint, for this cause.
    Refused(Refused),
}

/// How many packets there were, and how many ended how.
#[derive(Clone, Copy, Debug, PartialEq, Eq)]
pub struct Totals {
    pub packets: u32,
    pub delivered: u32,
    pub dropped: u32,
    pub flying: u32,
    pub refused: u32,
}

/// The leg that was sent last.
fn last_leg(legs: &[Leg]) -> Leg
    ensures { result ≡ last_leg legs.now }
{
    match legs.last() {
        Some(leg) => *leg,
        None => Leg {
            which: Which::First,
            packet: 0,
        },
    }
}

/// What became of a packet of a network; past the last there is none, and its verdict reads as `verdict_on` says.
fn verdict_on(net: &Net, packet: u32) -> Verdict
    requires { net.now.failed ≡ false }
    ensures { (inputs : List (List ℕ)) → StandsFor net.now inputs → result ≡ verdict_on (packets_of net.now.topology net.now.journal inputs) packet }
{
    net.laws();
    if packet < net.packets() {
        net.verdict(packet)
    } else {
        Verdict::Delivered {
            site: SiteNo(0),
            ttl: 0,
            copy: 0,
        }
    }
}

/// The verdict of a leg in its own network.
fn verdict_of(pair: &Pair, leg: Leg) -> Verdict
    requires { IsJoined pair.now }
    ensures { (pairing : Pairing) (both : Both) → PairStands pairing pair.now both → result ≡ verdict_on (packets_in pairing both leg.which) leg.packet }
{
    verdict_on(pair.net(leg.which), leg.packet)
}

/// The end of the packet of this number, from 0.
pub(crate) fn end_of(pair: &Pair, packet: u32) -> End
    requires joined { IsJoined pair.now }
    requires there { packet < length pair.now.travels }
    ensures { (pairing : Pairing) (both : Both) → PairStands pairing pair.now both → result ≡ end_of pairing both (travel both packet) }
{
    match pair.refused(packet) {
        Some(cause) => End::Refused(cause),
        None => {
            let leg = last_leg(pair.legs(packet));
            End::Judged(leg.which, verdict_of(pair, leg))
        }
    }
}

/// The totals with one packet more.
fn with_end(totals: Totals, end: End) -> Totals
    requires { CountSome totals }
    ensures { (ends : List End) → totals ≡ totals_of ends → result ≡ totals_of (ends ++ end ∷ []) }
{
    let packets = totals.packets + 1;
    match end {
        End::Judged(_, Verdict::Delivered { .. }) => Totals {
            packets,
            delivered: totals.delivered + 1,
            ..totals
        },
        End::Judged(_, Verdict::Dropped { .. }) => Totals {
            packets,
            dropped: totals.dropped + 1,
            ..totals
        },
        End::Judged(_, Verdict::Flying { .. }) => Totals {
            packets,
            flying: totals.flying + 1,
            ..totals
        },
        End::Refused(_) => Totals {
            packets,
            refused: totals.refused + 1,
            ..totals
        },
    }
}

/// How many packets there are, and how many ended how.
pub(crate) fn totals_of(pair: &Pair) -> Totals
    requires { IsJoined pair.now }
    ensures { (pairing : Pairing) (both : Both) → PairStands pairing pair.now both → result ≡ totals_of (ends_of pairing both) }
{
    let mut totals = Totals {
        packets: 0,
        delivered: 0,
        dropped: 0,
        flying: 0,
        refused: 0,
    };
    for packet in 0..pair.packets() {
        totals = with_end(totals, end_of(pair, packet));
    }
    totals
}
