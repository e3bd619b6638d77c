//! A packet on its way over both networks: it is sent into one, and handed over to the other where that has delivered it at a joint.
ghost use Rattle.std.specs.Prelude.{◌≡◌, ◌≢◌, ◌≤◌, ◌<◌, ◌+◌, ◌++◌, ◌∷◌, [], ℕ, List, true, length, IfOk, OnErr, OnOk};
ghost use Rattle.std.specs.List.{All};
ghost use Rattle.mn_topo.specs.Steps.{fits};
ghost use Rattle.mn_topo.specs.declared.steps.Step.TheVariants as step;
ghost use Rattle.mn_join_laws.specs.Pairing.{opposite, Pairing, Both, side, Side as SideOf};
ghost use Rattle.mn_join.specs.Pairs.{IsSide, IsPacedFromStart, LeadTo, Belong};
ghost use Rattle.mn_join.specs.Moves.{TakesIn, HandsOver, Standing, GoesOn};

use crate::played::PairBad;
use crate::side::Side;
use mn_base::SiteNo;
use mn_join_laws::{Leg, Which};
use mn_ledger::Refused;
use std::alloc::{AllocError, Global};
use std::marker::Model;

/// A packet that a line sent: the number of its record, its legs, and why a network refused to take it in.
#[derive(Drop)]
pub(crate) struct Crossing {
    pub(crate) number: u32,
    pub(crate) legs: Vec<Leg>,
    pub(crate) refused: Option<Refused>,
}

impl Model for Crossing {
    ghost use Rattle.mn_join_laws.specs.Pairing.{Travel};

    ghost Value = { Travel };

    ghost view = { λ c. record { number = c.number; legs = c.legs.items; refused = c.refused } };
}

/// A packet that came out.
#[derive(Drop)]
pub(crate) struct Kept {
    pub(crate) which: Which,
    pub(crate) site: SiteNo,
    pub(crate) tick: u64,
    pub(crate) bytes: Vec<u8>,
}

impl Model for Kept {
    ghost use Rattle.mn_join_laws.specs.Course.{Exit};

    ghost Value = { Exit };

    ghost view = { λ k. record { which = k.which; site = k.site.0; tick = k.tick; bytes = k.bytes.items } };
}

/// The other network.
pub(crate) fn opposite(which: Which) -> Which
    ensures { result ≡ opposite which }
{
    match which {
        Which::First => Which::Second,
        Which::Second => Which::First,
    }
}

/// Keeps a packet that came out.
fn keep(
    alloc: Global,
    which: Which,
    site: SiteNo,
    tick: u64,
    bytes: &[u8],
    exits: &mut Vec<Kept>,
) -> Result<(), AllocError>
    ensures kept { OnOk result (exits.new.items ≡ exits.old.items ++ record { which = which; site = site.0; tick = tick; bytes = bytes.now } ∷ []) }
    ensures left { OnErr result (exits.new.items ≡ exits.old.items) }
{
    exits.reserve(1)?;
    let bytes = Vec::from_slice(alloc, bytes)?;
    exits.push_reserved(Kept {
        which,
        site,
        tick,
        bytes,
    });
    Ok(())
}

/// A network takes a packet in at a site, as its next leg. It answers whether it entered; else its end is that it was refused.
fn take_in(
    crossing: &mut Crossing,
    which: Which,
    there: &mut Side,
    site: SiteNo,
    bytes: &[u8],
    owner: u32,
) -> Result<bool, PairBad>
    requires fits { fits there.old.net.topology (step.Inject site crossing.old.number) ≡ true }
    ensures takes { (pairing : Pairing) (now : SideOf) → IsSide pairing which there.old now →
        TakesIn pairing which now site bytes.now owner crossing.old crossing.new there.new result }
    ensures number { crossing.new.number ≡ crossing.old.number }
    ensures goes { GoesOn there.old there.new }
    ensures left { OnErr result (there.new.net.journal ≡ there.old.net.journal) }
    ensures paced { IsPacedFromStart there.old.net → IsPacedFromStart there.new.net }
{
    if crossing.legs.reserve(1).is_err() {
        return Err(PairBad::NoMemory);
    }
    match there.enter(site, crossing.number, bytes, owner) {
        Ok(packet) => {
            crossing.legs.push_reserved(Leg { which, packet });
            Ok(true)
        }
        Err(Refused::TooManySteps) => Err(PairBad::TooManySteps),
        Err(Refused::NoMemory) => Err(PairBad::NoMemory),
        Err(why) => {
            crossing.refused = Some(why);
            Ok(false)
        }
    }
}

/// What a network has just delivered enters the other one where its site is joined, and comes out where it isn't. It answers whether a
/// packet entered.
pub(crate) fn hand_over(
    alloc: Global,
    which: Which,
    here: &Side,
    there: &mut Side,
    crossings: &mut Vec<Crossing>,
    exits: &mut Vec<Kept>,
) -> Result<bool, PairBad>
    requires joints { LeadTo there.old.net.topology here.now.partners }
    requires numbers { All (λ packet. 1 ≤ packet.number) crossings.old.items }
    ensures over { (pairing : Pairing) (both : Both) → Standing pairing which here.now there.old crossings.old.items both →
        HandsOver pairing which both here.now there.new crossings.new.items exits.old.items exits.new.items result }
    ensures numbers { All (λ packet. 1 ≤ packet.number) crossings.new.items }
    ensures as_many { length crossings.new.items ≡ length crossings.old.items }
    ensures one_more { length exits.new.items ≤ length exits.old.items + 1 }
    ensures entered { IfOk result (λ entered. entered ≡ true → exits.new.items ≡ exits.old.items) }
    ensures goes { GoesOn there.old there.new }
    ensures left { OnErr result ((there.new.net.journal ≡ there.old.net.journal) × (exits.new.items ≡ exits.old.items)) }
    ensures paced { IsPacedFromStart there.old.net → IsPacedFromStart there.new.net }
{
    let Some(found) = here.landing() else {
        return Ok(false);
    };
    let Some(bytes) = here.net.delivered() else {
        return Ok(false);
    };
    let Some(site) = found.partner else {
        let tick = here.net.tick();
        return match keep(alloc, which, found.site, tick, bytes, exits) {
            Ok(()) => Ok(false),
            Err(_) => Err(PairBad::NoMemory),
        };
    };
    let at = found.owner as usize;
    if at >= crossings.len() {
        return Ok(false);
    }
    take_in(
        &mut crossings[at],
        opposite(which),
        there,
        site,
        bytes,
        found.owner,
    )
}
