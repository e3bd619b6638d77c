//! One of two networks that are joined.
ghost use Rattle.std.specs.Prelude.{◌≡◌, ◌≤◌, ◌<◌, ◌*◌, ◌^◌, ◌∷◌, ◌++◌, [], ℕ, List, true, false, length, slice_get, slice_index_or, OnOk, OnErr, IfOk, IfSome, Ok};
ghost use Rattle.mn_join.specs.Prelude.{fits, damage_fits, injects, packets_of, Which, Pairing, network, limit_of};
ghost use Rattle.mn_topo.specs.declared.steps.Step.TheVariants as step;
ghost use Rattle.mn_join_laws.specs.Pairing.{Side as SideOf};
ghost use Rattle.mn_join.specs.Ends.{LeadBelow};
ghost use Rattle.mn_join.specs.Pairs.{IsSide, IsPacedFromStart, joined_to};
ghost use Rattle.mn_join.specs.Moves.{Steps, Damages, Enters, Arrives, Finds, GoesOn, Undone, stepped_by, leads_to};

use crate::played::PairBad;
use mn_base::SiteNo;
use mn_course_laws::Arrivals;
use mn_ledger::Refused;
use mn_sched::{Done, Net, arrive};
use mn_topo::{Damage, Step};
use std::marker::Model;

/// A network, the site to which each of its sites is joined, and of each injection the packet that it is a leg of.
#[derive(Drop)]
pub(crate) struct Side {
    pub(crate) net: Net,
    pub(crate) partners: Vec<Option<SiteNo>>,
    pub(crate) owners: Vec<u32>,
}

impl Model for Side {
    ghost use Rattle.mn_join.specs.Pairs.{SideNow};

    ghost Value = { SideNow };

    ghost view = { λ s. record { net = s.net; partners = s.partners.items; owners = s.owners.items } };
}

/// What a step has delivered.
#[derive(Clone, Copy)]
pub(crate) struct Found {
    /// The packet that it is a leg of.
    pub(crate) owner: u32,
    pub(crate) site: SiteNo,
    /// The site of the other network to which this one is joined.
    pub(crate) partner: Option<SiteNo>,
}

/// Whether a step was done.
fn stepped_by(done: Result<Done, Refused>) -> Result<(), Refused>
    ensures { result ≡ stepped_by done }
{
    match done {
        Ok(_) => Ok(()),
        Err(why) => Err(why),
    }
}

impl Side {
    /// The site to which a site is joined.
    fn partner(&self, site: SiteNo) -> Option<SiteNo>
        ensures told { leads_to result ≡ joined_to (slice_get self.now.partners site.0) }
        ensures below { (most : ℕ) → LeadBelow most self.now.partners → IfSome result (λ partner. partner.0 < most) }
    {
        *self.partners.get(usize::from(site.0))?
    }

    /// The packet that an injection is a leg of.
    fn owner(&self, packet: u32) -> u32
        ensures { result ≡ slice_index_or self.now.owners packet 0 }
    {
        match self.owners.get(packet as usize) {
            Some(owner) => *owner,
            None => 0,
        }
    }

    /// What the last step has delivered.
    pub(crate) fn landing(&self) -> Option<Found>
        ensures finds { (pairing : Pairing) (which : Which) (side : SideOf) → IsSide pairing which self.now side →
            Finds pairing which side (packets_of (network pairing which) side.past.entries side.inputs) result }
        ensures below { (most : ℕ) → LeadBelow most self.now.partners → IfSome result (λ found. IfSome found.partner (λ partner. partner.0 < most)) }
    {
        if !self.net.works() {
            return None;
        }
        self.net.laws();
        let (packet, site) = self.net.landed()?;
        Some(Found {
            owner: self.owner(packet),
            site,
            partner: self.partner(site),
        })
    }

    /// Does a step that injects nothing.
    pub(crate) fn step(&mut self, step: Step) -> Result<(), Refused>
        requires fits { fits self.old.net.topology step ≡ true }
        requires plain { injects step ≡ false }
        ensures steps { (pairing : Pairing) (which : Which) (side : SideOf) → IsSide pairing which self.old side → Steps pairing which side step self.new result }
        ensures goes { GoesOn self.old self.new }
        ensures undone { Undone self.old self.new result }
        ensures left { OnErr result (self.new.net.journal ≡ self.old.net.journal) }
        ensures paced { IsPacedFromStart self.old.net → IsPacedFromStart self.new.net }
    {
        stepped_by(self.net.step(step, &[]))
    }

    /// Ends a session by a damaged message, in whose place the packet came.
    pub(crate) fn damage(&mut self, damage: Damage, packet: &[u8]) -> Result<(), Refused>
        requires { damage_fits self.old.net.topology damage ≡ true }
        ensures damages { (pairing : Pairing) (which : Which) (side : SideOf) → IsSide pairing which self.old side →
            Damages pairing which side damage packet.now self.new result }
        ensures goes { GoesOn self.old self.new }
        ensures undone { Undone self.old self.new result }
        ensures left { OnErr result (self.new.net.journal ≡ self.old.net.journal) }
        ensures paced { IsPacedFromStart self.old.net → IsPacedFromStart self.new.net }
    {
        stepped_by(self.net.damage(damage, packet))
    }

    /// A packet enters at a site, as a leg of a packet. It answers the number of the injection.
    pub(crate) fn enter(
        &mut self,
        site: SiteNo,
        number: u32,
        bytes: &[u8],
        owner: u32,
    ) -> Result<u32, Refused>
        requires fits { fits self.old.net.topology (step.Inject site number) ≡ true }
        ensures enters { (pairing : Pairing) (which : Which) (side : SideOf) → IsSide pairing which self.old side →
            Enters pairing which side site number bytes.now owner self.new result }
        ensures goes { GoesOn self.old self.new }
        ensures undone { Undone self.old self.new result }
        ensures left { OnErr result (self.new.net.journal ≡ self.old.net.journal) }
        ensures paced { IsPacedFromStart self.old.net → IsPacedFromStart self.new.net }
    {
        if !self.net.works() {
            return Err(Refused::NoMemory);
        }
        self.net.laws();
        let packet = self.net.packets();
        if self.owners.reserve(1).is_err() {
            return Err(Refused::NoMemory);
        }
        self.net.step(Step::Inject(site, number), bytes)?;
        self.owners.push_reserved(owner);
        Ok(packet)
    }

    /// What comes next arrives. It answers whether anything came.
    pub(crate) fn arrive(&mut self, arrivals: Arrivals) -> Result<bool, PairBad>
        requires within { limit_of arrivals ≤ 2 ^ 62 }
        requires paced { IsPacedFromStart self.old.net }
        ensures arrives { (pairing : Pairing) (which : Which) (side : SideOf) → IsSide pairing which self.old side → Arrives pairing which arrivals side self.new result }
        ensures goes { GoesOn self.old self.new }
        ensures left { OnErr result (self.new.net.journal ≡ self.old.net.journal) }
        ensures paced { OnOk result (IsPacedFromStart self.new.net) }
    {
        if !self.net.works() {
            return Err(PairBad::NoMemory);
        }
        self.net.laws();
        match arrive(&mut self.net, arrivals) {
            None => Ok(false),
            Some(Ok(_)) => Ok(true),
            Some(Err(Refused::TooManySteps)) => Err(PairBad::TooManySteps),
            Some(Err(_)) => Err(PairBad::NoMemory),
        }
    }
}
