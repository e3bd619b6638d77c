//! What a line asks for, step by step, each with what it hands on.
ghost use Rattle.std.specs.Prelude.{◌≡◌, ◌≢◌, ◌≤◌, ◌<◌, ◌+◌, ◌^◌, ℕ, List, [], true, false, None, length, IfOk, OnOk, OnErr};
ghost use Rattle.mn_join.specs.Prelude.{fits, damage_fits, damage_refusal, command_fits, injects, all, most_of, limit_of, Pairing, network, Both, side, with_plain_step, with_damage, refusal_on, handed_on, tried, stepped, deliver, played};
ghost use Rattle.mn_topo.specs.declared.steps.Step.TheVariants as step;
ghost use Rattle.mn_join.specs.Pairs.{PairStands, net_of};
ghost use Rattle.mn_join.specs.Plays.{is_played, Plays, IsOwnCause};
ghost use Rattle.mn_join.specs.Moves.{Tries, Crosses, ArrivesIn, Takes, PairGoesOn, StoodStill, Undone, sent, ended_by, as_played};
ghost use Rattle.mn_join.specs.declared.played.Played.TheVariants as outcome;

use crate::crossing::{Crossing, hand_over, opposite};
use crate::pair::Pair;
use crate::played::{PairBad, Played};
use mn_base::SiteNo;
use mn_course_laws::Arrivals;
use mn_join_laws::{Leg, Which};
use mn_ledger::Refused;
use mn_script::Command;
use mn_topo::{Damage, Step};

/// More hand-overs than one step can bring about: each entry lowers the packet's TTL.
const MOST_ENTRIES: u32 = 256;

/// How a line ends whose step is refused.
fn ended_by(why: Refused) -> Result<Played, PairBad>
    ensures { result ≡ ended_by why }
{
    match why {
        Refused::TooManySteps => Err(PairBad::TooManySteps),
        Refused::NoMemory => Err(PairBad::NoMemory),
        why => Ok(Played::Refused(why)),
    }
}

fn as_played(arrived: Result<(), PairBad>) -> Result<Played, PairBad>
    ensures { result ≡ as_played arrived }
{
    match arrived {
        Ok(()) => Ok(Played::All),
        Err(bad) => Err(bad),
    }
}

/// More items than a journal has room for.
fn all_items() -> u32
    ensures { result ≡ all }
{
    4_000_001
}

/// How many items arrive at most: none named is more than there may be.
fn most_of(most: Option<u32>) -> u32
    ensures { result ≡ most_of most }
{
    match most {
        Some(most) => most,
        None => all_items(),
    }
}

impl Pair {
    /// What a network has just delivered enters the other, or comes out. It answers whether a packet entered.
    fn cross(&mut self, which: Which) -> Result<bool, PairBad>
        requires few { length self.old.exits + 1 < 2 ^ 32 }
        ensures crosses { (pairing : Pairing) (both : Both) → PairStands pairing self.old both → Crosses pairing which both self.old self.new result }
        ensures goes { PairGoesOn self.old self.new }
        ensures left { OnErr result (StoodStill self.old self.new) }
        ensures one_more { length self.new.exits ≤ length self.old.exits + 1 }
        ensures entered { IfOk result (λ entered. entered ≡ true → self.new.exits ≡ self.old.exits) }
        ensures stopped { self.new.stopped ≡ self.old.stopped }
    {
        match which {
            Which::First => hand_over(
                self.alloc,
                which,
                &self.first,
                &mut self.second,
                &mut self.travels,
                &mut self.exits,
            ),
            Which::Second => hand_over(
                self.alloc,
                which,
                &self.second,
                &mut self.first,
                &mut self.travels,
                &mut self.exits,
            ),
        }
    }

    /// What a network has just delivered goes on, from one network into the other, until no packet enters.
    fn hand_on(&mut self, which: Which) -> Result<(), PairBad>
        requires few { length self.old.exits + 1 < 2 ^ 32 }
        ensures takes { (pairing : Pairing) (both : Both) → PairStands pairing self.old both → Takes pairing (handed_on pairing which both) self.old self.new result }
        ensures goes { PairGoesOn self.old self.new }
        ensures one_more { length self.new.exits ≤ length self.old.exits + 1 }
        ensures stopped { self.new.stopped ≡ self.old.stopped }
    {
        let mut which = which;
        for _entry in 0..MOST_ENTRIES {
            if !self.cross(which)? {
                return Ok(());
            }
            which = opposite(which);
        }
        Ok(())
    }

    /// Does a step that injects nothing.
    fn step(&mut self, which: Which, step: Step) -> Result<(), Refused>
        requires fits { fits (net_of self.old which).topology step ≡ true }
        requires plain { injects step ≡ false }
        ensures tries { (pairing : Pairing) (both : Both) → PairStands pairing self.old both →
            Tries pairing both (with_plain_step both which step) (refusal_on pairing both which step []) self.new result }
        ensures goes { PairGoesOn self.old self.new }
        ensures undone { Undone self.old self.new result }
        ensures left { OnErr result (StoodStill self.old self.new) }
        ensures exits { self.new.exits ≡ self.old.exits }
        ensures stopped { self.new.stopped ≡ self.old.stopped }
    {
        match which {
            Which::First => self.first.step(step),
            Which::Second => self.second.step(step),
        }
    }

    /// Ends a session by a damaged message, in whose place the packet came.
    fn damage(&mut self, which: Which, damage: Damage, packet: &[u8]) -> Result<(), Refused>
        requires { damage_fits (net_of self.old which).topology damage ≡ true }
        ensures tries { (pairing : Pairing) (both : Both) → PairStands pairing self.old both →
            Tries pairing both (with_damage both which damage)
            (damage_refusal (network pairing which) (side both which).past.entries (side both which).inputs damage packet.now) self.new result }
        ensures goes { PairGoesOn self.old self.new }
        ensures undone { Undone self.old self.new result }
        ensures left { OnErr result (StoodStill self.old self.new) }
        ensures exits { self.new.exits ≡ self.old.exits }
        ensures stopped { self.new.stopped ≡ self.old.stopped }
    {
        match which {
            Which::First => self.first.damage(damage, packet),
            Which::Second => self.second.damage(damage, packet),
        }
    }

    /// Sends a packet.
    fn send(&mut self, which: Which, site: SiteNo, number: u32, bytes: &[u8]) -> Result<(), Refused>
        requires fits { fits (net_of self.old which).topology (step.Inject site number) ≡ true }
        ensures tries { (pairing : Pairing) (both : Both) → PairStands pairing self.old both →
            Tries pairing both (sent both which site number bytes.now) (refusal_on pairing both which (step.Inject site number) bytes.now) self.new result }
        ensures goes { PairGoesOn self.old self.new }
        ensures undone { Undone self.old self.new result }
        ensures left { OnErr result (StoodStill self.old self.new) }
        ensures exits { self.new.exits ≡ self.old.exits }
        ensures stopped { self.new.stopped ≡ self.old.stopped }
    {
        let owner = self.travels.len() as u32;
        if owner == u32::MAX || self.travels.reserve(1).is_err() {
            return Err(Refused::NoMemory);
        }
        let Ok(mut legs) = Vec::with_capacity(self.alloc, 1) else {
            return Err(Refused::NoMemory);
        };
        let packet = match which {
            Which::First => self.first.enter(site, number, bytes, owner)?,
            Which::Second => self.second.enter(site, number, bytes, owner)?,
        };
        legs.push_reserved(Leg { which, packet });
        self.travels.push_reserved(Crossing {
            number,
            legs,
            refused: None,
        });
        Ok(())
    }

    /// Does a step, and hands on what it delivers.
    fn do_step(&mut self, which: Which, step: Step, packet: &[u8]) -> Result<Played, PairBad>
        requires fits { fits (net_of self.old which).topology step ≡ true }
        requires fresh { self.old.exits ≡ [] }
        ensures course { (pairing : Pairing) (both : Both) → PairStands pairing self.old both → Plays pairing (stepped pairing which both step packet.now) self.new result }
        ensures goes { PairGoesOn self.old self.new }
        ensures refused { IfOk result IsOwnCause }
        ensures kept { IfOk result (λ ended. ended ≢ outcome.All → self.new ≡ self.old) }
        ensures stopped { self.new.stopped ≡ self.old.stopped }
    {
        let done = match step {
            Step::Inject(site, number) => self.send(which, site, number, packet),
            _ => self.step(which, step),
        };
        match done {
            Ok(()) => as_played(self.hand_on(which)),
            Err(why) => ended_by(why),
        }
    }

    /// Ends a session by a damaged message, and hands on what the last step delivers.
    fn do_damage(&mut self, which: Which, damage: Damage, packet: &[u8]) -> Result<Played, PairBad>
        requires fits { damage_fits (net_of self.old which).topology damage ≡ true }
        requires fresh { self.old.exits ≡ [] }
        ensures course { (pairing : Pairing) (both : Both) → PairStands pairing self.old both →
            Plays pairing (tried pairing which both (with_damage both which damage)
            (damage_refusal (network pairing which) (side both which).past.entries (side both which).inputs damage packet.now)) self.new result }
        ensures goes { PairGoesOn self.old self.new }
        ensures refused { IfOk result IsOwnCause }
        ensures kept { IfOk result (λ ended. ended ≢ outcome.All → self.new ≡ self.old) }
        ensures stopped { self.new.stopped ≡ self.old.stopped }
    {
        if let Err(why) = self.damage(which, damage, packet) {
            return ended_by(why);
        }
        as_played(self.hand_on(which))
    }

    /// What comes next in a network arrives. It answers whether anything came.
    fn arrive(&mut self, which: Which, arrivals: Arrivals) -> Result<bool, PairBad>
        requires goes { self.old.stopped ≡ None }
        requires within { limit_of arrivals ≤ 2 ^ 62 }
        ensures arrives { (pairing : Pairing) (both : Both) → PairStands pairing self.old both → ArrivesIn pairing which arrivals both self.new result }
        ensures goes { PairGoesOn self.old self.new }
        ensures left { OnErr result (StoodStill self.old self.new) }
        ensures exits { self.new.exits ≡ self.old.exits }
        ensures stopped { OnOk result (self.new.stopped ≡ None) }
    {
        let arrived = match which {
            Which::First => self.first.arrive(arrivals),
            Which::Second => self.second.arrive(arrivals),
        };
        match arrived {
            Ok(came) => Ok(came),
            Err(bad) => {
                self.stopped = Some(bad);
                Err(bad)
            }
        }
    }

    /// At most so many items arrive in a network, one after another, each with what it hands on.
    fn deliver(&mut self, which: Which, arrivals: Arrivals, most: u32) -> Result<(), PairBad>
        requires goes { self.old.stopped ≡ None }
        requires fresh { self.old.exits ≡ [] }
        requires within { limit_of arrivals ≤ 2 ^ 62 }
        ensures takes { (pairing : Pairing) (both : Both) → PairStands pairing self.old both → Takes pairing (deliver pairing which arrivals most both) self.old self.new result }
        ensures goes { PairGoesOn self.old self.new }
        ensures stopped { OnOk result (self.new.stopped ≡ None) }
    {
        for _turn in 0..most {
            if !self.arrive(which, arrivals)? {
                return Ok(());
            }
            self.hand_on(which)?;
        }
        Ok(())
    }

    /// Does what a line asks for.
    pub(crate) fn line(
        &mut self,
        which: Which,
        command: &Command,
        packet: &[u8],
    ) -> Result<Played, PairBad>
        requires fits { command_fits (net_of self.old which).topology command.now ≡ true }
        requires plays { is_played command.now ≡ true }
        requires goes { self.old.stopped ≡ None }
        requires fresh { self.old.exits ≡ [] }
        ensures course { (pairing : Pairing) (both : Both) → PairStands pairing self.old both → Plays pairing (played pairing which both command.now packet.now) self.new result }
        ensures goes { PairGoesOn self.old self.new }
        ensures refused { IfOk result IsOwnCause }
        ensures kept { IfOk result (λ ended. ended ≢ outcome.All → self.new ≡ self.old) }
        ensures stopped { OnOk result (self.new.stopped ≡ None) }
    {
        match *command {
            Command::Do(step) => self.do_step(which, step, packet),
            Command::Damage(damage) => self.do_damage(which, damage, packet),
            Command::Drain(most) => as_played(self.deliver(which, Arrivals::News, most_of(most))),
            Command::Flush => as_played(self.deliver(which, Arrivals::AllFrames, all_items())),
            Command::Run(_) | Command::Show(_) => unreachable!(),
        }
    }
}
