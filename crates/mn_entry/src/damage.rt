//! The steps and the mark of a damage, and the damage of an entry.
ghost use Rattle.std.specs.Prelude.{◌≡◌};
ghost use Rattle.mn_topo.specs.declared.steps.Step.TheVariants.{BgpDown};
ghost use Rattle.mn_entry.specs.Damages.{lesser, greater, hearing, ending, number_of, mark_of, damage_in};

use mn_base::NodeNo;
use mn_topo::{Damage, Damaged, JournalEntry, Step};
use mn_wiring::Dir;

/// The step by which the message would have been received.
pub fn hearing(damage: &Damage) -> Step
    ensures { result ≡ hearing damage.now }
{
    match *damage {
        Damage::Ldp(link, dir, _) => Step::HearLdp(link, dir),
        Damage::Bgp(a, b, _) => Step::HearBgp(a, b),
    }
}

/// The end of the session of two edges, the lesser number first.
fn down(a: NodeNo, b: NodeNo) -> Step
    ensures { result ≡ BgpDown (lesser a b) (greater a b) }
{
    if a.0 < b.0 {
        Step::BgpDown(a, b)
    } else {
        Step::BgpDown(b, a)
    }
}

/// The step that the damage also is: it switches LDP off on the link (RFC 5036, section 3.5.1.2), or ends the session of the two
/// edges (RFC 4271, section 6).
pub fn ending(damage: &Damage) -> Step
    ensures { result ≡ ending damage.now }
{
    match *damage {
        Damage::Ldp(link, _, _) => Step::LdpAdmin(link, false),
        Damage::Bgp(a, b, _) => down(a, b),
    }
}

/// The record of the capture whose packet came in the message's place, numbered from 1.
pub fn number_of(damage: &Damage) -> u32
    ensures { result ≡ number_of damage.now }
{
    match *damage {
        Damage::Ldp(_, _, number) | Damage::Bgp(_, _, number) => number,
    }
}

/// What the damage's entry has beside that step: the number of the record, from 1, and from which end the message came.
pub fn mark(damage: &Damage) -> Damaged
    ensures { result ≡ mark_of damage.now }
{
    match *damage {
        Damage::Ldp(_, Dir::Forth, number) => Damaged::Forth(number),
        Damage::Ldp(_, Dir::Back, number) => Damaged::Back(number),
        Damage::Bgp(a, b, number) if a.0 < b.0 => Damaged::Forth(number),
        Damage::Bgp(_, _, number) => Damaged::Back(number),
    }
}

/// The damage that an entry tells by its step and its mark, none where no damaged message made it.
pub fn damage_of(entry: &JournalEntry) -> Option<Damage>
    ensures { result ≡ damage_in entry.now }
{
    match (entry.step, entry.damaged) {
        (Step::LdpAdmin(link, false), Damaged::Forth(number)) => {
            Some(Damage::Ldp(link, Dir::Forth, number))
        }
        (Step::LdpAdmin(link, false), Damaged::Back(number)) => {
            Some(Damage::Ldp(link, Dir::Back, number))
        }
        (Step::BgpDown(a, b), Damaged::Forth(number)) => Some(Damage::Bgp(a, b, number)),
        (Step::BgpDown(a, b), Damaged::Back(number)) => Some(Damage::Bgp(b, a, number)),
        _ => None,
    }
}
