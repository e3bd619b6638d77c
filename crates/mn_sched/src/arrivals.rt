ghost use Rattle.std.specs.Prelude.{◌≡◌, ◌≤◌, ◌+◌, ◌^◌, max, ℕ, List, true, false, IfSome, OnOk, OnErr, Some, None};
ghost use Rattle.std.specs.Option.{ForSome};
ghost use Rattle.mn_sched.specs.Prelude.{injects, fits, earlier, delivery, next_arrival, ever, as_due, deliver, ends, one_by_one, is_journal_full, IsOpen, StandsFor};
ghost use Rattle.mn_course_laws.specs.declared.coming.Ending.TheVariants as ending;
ghost use Rattle.mn_sched.specs.Watching.{Together};
ghost use Rattle.mn_sched.specs.Playing.{past_of, IsDelivery, Arrives, After, Caused, GoesTo, IsGone, IsFirstPart, IsOneLonger, IsPaced, limit_of};
ghost use Rattle.mn_sched.specs.Arriving.{ArrivesNext};
ghost use Rattle.mn_net.specs.Prelude.{HasRoom};

use mn_course_laws::{Arrivals, Coming, Kind};
use mn_ledger::Refused;
use mn_net::{Done, Net};
use mn_topo::Step;

/// A tick that the clock doesn't reach.
const EVER: u64 = 1 << 62;

/// The earlier of two.
fn earlier(one: Option<Coming>, other: Option<Coming>) -> Option<Coming>
    ensures { result ≡ earlier one other }
{
    match (one, other) {
        (None, other) => other,
        (Some(one), None) => Some(one),
        (Some(one), Some(other)) => {
            if other.due < one.due || (other.due == one.due && other.number < one.number) {
                Some(other)
            } else {
                Some(one)
            }
        }
    }
}

/// The step that is done as the item comes: a frame that is lost doesn't arrive.
pub(crate) fn delivery(item: Coming) -> Step
    ensures { result ≡ delivery item }
{
    match item.step {
        Step::Carry(link, dir, place) if item.lossy => Step::Lose(link, dir, place),
        step => step,
    }
}

/// What arrives next.
pub(crate) fn next_arrival(net: &Net, arrivals: Arrivals) -> Option<Coming>
    ensures value { (inputs : List (List ℕ)) → StandsFor net.now inputs → result ≡ next_arrival net.now.topology net.now.journal inputs arrivals }
    ensures within { IfSome result (λ item. item.due ≤ limit_of arrivals) }
    ensures soon { IfSome result (λ item. item.due ≤ net.now.tick + 1000) }
    ensures first { IfSome result (λ item. GoesTo arrivals net.now item.due) }
    ensures gone { result ≡ None → IsGone arrivals net.now }
    ensures fits { IfSome result (λ item. IsDelivery net.now.topology (delivery item)) }
    ensures opens { (inputs : List (List ℕ)) → StandsFor net.now inputs → IfSome result (λ item. IsOpen net.now.topology net.now.journal inputs (delivery item)) }
{
    match arrivals {
        Arrivals::DueBy(end) => {
            let message_or_frame = earlier(
                net.coming(Kind::Message, end),
                net.coming(Kind::Frame, end),
            );
            earlier(net.coming(Kind::Notice, end), message_or_frame)
        }
        Arrivals::News => match net.coming(Kind::Notice, EVER) {
            Some(item) => Some(item),
            None => net.coming(Kind::Message, EVER),
        },
        Arrivals::AllFrames => net.coming(Kind::Frame, EVER),
    }
}

/// The clock goes on to the tick at which an item is due, and never back; by `drain` it stands still.
pub(crate) fn set_clock(net: &mut Net, arrivals: Arrivals, due: u64)
    requires early { net.old.tick ≤ 2 ^ 62 }
    requires within { due ≤ 2 ^ 62 }
    requires first { GoesTo arrivals net.old due }
    ensures past { past_of net.new ≡ as_due arrivals due (past_of net.old) }
    ensures topology { net.new.topology ≡ net.old.topology }
    ensures early { net.new.tick ≤ 2 ^ 62 }
    ensures clock { net.new.tick ≤ max net.old.tick due }
    ensures stands { (inputs : List (List ℕ)) → StandsFor net.old inputs → StandsFor net.new inputs }
    ensures room { (more : ℕ) → HasRoom net.old more → HasRoom net.new more }
{
    if let Arrivals::News = arrivals {
        return;
    }
    net.advance(net.tick().max(due));
}

/// What comes next by a line arrives, if anything comes: its step is done with the clock set on. A full journal stops it, and
/// out of memory; nothing else does.
pub fn arrive(net: &mut Net, arrivals: Arrivals) -> Option<Result<Done, Refused>>
    requires early { net.old.tick ≤ 2 ^ 62 }
    requires within { limit_of arrivals ≤ 2 ^ 62 }
    ensures arrives { (inputs : List (List ℕ)) → StandsFor net.old inputs → ArrivesNext net.old net.new inputs arrivals result }
    ensures nothing { result ≡ None → net.new ≡ net.old }
    ensures topology { net.new.topology ≡ net.old.topology }
    ensures left { IfSome result (λ stepped. OnErr stepped (net.new.journal ≡ net.old.journal)) }
    ensures grown { IsFirstPart net.old.journal net.new.journal }
    ensures longer { IfSome result (λ stepped. OnOk stepped (IsOneLonger net.old net.new)) }
    ensures clock { IfSome result (λ stepped. OnOk stepped (IsPaced 0 net.old net.new)) }
{
    let Some(item) = next_arrival(net, arrivals) else {
        return None;
    };
    set_clock(net, arrivals, item.due);
    Some(net.step(delivery(item), &[]))
}
