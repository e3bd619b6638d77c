ghost use Rattle.std.specs.Prelude.{◌≡◌, ◌≢◌, ◌≤◌, ◌<◌, ◌+◌, ◌^◌, ℕ, List, [], true, false, None, Some, IfOk, IfErr, OnOk, OnErr};
ghost use Rattle.std.specs.Option.{ForSome};
ghost use Rattle.mn_sched.specs.Prelude.{damage_fits, command_fits, delivery, next_arrival, ends, one_by_one, is_journal_full, deliver, played, stepped, all, most_of, inputs_of, IsOpen, StandsFor};
ghost use Rattle.mn_ledger.specs.Prelude.{injects, fits, flight_of, SiteNo};
ghost use Rattle.mn_course_laws.specs.declared.coming.Ending.TheVariants as ending;
ghost use Rattle.mn_sched.specs.Draining.{DrainsBy};
ghost use Rattle.mn_sched.specs.Watching.{Together, Stood, MadeLast, LastFits};
ghost use Rattle.mn_sched.specs.declared.line.Stopped.TheVariants as stopped;
ghost use Rattle.mn_net.specs.Prelude.{HasRoom, is_of_frames};
ghost use Rattle.mn_net.specs.Tables.{count_of};

use crate::arrivals::{delivery, next_arrival, set_clock};
use crate::watch::{Watch, WatchBad};
use mn_course_laws::{Arrivals, Coming, Kind};
use mn_entry::number_of;
use mn_ledger::Refused;
use mn_net::{Done, Net};
use mn_script::Command;
use mn_topo::{Damage, Step};

/// What became of a line.
#[derive(Clone, Copy, Debug, PartialEq, Eq)]
pub enum Played {
    /// All that it asks for was done.
    All,
    /// Its step was refused: never for a full journal, nor because memory ran out.
    Refused(Refused),
    /// It names a record that the capture hasn't: of a packet to inject, or to come in place of a message.
    NoRecord,
}

/// Why playing stopped.
#[derive(Clone, Copy, Debug, PartialEq, Eq)]
pub enum Stopped {
    /// A step that nothing else refuses met a full journal.
    TooManySteps,
    /// A fetch of a record failed.
    Read,
    /// What is to be kept of a step could not be written.
    Write,
    /// Memory ran out.
    NoMemory,
}

ghost use Rattle.mn_sched.specs.Playing.{past_of, IsDelivery, IsFirstPart, Takes, Arrives, After, Caused, Finished, limit_of, stopped_by, arrived_by, as_played, IsPaced, IsOneLonger, GoesTo, IsGone, names_no_record, MissingIff, is_show, looks_at_none, GoesOnFor, IsOwnCause};

fn stopped_by(bad: WatchBad) -> Stopped
    ensures { result ≡ stopped_by bad }
{
    match bad {
        WatchBad::Read => Stopped::Read,
        WatchBad::Write => Stopped::Write,
        WatchBad::NoMemory => Stopped::NoMemory,
    }
}

/// What an item's step came to. Nothing refuses it but a full journal.
fn arrived_by(played: Result<Played, Stopped>) -> Result<(), Stopped>
    ensures { result ≡ arrived_by played }
{
    match played {
        Ok(Played::All) => Ok(()),
        Ok(_) => Err(Stopped::TooManySteps),
        Err(stopped) => Err(stopped),
    }
}

/// Tells the watch of a step that was done.
fn finish<W: Watch>(
    net: &Net,
    stepped: Result<Done, Refused>,
    watch: &mut W,
) -> Result<Played, Stopped>
    requires stood { OnOk stepped (Stood net.now (W.packets watch.old) (W.stands watch.old)) }
    requires made { IfOk stepped (λ made. MadeLast net.now (W.packets watch.old) made) }
    requires fitting { OnOk stepped (LastFits net.now) }
    ensures ended { Finished stepped result }
    ensures after { OnOk stepped (After net.now (W.packets watch.old) (W.stands watch.new) (W.begins watch.new) result) }
    ensures untouched { OnErr stepped (watch.new ≡ watch.old) }
    ensures records { W.records watch.new ≡ W.records watch.old }
    ensures packets { W.packets watch.new ≡ W.packets watch.old }
    ensures goes_on { W.goes_on watch.old watch.new }
    ensures cause { Caused (W.packets watch.old ≡ None)
        (W.reads watch.old, W.writes watch.old) (W.reads watch.new, W.writes watch.new) result }
{
    match stepped {
        Ok(made) => match watch.done(net, made) {
            Ok(()) => Ok(Played::All),
            Err(bad) => Err(stopped_by(bad)),
        },
        Err(Refused::TooManySteps) => Err(Stopped::TooManySteps),
        Err(Refused::NoMemory) => Err(Stopped::NoMemory),
        Err(why) => Ok(Played::Refused(why)),
    }
}

/// An item arrives, and the watch is told.
fn deliver_one<W: Watch>(
    net: &mut Net,
    arrivals: Arrivals,
    item: Coming,
    watch: &mut W,
) -> Result<(), Stopped>
    requires early { net.old.tick ≤ 2 ^ 62 }
    requires within { item.due ≤ 2 ^ 62 }
    requires soon { item.due ≤ net.old.tick + 1000 }
    requires first { GoesTo arrivals net.old item.due }
    requires fits { IsDelivery net.old.topology (delivery item) }
    requires opens { (inputs : List (List ℕ)) → StandsFor net.old inputs → IsOpen net.old.topology net.old.journal inputs (delivery item) }
    requires together { Together net.old (W.packets watch.old) (W.stands watch.old) }
    // Over any capture with whose packets the network stands for the ledger.
    ensures course { (capture : List (List ℕ)) → StandsFor net.old (inputs_of capture net.old.journal) → Arrives (one_by_one arrivals (ends ending.All) (past_of net.old) (is_journal_full (past_of net.old)) (Some item)) net.new result }
    ensures standing { OnOk result (GoesOnFor net.old net.new) }
    ensures after { After net.new (W.packets watch.old) (W.stands watch.new) (W.begins watch.new) result }
    ensures longer { OnOk result (IsOneLonger net.old net.new) }
    ensures topology { net.new.topology ≡ net.old.topology }
    ensures early { net.new.tick ≤ 2 ^ 62 }
    ensures grown { IsFirstPart net.old.journal net.new.journal }
    ensures clock { OnOk result (IsPaced 0 net.old net.new) }
    ensures records { W.records watch.new ≡ W.records watch.old }
    ensures packets { W.packets watch.new ≡ W.packets watch.old }
    ensures goes_on { W.goes_on watch.old watch.new }
    ensures cause { Caused (W.packets watch.old ≡ None)
        (W.reads watch.old, W.writes watch.old) (W.reads watch.new, W.writes watch.new) result }
    ensures room { is_of_frames (delivery item) ≡ true → (more : ℕ) → HasRoom net.old (more + 1) → HasRoom net.new more }
{
    set_clock(net, arrivals, item.due);
    let step = delivery(item);
    let stepped = net.step(step, &[]);
    let played = finish(net, stepped, watch);
    arrived_by(played)
}

/// How many steps of this round are left. Where none is a new one begins: by `flush` there is memory for as many steps as frames fly.
/// Other lines make room step by step.
fn keep_room(net: &mut Net, arrivals: Arrivals, left: u32) -> Result<u32, Stopped>
    ensures past { past_of net.new ≡ past_of net.old }
    ensures topology { net.new.topology ≡ net.old.topology }
    ensures stands { (inputs : List (List ℕ)) → StandsFor net.old inputs → StandsFor net.new inputs }
    ensures memory { IfErr result (λ why. why ≡ stopped.NoMemory) }
    // By `flush` there is memory for this step and what is left where a frame flies.
    ensures room { arrivals ≡ Arrivals.AllFrames → (0 < left → HasRoom net.old left) → (inputs : List (List ℕ)) → StandsFor net.old inputs →
        0 < count_of Kind.Frame (flight_of net.old.topology net.old.journal inputs).items → IfOk result (λ rest. HasRoom net.new (rest + 1)) }
{
    if left > 0 {
        return Ok(left - 1);
    }
    let Arrivals::AllFrames = arrivals else {
        return Ok(0);
    };
    if !net.works() {
        return Ok(0);
    }
    let steps = net.pending(Kind::Frame).min(u64::from(all_items())) as u32;
    match net.reserve(steps) {
        Ok(()) => Ok(steps.saturating_sub(1)),
        Err(_) => Err(Stopped::NoMemory),
    }
}

/// At most so many items arrive, one after another.
fn deliver<W: Watch>(
    net: &mut Net,
    arrivals: Arrivals,
    most: u32,
    watch: &mut W,
) -> Result<(), Stopped>
    requires early { net.old.tick ≤ 2 ^ 62 }
    requires within { limit_of arrivals ≤ 2 ^ 62 }
    requires together { Together net.old (W.packets watch.old) (W.stands watch.old) }
    // Over any capture with whose packets the network stands for the ledger.
    ensures course { (capture : List (List ℕ)) → StandsFor net.old (inputs_of capture net.old.journal) → Arrives (deliver net.old.topology capture arrivals most (past_of net.old)) net.new result }
    ensures standing { OnOk result (GoesOnFor net.old net.new) }
    ensures after { After net.new (W.packets watch.old) (W.stands watch.new) (W.begins watch.new) result }
    // Where it may take more turns than a journal has steps, nothing is left that was to arrive.
    ensures gone { OnOk result (4000000 < most → IsGone arrivals net.new) }
    ensures topology { net.new.topology ≡ net.old.topology }
    ensures early { net.new.tick ≤ 2 ^ 62 }
    ensures grown { IsFirstPart net.old.journal net.new.journal }
    ensures clock { OnOk result (IsPaced 0 net.old net.new) }
    ensures records { W.records watch.new ≡ W.records watch.old }
    ensures packets { W.packets watch.new ≡ W.packets watch.old }
    ensures goes_on { W.goes_on watch.old watch.new }
    ensures cause { Caused (W.packets watch.old ≡ None)
        (W.reads watch.old, W.writes watch.old) (W.reads watch.new, W.writes watch.new) result }
    // By `flush` no step runs out of memory: it is made room for before, so it is making room that does, or the watch.
    ensures works { arrivals ≡ Arrivals.AllFrames → (capture : List (List ℕ)) → StandsFor net.old (inputs_of capture net.old.journal) → net.new.failed ≡ false }
{
    let mut left = 0;
    for turn in 0..most {
        left = keep_room(net, arrivals, left)?;
        let Some(item) = next_arrival(net, arrivals) else {
            return Ok(());
        };
        deliver_one(net, arrivals, item, watch)?;
    }
    Ok(())
}

fn as_played(arrived: Result<(), Stopped>) -> Result<Played, Stopped>
    ensures { result ≡ as_played arrived }
{
    arrived?;
    Ok(Played::All)
}

/// More items than a journal has room for.
fn all_items() -> u32
    ensures { result ≡ all }
{
    4_000_001
}

/// How many items arrive at most: none named is more than there may be.
fn most_of(most: Option<u32>) -> u32
    ensures { result ≡ most_of most }
{
    match most {
        Some(most) => most,
        None => all_items(),
    }
}

/// Does a step that injects the packet of a record.
fn inject<W: Watch>(
    net: &mut Net,
    step: Step,
    number: u32,
    watch: &mut W,
) -> Result<Played, Stopped>
    requires fits { fits net.old.topology step ≡ true }
    requires injects { (s : SiteNo) × (step ≡ Step.Inject s number) }
    requires together { Together net.old (W.packets watch.old) (W.stands watch.old) }
    ensures course { ForSome (W.packets watch.old) (λ capture. Takes (stepped net.old.topology capture (past_of net.old) step) net.new result) }
    ensures after { After net.new (W.packets watch.old) (W.stands watch.new) (W.begins watch.new) result }
    ensures missing { MissingIff (names_no_record (W.records watch.old) (Command.Do step)) result }
    ensures topology { net.new.topology ≡ net.old.topology }
    ensures kept { IfOk result (λ played. played ≢ Played.All → net.new ≡ net.old) }
    ensures refused { IfOk result IsOwnCause }
    ensures grown { IsFirstPart net.old.journal net.new.journal }
    ensures clock { OnOk result (IsPaced 1000000 net.old net.new) }
    ensures records { W.records watch.new ≡ W.records watch.old }
    ensures packets { W.packets watch.new ≡ W.packets watch.old }
    ensures goes_on { W.goes_on watch.old watch.new }
    ensures cause { Caused (W.packets watch.old ≡ None)
        (W.reads watch.old, W.writes watch.old) (W.reads watch.new, W.writes watch.new) result }
{
    let stepped = match watch.packet(number) {
        Ok(Some(bytes)) => net.step(step, bytes),
        Ok(None) => return Ok(Played::NoRecord),
        Err(bad) => return Err(stopped_by(bad)),
    };
    finish(net, stepped, watch)
}

/// Does a step that injects nothing.
fn step_plainly<W: Watch>(net: &mut Net, step: Step, watch: &mut W) -> Result<Played, Stopped>
    requires fits { fits net.old.topology step ≡ true }
    requires plain { injects step ≡ false }
    requires together { Together net.old (W.packets watch.old) (W.stands watch.old) }
    // Over any capture with whose packets the network stands for the ledger.
    ensures course { (capture : List (List ℕ)) → StandsFor net.old (inputs_of capture net.old.journal) → Takes (stepped net.old.topology capture (past_of net.old) step) net.new result }
    ensures standing { OnOk result (GoesOnFor net.old net.new) }
    ensures after { After net.new (W.packets watch.old) (W.stands watch.new) (W.begins watch.new) result }
    ensures missing { MissingIff (names_no_record (W.records watch.old) (Command.Do step)) result }
    ensures topology { net.new.topology ≡ net.old.topology }
    ensures kept { IfOk result (λ played. played ≢ Played.All → net.new ≡ net.old) }
    ensures refused { IfOk result IsOwnCause }
    ensures grown { IsFirstPart net.old.journal net.new.journal }
    ensures clock { OnOk result (IsPaced 1000000 net.old net.new) }
    ensures records { W.records watch.new ≡ W.records watch.old }
    ensures packets { W.packets watch.new ≡ W.packets watch.old }
    ensures goes_on { W.goes_on watch.old watch.new }
    ensures cause { Caused (W.packets watch.old ≡ None)
        (W.reads watch.old, W.writes watch.old) (W.reads watch.new, W.writes watch.new) result }
{
    let stepped = net.step(step, &[]);
    finish(net, stepped, watch)
}

/// Ends a session by a damaged message: the packet of a record comes in the message's place.
fn damage<W: Watch>(net: &mut Net, damage: Damage, watch: &mut W) -> Result<Played, Stopped>
    requires fits { damage_fits net.old.topology damage ≡ true }
    requires together { Together net.old (W.packets watch.old) (W.stands watch.old) }
    ensures course { ForSome (W.packets watch.old) (λ capture. Takes (played net.old.topology capture (past_of net.old) (Command.Damage damage)) net.new result) }
    ensures after { After net.new (W.packets watch.old) (W.stands watch.new) (W.begins watch.new) result }
    ensures missing { MissingIff (names_no_record (W.records watch.old) (Command.Damage damage)) result }
    ensures topology { net.new.topology ≡ net.old.topology }
    ensures kept { IfOk result (λ played. played ≢ Played.All → net.new ≡ net.old) }
    ensures refused { IfOk result IsOwnCause }
    ensures grown { IsFirstPart net.old.journal net.new.journal }
    ensures clock { OnOk result (IsPaced 1000000 net.old net.new) }
    ensures records { W.records watch.new ≡ W.records watch.old }
    ensures packets { W.packets watch.new ≡ W.packets watch.old }
    ensures goes_on { W.goes_on watch.old watch.new }
    ensures cause { Caused (W.packets watch.old ≡ None)
        (W.reads watch.old, W.writes watch.old) (W.reads watch.new, W.writes watch.new) result }
{
    let stepped = match watch.packet(number_of(&damage)) {
        Ok(Some(bytes)) => net.damage(damage, bytes),
        Ok(None) => return Ok(Played::NoRecord),
        Err(bad) => return Err(stopped_by(bad)),
    };
    finish(net, stepped, watch)
}

/// Ticks pass, and what is due in them arrives.
fn pass_ticks<W: Watch>(net: &mut Net, ticks: u32, watch: &mut W) -> Result<Played, Stopped>
    requires few { ticks ≤ 1000000 }
    requires early { net.old.tick ≤ 2 ^ 61 }
    requires together { Together net.old (W.packets watch.old) (W.stands watch.old) }
    // Over any capture with whose packets the network stands for the ledger.
    ensures course { (capture : List (List ℕ)) → StandsFor net.old (inputs_of capture net.old.journal) → Takes (played net.old.topology capture (past_of net.old) (Command.Run ticks)) net.new result }
    ensures standing { OnOk result (GoesOnFor net.old net.new) }
    ensures after { After net.new (W.packets watch.old) (W.stands watch.new) (W.begins watch.new) result }
    ensures missing { MissingIff false result }
    ensures topology { net.new.topology ≡ net.old.topology }
    ensures kept { IfOk result (λ played. played ≢ Played.All → net.new ≡ net.old) }
    ensures refused { IfOk result IsOwnCause }
    ensures grown { IsFirstPart net.old.journal net.new.journal }
    ensures clock { OnOk result (IsPaced 1000000 net.old net.new) }
    ensures records { W.records watch.new ≡ W.records watch.old }
    ensures packets { W.packets watch.new ≡ W.packets watch.old }
    ensures goes_on { W.goes_on watch.old watch.new }
    ensures cause { Caused (W.packets watch.old ≡ None)
        (W.reads watch.old, W.writes watch.old) (W.reads watch.new, W.writes watch.new) result }
{
    let end = net.tick() + u64::from(ticks);
    deliver(net, Arrivals::DueBy(end), all_items(), watch)?;
    net.advance(net.tick().max(end));
    Ok(Played::All)
}

/// Notices are learned, and once none is in flight messages are received: so many in all, or until none is in flight.
fn drain<W: Watch>(net: &mut Net, most: Option<u32>, watch: &mut W) -> Result<Played, Stopped>
    requires early { net.old.tick ≤ 2 ^ 61 }
    requires together { Together net.old (W.packets watch.old) (W.stands watch.old) }
    // Over any capture with whose packets the network stands for the ledger.
    ensures course { (capture : List (List ℕ)) → StandsFor net.old (inputs_of capture net.old.journal) → Takes (played net.old.topology capture (past_of net.old) (Command.Drain most)) net.new result }
    ensures standing { OnOk result (GoesOnFor net.old net.new) }
    ensures drained { ForSome (W.packets watch.old) (λ capture. DrainsBy (Command.Drain most) capture net.old net.new result) }
    ensures after { After net.new (W.packets watch.old) (W.stands watch.new) (W.begins watch.new) result }
    ensures missing { MissingIff false result }
    ensures topology { net.new.topology ≡ net.old.topology }
    ensures kept { IfOk result (λ played. played ≢ Played.All → net.new ≡ net.old) }
    ensures refused { IfOk result IsOwnCause }
    ensures grown { IsFirstPart net.old.journal net.new.journal }
    ensures clock { OnOk result (IsPaced 1000000 net.old net.new) }
    ensures records { W.records watch.new ≡ W.records watch.old }
    ensures packets { W.packets watch.new ≡ W.packets watch.old }
    ensures goes_on { W.goes_on watch.old watch.new }
    ensures cause { Caused (W.packets watch.old ≡ None)
        (W.reads watch.old, W.writes watch.old) (W.reads watch.new, W.writes watch.new) result }
{
    net.laws();
    net.topology().laws();
    as_played(deliver(net, Arrivals::News, most_of(most), watch))
}

/// Does what a line of a script asks for, and tells the watch of each step.
pub fn play<W: Watch>(net: &mut Net, command: &Command, watch: &mut W) -> Result<Played, Stopped>
    requires fits { command_fits net.old.topology command.now ≡ true }
    requires shows { is_show command.now ≡ false }
    requires early { net.old.tick ≤ 2 ^ 61 }
    requires together { Together net.old (W.packets watch.old) (W.stands watch.old) }
    // Where the watch tells its packets, the journal grows by exactly what the line's course says, or by a first part of it.
    ensures course { ForSome (W.packets watch.old) (λ capture. Takes (played net.old.topology capture (past_of net.old) command.now) net.new result) }
    // For every watch: a line that looks at no record takes its course over any capture with whose packets the network stands for the ledger,
    // and, unless it is stopped, the network stands for these still.
    ensures plain { looks_at_none command.now ≡ true → (capture : List (List ℕ)) → StandsFor net.old (inputs_of capture net.old.journal) →
        Takes (played net.old.topology capture (past_of net.old) command.now) net.new result }
    ensures standing { looks_at_none command.now ≡ true → OnOk result (GoesOnFor net.old net.new) }
    // Where it tells them, `drain` without a number takes no more steps than its bound, leaves no notice and no message in flight, and settles
    // the network where LDP is switched on for each link that is up and BGP between all edges.
    ensures drained { ForSome (W.packets watch.old) (λ capture. DrainsBy command.now capture net.old net.new result) }
    // And there net and watch stand together afterwards; after a fault, or running out of memory, the watch begins the journal.
    ensures after { After net.new (W.packets watch.old) (W.stands watch.new) (W.begins watch.new) result }
    // For every watch: that there is no such record is answered exactly there, but for faults and out of memory.
    ensures missing { MissingIff (names_no_record (W.records watch.old) command.now) result }
    // By `flush` no step runs out of memory: making room for it does, or the watch. So the network works on.
    ensures works { command.now ≡ Command.Flush → (capture : List (List ℕ)) → StandsFor net.old (inputs_of capture net.old.journal) → net.new.failed ≡ false }
    ensures topology { net.new.topology ≡ net.old.topology }
    // A line that isn't done leaves the network as it was, and is refused neither for a full journal nor because memory ran out.
    ensures kept { IfOk result (λ played. played ≢ Played.All → net.new ≡ net.old) }
    ensures refused { IfOk result IsOwnCause }
    // The journal before it begins the journal afterwards, also where playing stops.
    ensures grown { IsFirstPart net.old.journal net.new.journal }
    ensures clock { OnOk result (IsPaced 1000000 net.old net.new) }
    ensures records { W.records watch.new ≡ W.records watch.old }
    ensures packets { W.packets watch.new ≡ W.packets watch.old }
    ensures goes_on { W.goes_on watch.old watch.new }
    ensures cause { Caused (W.packets watch.old ≡ None)
        (W.reads watch.old, W.writes watch.old) (W.reads watch.new, W.writes watch.new) result }
{
    match *command {
        Command::Do(step) => match step {
            Step::Inject(_, number) => inject(net, step, number, watch),
            _ => step_plainly(net, step, watch),
        },
        Command::Damage(message) => damage(net, message, watch),
        Command::Run(ticks) => pass_ticks(net, ticks, watch),
        Command::Drain(most) => drain(net, most, watch),
        Command::Flush => as_played(deliver(net, Arrivals::AllFrames, all_items(), watch)),
        Command::Show(_) => Ok(Played::All),
    }
}
