ghost use Rattle.std.specs.Prelude.{ℕ, ◌≡◌, ◌≤◌, ◌<◌, ◌+◌, ◌&&◌, ◌++◌, not, cond, true, false, [], ◌∷◌, None, length, map, vec_len, vec_capacity, filter, replicate, slice_index_or, IfOk, OnOk, OnErr, ◌↔◌, nat_lt};
ghost use Rattle.std.specs.List.{All, flat_map, range_with_len};
ghost use Rattle.mn_releases.specs.Rests.{Resting, row_of, count_in};
ghost use Rattle.mn_bindings.specs.Bindings.{nodes, usable, offers, after_events, EventFits, EventsFit};
ghost use Rattle.mn_bindings.specs.Tells.{tells};
ghost use Rattle.mn_bindings.specs.Aside.{is_aside};
ghost use Rattle.mn_bindings.specs.News.{begun, begun_since, ended_since, AreOfOffered};
ghost use Rattle.mn_bindings.specs.Known.{nothing_known, rested_event, rested_events, owed_by, owed_for, all_stopped, known_after, AreFew, is_free, opened_in, RestFits};

use crate::bindings::Bound;
use crate::event::{LibEvent, Tell, TellKind};
use crate::news::SoFar;
use mn_base::NodeNo;
use mn_releases::{Rests, Row};
use std::alloc::{AllocError, Global};
use std::marker::Model;

/// What a change asks for.
#[derive(Drop)]
pub struct Changed {
    /// What must be sent, in order.
    pub tells: Vec<Tell>,
    /// The FECs that the node offers newly, in node order.
    pub begun: Vec<NodeNo>,
}

/// The bindings that a node has received and sent, and since when its FECs are at rest.
///
/// Contracts see, by neighbour, what it last advertised for each FEC and how many Releases it owes, by FEC the next hop, and since when the
/// FEC rests.
#[derive(Drop)]
pub struct Lib {
    alloc: Global,
    bound: Bound,
    rests: Rests,
}

impl Model for Lib {
    ghost use Rattle.mn_bindings.specs.Known.{Known};

    ghost Value = { Known };

    ghost use Rattle.mn_bindings.specs.Kept.{StandBeside};

    ghost view = { λ lib. record { bindings = lib.bound; resting = lib.rests } };

    ghost invariant = { StandBeside };
}

impl Lib {
    /// What a node knows at the start, in a network of at most 256 nodes, where a frame is on a link of the node for at most `life`
    /// ticks: no neighbour is open, no FEC has a next hop, and all rest since tick 0.
    pub fn new(alloc: Global, me: NodeNo, nodes: u32, life: u32) -> Result<Lib, AllocError>
        requires few { nodes ≤ 256 }
        requires me { me.0 < nodes }
        ensures { IfOk result (λ lib. lib ≡ nothing_known me nodes life) }
    {
        let bound = Bound::new(alloc, me, nodes)?;
        let rests = Rests::new(alloc, nodes, life)?;
        Ok(Lib {
            alloc,
            bound,
            rests,
        })
    }

    /// The next hop towards a FEC and its label, where that neighbour is open and the last that it advertised for the FEC
    /// is a Mapping. It takes no memory.
    pub fn usable(&self, fec: NodeNo) -> Option<(NodeNo, u32)>
        requires { fec.0 < nodes self.now.bindings }
        ensures { result ≡ usable self.now.bindings fec.0 }
    {
        self.bound.usable(fec)
    }

    /// The next hop towards a FEC.
    pub fn hop(&self, fec: NodeNo) -> Option<NodeNo>
        requires { fec.0 < nodes self.now.bindings }
        ensures { result ≡ slice_index_or self.now.bindings.hops fec.0 None }
    {
        self.bound.hop(fec)
    }

    /// Whether the FEC's label may be given to another at this tick: the node doesn't offer it, no neighbour owes a Release of it, and
    /// no frame that was sent to the node before it came to rest flies any more.
    pub fn is_free(&self, fec: NodeNo, tick: u64) -> bool
        requires { fec.0 < nodes self.now.bindings }
        ensures { result ≡ is_free self.now tick fec.0 }
    {
        self.rests.has_rested(fec, tick) && !self.bound.offers(fec) && self.rests.is_owed_none(fec)
    }

    /// Whether some FEC may be free at this tick. It looks at no FEC.
    pub fn may_be_free(&self, tick: u64) -> bool
        ensures exact { result ≡ nat_lt self.now.resting.life tick }
        ensures none { result ≡ false → (fec : ℕ) → is_free self.now tick fec ≡ false }
    {
        self.rests.may_have_rested(tick)
    }

    /// Whether an offer may begin by these events. It takes no memory, and looks at the FECs alone that the events are of.
    pub fn may_begin(&self, events: &[LibEvent]) -> bool
        requires { EventsFit self.now.bindings events.now }
        ensures exact { result ≡ false ↔ AreOfOffered self.now.bindings events.now }
        ensures none { result ≡ false → begun self.now.bindings (after_events self.now.bindings events.now) ≡ [] }
    {
        self.bound.may_begin(events)
    }

    /// Whether all that the event does is that a neighbour maps a FEC, which isn't its next hop: nothing is to be sent then, no
    /// offer begins, and no way changes. It takes no memory.
    pub fn is_aside(&self, event: LibEvent) -> bool
        requires { EventFits self.now.bindings event }
        ensures { result ≡ is_aside self.now.bindings event }
    {
        self.bound.is_aside(event)
    }

    /// Takes such an event. It takes no memory, and looks at no other neighbour.
    pub fn hear_aside(&mut self, event: LibEvent)
        requires fit { EventFits self.old.bindings event }
        requires aside { is_aside self.old.bindings event ≡ true }
        ensures after { (tick : ℕ) → self.new ≡ known_after self.old (event ∷ []) tick }
        ensures tells { tells self.old.bindings (event ∷ []) ≡ [] }
        ensures begun { begun self.old.bindings (after_events self.old.bindings (event ∷ [])) ≡ [] }
        ensures offers { (fec : ℕ) → offers (after_events self.old.bindings (event ∷ [])) fec ≡ offers self.old.bindings fec }
        ensures ways { (fec : ℕ) → usable (after_events self.old.bindings (event ∷ [])) fec ≡ usable self.old.bindings fec }
    {
        self.bound.hear_aside(event);
    }

    /// Takes the events of this tick as one change, and says what must be sent, in order: a Release for each Withdraw whose neighbour
    /// isn't closed later, and then by FEC and neighbour, in node order, a Map of what is offered newly and a Withdraw of
    /// what isn't offered any more. A neighbour that was opened is sent a Map of each FEC that is offered. It says too which FECs
    /// are offered newly.
    ///
    /// An `Err` says that memory ran out, and nothing else, and changes nothing.
    pub fn apply(&mut self, events: &[LibEvent], tick: u64) -> Result<Changed, AllocError>
        requires fit { EventsFit self.old.bindings events.now }
        requires few { (most : ℕ) × AreFew most self.old.resting × (most + length (tells self.old.bindings events.now) ≤ 18446744073709551615) }
        ensures tells { IfOk result (λ changed. changed.tells.items ≡ tells self.old.bindings events.now) }
        ensures begun { IfOk result (λ changed. map (λ fec. fec.0) changed.begun.items ≡ begun self.old.bindings (after_events self.old.bindings events.now)) }
        ensures after { OnOk result (self.new ≡ known_after self.old events.now tick) }
        ensures kept { OnErr result (self.new ≡ self.old) }
    {
        let rows = self.rows(events)?;
        let before = self.bound.may_change(events)?;
        let mut begun = Vec::with_capacity(self.alloc, before.len())?;
        let tells = self.bound.apply(events, &before)?;
        begin(&self.bound, &before, &mut begun);
        follow(&mut self.rests, events, rows, tick);
        owe(&mut self.rests, &tells);
        stop(&self.bound, &mut self.rests, &before, tick);
        Ok(Changed { tells, begun })
    }

    /// A row for each neighbour that opens.
    fn rows(&self, events: &[LibEvent]) -> Result<Vec<Row>, AllocError>
        ensures alike { IfOk result (λ rows. All (λ row. row ≡ replicate (length self.now.resting.rested) 0) rows.items) }
        ensures enough { IfOk result (λ rows. opened_in events.now ≤ length rows.items) }
    {
        let mut rows = Vec::new(self.alloc);
        for event in events {
            if is_opening(event) {
                rows.push(self.rests.row()?)?;
            }
        }
        Ok(rows)
    }
}

/// Whether the offer of a FEC began.
fn begins(bound: &Bound, one: &SoFar) -> bool
    requires { one.now.fec.0 < nodes bound.now }
    ensures { result ≡ (not one.now.offered && offers bound.now one.now.fec.0) }
{
    !one.offered && bound.offers(one.fec)
}

/// Notes the FECs whose offer began, for which there is room.
fn begin(bound: &Bound, before: &[SoFar], begun: &mut Vec<NodeNo>)
    requires below { All (λ one. one.fec.0 < nodes bound.now) before.now }
    requires room { vec_len begun.old + length before.now ≤ vec_capacity begun.old }
    ensures { map (λ fec. fec.0) begun.new.items ≡ map (λ fec. fec.0) begun.old.items ++ flat_map (begun_since bound.now) before.now }
{
    for one in before {
        if begins(bound, one) {
            begun.push_reserved(one.fec);
        }
    }
}

/// Whether the offer of a FEC ended.
fn ends(bound: &Bound, one: &SoFar) -> bool
    requires { one.now.fec.0 < nodes bound.now }
    ensures { result ≡ (one.now.offered && not (offers bound.now one.now.fec.0)) }
{
    one.offered && !bound.offers(one.fec)
}

/// The FECs rest whose offer ended.
fn stop(bound: &Bound, rests: &mut Rests, before: &[SoFar], tick: u64)
    requires below { All (λ one. one.fec.0 < nodes bound.now) before.now }
    requires nodes { length rests.old.rested ≡ nodes bound.now }
    ensures { rests.new ≡ all_stopped tick rests.old (flat_map (ended_since bound.now) before.now) }
{
    for one in before {
        if ends(bound, one) {
            rests.stop(one.fec, tick);
        }
    }
}

/// Whether a neighbour opens in the event.
fn is_opening(event: &LibEvent) -> bool
    ensures { opened_in (event.now ∷ []) ≡ cond result 1 0 }
{
    match event {
        LibEvent::Opened(_) => true,
        LibEvent::Closed(_)
        | LibEvent::Map(_, _, _)
        | LibEvent::Withdraw(_, _)
        | LibEvent::Released(_, _)
        | LibEvent::Next(_, _) => false,
    }
}

/// Follows the events: sessions begin and end, and Releases are received.
fn follow(rests: &mut Rests, events: &[LibEvent], mut rows: Vec<Row>, tick: u64)
    requires fit { All (RestFits (length rests.old.owed) (length rests.old.rested)) events.now }
    requires alike { All (λ row. row ≡ replicate (length rests.old.rested) 0) rows.items }
    requires enough { opened_in events.now ≤ length rows.items }
    ensures { rests.new ≡ rested_events tick rests.old events.now }
{
    for event in events {
        follow_one(rests, *event, &mut rows, tick);
    }
}

/// Follows one event.
fn follow_one(rests: &mut Rests, event: LibEvent, rows: &mut Vec<Row>, tick: u64)
    requires fit { RestFits (length rests.old.owed) (length rests.old.rested) event }
    requires rows { All (λ row. row ≡ replicate (length rests.old.rested) 0) rows.old.items }
    requires enough { opened_in (event ∷ []) ≤ length rows.old.items }
    ensures after { rests.new ≡ rested_event tick rests.old event }
    ensures rows { length rows.new.items + opened_in (event ∷ []) ≡ length rows.old.items }
    ensures alike { All (λ row. row ≡ replicate (length rests.old.rested) 0) rows.new.items }
{
    match event {
        LibEvent::Opened(from) => {
            if let Some(row) = rows.pop() {
                rests.open(from, row);
            }
        }
        LibEvent::Closed(from) => rests.close(from, tick),
        LibEvent::Released(from, fec) => rests.release(from, fec, tick),
        LibEvent::Map(_, _, _) | LibEvent::Withdraw(_, _) | LibEvent::Next(_, _) => {}
    }
}

/// For each Withdraw that is sent a Release is owed.
fn owe(rests: &mut Rests, tells: &[Tell])
    requires { (most : ℕ) × AreFew most rests.old × (most + length tells.now ≤ 18446744073709551615) }
    ensures { rests.new ≡ owed_for rests.old tells.now }
{
    for tell in tells {
        owe_one(rests, tell);
    }
}

/// For a Withdraw that is sent a Release is owed.
fn owe_one(rests: &mut Rests, tell: &Tell)
    requires { count_in (row_of rests.old tell.now.to.0) tell.now.fec.0 < 18446744073709551615 }
    ensures { rests.new ≡ owed_by tell.now.kind rests.old tell.now.to.0 tell.now.fec.0 }
{
    match tell.kind {
        TellKind::Withdraw => rests.withdraw(tell.to, tell.fec),
        TellKind::Map | TellKind::Release => {}
    }
}
