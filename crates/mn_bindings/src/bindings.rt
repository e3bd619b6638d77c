ghost use Rattle.std.specs.Prelude.{ℕ, ◌≡◌, ◌≤◌, ◌<◌, ◌++◌, ◌==◌, ◌||◌, ◌↔◌, List, [], length, slice_index_or, slice_set, replicate, map, IfOk, OnOk, OnErr, is_some, true, false, Bool, vec_capacity};
ghost use Rattle.std.specs.List.{All, flat_map, list_all, range_with_len};
ghost use Rattle.mn_bindings.specs.Bindings.{nothing_heard, nodes, is_open, usable, offers, after_event, after_events, EventFits, EventsFit, row_of, with_label, label_learned};
ghost use Rattle.mn_bindings.specs.declared.undo.Undo.TheVariants.{Label};
ghost use Rattle.mn_bindings.specs.Undoing.{heard_label, undone, all_undone, undo_of};
ghost use Rattle.mn_bindings.specs.Kept.{open_from};
ghost use Rattle.mn_bindings.specs.Tells.{tells, told, tells_of, releases, closes, opens};
ghost use Rattle.mn_bindings.specs.Aside.{is_hop, is_aside};
ghost use Rattle.mn_bindings.specs.News.{fecs_in, InOrder, AreBelow, begun, so_far, so_far_in, told_since, AreAllNews, AreOfOffered};

use crate::event::{LibEvent, Tell, TellKind, closes, opened_alone, opens, opens_any};
use crate::news::{SoFar, are_of_fecs};
use crate::row::Row;
use crate::undo::Undo;
use mn_base::NodeNo;
use std::alloc::{AllocError, Global};
use std::marker::Model;

/// The bindings that a node has received and sent.
///
/// Contracts see, by neighbour, what it last advertised for each FEC, or that it isn't open, and by FEC the next hop.
#[derive(Drop)]
pub(crate) struct Bound {
    alloc: Global,
    me: NodeNo,
    heard: Vec<Option<Row>>,
    peers: Vec<NodeNo>, // the open neighbours, in node order: who tells all of them looks at no other
    hops: Vec<Option<NodeNo>>,
}

impl Model for Bound {
    ghost use Rattle.mn_bindings.specs.Bindings.{Bindings};

    ghost Value = { Bindings };

    ghost use Rattle.mn_bindings.specs.Kept.{Stands};

    ghost view = { λ lib. record { me = lib.me; heard = lib.heard.items; hops = lib.hops.items } };

    ghost invariant = { Stands };
}

impl Bound {
    /// The bindings of a node at the start, in a network of at most 256 nodes: no neighbour is open, and no FEC has a next
    /// hop.
    pub fn new(alloc: Global, me: NodeNo, nodes: u32) -> Result<Bound, AllocError>
        requires few { nodes ≤ 256 }
        requires me { me.0 < nodes }
        ensures { IfOk result (λ lib. lib ≡ nothing_heard me nodes) }
    {
        let mut heard = Vec::new(alloc);
        for _ in 0..nodes {
            heard.push(None)?;
        }
        let peers = Vec::with_capacity(alloc, nodes as usize)?;
        let mut hops = Vec::new(alloc);
        hops.resize(nodes as usize, None)?;
        Ok(Bound {
            alloc,
            me,
            heard,
            peers,
            hops,
        })
    }

    /// The next hop towards a FEC and its label, where that neighbour is open and the last that it advertised for the FEC
    /// is a Mapping. It takes no memory.
    pub fn usable(&self, fec: NodeNo) -> Option<(NodeNo, u32)>
        requires { fec.0 < nodes self.now }
        ensures { result ≡ usable self.now fec.0 }
    {
        match self.hops[fec.0 as usize] {
            None => None,
            Some(hop) => match self.label(hop, fec) {
                None => None,
                Some(label) => Some((hop, label)),
            },
        }
    }

    /// The next hop towards a FEC.
    pub fn hop(&self, fec: NodeNo) -> Option<NodeNo>
        requires { fec.0 < nodes self.now }
        ensures { result ≡ slice_index_or self.now.hops fec.0 None }
    {
        self.hops[fec.0 as usize]
    }

    /// Whether the node is open to this neighbour.
    fn is_open(&self, to: NodeNo) -> bool
        ensures open { result ≡ is_open self.now to.0 }
        ensures rows { length self.now.heard ≡ nodes self.now }
    {
        let at = to.0 as usize;
        if at < self.heard.len() {
            match &self.heard[at] {
                None => false,
                Some(_) => true,
            }
        } else {
            false
        }
    }

    /// The label that a neighbour advertised last, where it is open and its last word of the FEC was a Mapping.
    fn label(&self, from: NodeNo, fec: NodeNo) -> Option<u32>
        ensures { result ≡ label_learned (row_of self.now from.0) fec.0 }
    {
        let at = from.0 as usize;
        if at < self.heard.len() {
            match &self.heard[at] {
                None => None,
                Some(row) => row.label(fec),
            }
        } else {
            None
        }
    }

    /// Whether the FEC is mapped to the neighbours: RFC 5036, section 2.6.1.2.
    pub fn offers(&self, fec: NodeNo) -> bool
        requires { fec.0 < nodes self.now }
        ensures { result ≡ offers self.now fec.0 }
    {
        self.me == fec || self.usable(fec).is_some()
    }

    /// Whether a FEC is offered as long as nothing happens.
    fn so_far(&self, fec: NodeNo) -> SoFar
        requires { fec.0 < nodes self.now }
        ensures { result ≡ so_far self.now fec.0 }
    {
        SoFar {
            fec,
            offered: self.offers(fec),
        }
    }

    /// All FECs, in node order.
    fn every(&self) -> Result<Vec<SoFar>, AllocError>
        ensures { IfOk result (λ all. all.items ≡ map (so_far self.now) (range_with_len 0 (nodes self.now))) }
    {
        let mut all = Vec::new(self.alloc);
        for fec in 0..self.hops.len() {
            all.push(self.so_far(NodeNo(fec as u16)))?;
        }
        Ok(all)
    }

    /// The FECs that the events are of.
    fn named(&self, events: &[LibEvent]) -> Result<Vec<SoFar>, AllocError>
        requires { AreBelow (nodes self.now) (fecs_in events.now) }
        ensures { IfOk result (λ all. all.items ≡ flat_map (so_far_in self.now) events.now) }
    {
        let mut all = Vec::new(self.alloc);
        for event in events {
            if let Some(fec) = event.fec() {
                all.push(self.so_far(fec))?;
            }
        }
        Ok(all)
    }

    /// The FECs of which something may have to be sent, in node order: where each event is of a FEC, in node order and none
    /// twice, these alone.
    pub fn may_change(&self, events: &[LibEvent]) -> Result<Vec<SoFar>, AllocError>
        requires { EventsFit self.now events.now }
        ensures all { IfOk result (λ all. AreAllNews self.now events.now all.items) }
        ensures alone { InOrder 0 events.now → IfOk result (λ all. all.items ≡ flat_map (so_far_in self.now) events.now) }
    {
        if are_of_fecs(events) {
            self.named(events)
        } else {
            self.every()
        }
    }

    /// Whether an offer may begin by these events: not where each is of a FEC that is offered already.
    pub fn may_begin(&self, events: &[LibEvent]) -> bool
        requires { EventsFit self.now events.now }
        ensures exact { result ≡ false ↔ AreOfOffered self.now events.now }
        ensures none { result ≡ false → begun self.now (after_events self.now events.now) ≡ [] }
    {
        !are_of_fecs(events) || !self.are_offered(events)
    }

    /// Whether all FECs that the events are of are offered.
    fn are_offered(&self, events: &[LibEvent]) -> bool
        requires { AreBelow (nodes self.now) (fecs_in events.now) }
        ensures { result ≡ list_all (λ one. one.offered) (flat_map (so_far_in self.now) events.now) }
    {
        for event in events {
            if let Some(fec) = event.fec() {
                if !self.offers(fec) {
                    return false;
                }
            }
        }
        true
    }

    /// Whether all that the event does is that a neighbour maps a FEC, which isn't its next hop.
    pub fn is_aside(&self, event: LibEvent) -> bool
        requires { EventFits self.now event }
        ensures { result ≡ is_aside self.now event }
    {
        match event {
            LibEvent::Map(from, fec, _) => !is_hop(self.hops[fec.0 as usize], from),
            LibEvent::Opened(_)
            | LibEvent::Closed(_)
            | LibEvent::Withdraw(_, _)
            | LibEvent::Released(_, _)
            | LibEvent::Next(_, _) => false,
        }
    }

    /// Takes such an event.
    pub fn hear_aside(&mut self, event: LibEvent)
        requires fit { EventFits self.old event }
        requires aside { is_aside self.old event ≡ true }
        ensures { self.new ≡ after_event self.old event }
    {
        if let LibEvent::Map(from, fec, label) = event {
            let _ = self.hear(from, fec, Some(label));
        }
    }

    /// Takes an event, and says what puts it back.
    fn event(&mut self, event: LibEvent) -> Result<Undo, AllocError>
        requires { EventFits self.old event }
        ensures ok { OnOk result (self.new ≡ after_event self.old event) }
        ensures undo { IfOk result (λ undo. undo ≡ undo_of self.old event) }
        ensures rows { length self.old.heard ≡ nodes self.old }
        ensures err { OnErr result (self.new ≡ self.old) }
    {
        match event {
            LibEvent::Opened(from) => {
                let row = Row::new(self.alloc, self.hops.len())?;
                self.heard[from.0 as usize] = Some(row);
                list_open(&self.heard, &mut self.peers);
                Ok(Undo::Row(from, None))
            }
            LibEvent::Closed(from) => {
                let row = self.heard[from.0 as usize].take();
                list_open(&self.heard, &mut self.peers);
                Ok(Undo::Row(from, row))
            }
            LibEvent::Map(from, fec, label) => Ok(self.hear(from, fec, Some(label))),
            LibEvent::Withdraw(from, fec) => Ok(self.hear(from, fec, None)),
            LibEvent::Released(_, _) => {
                let _ = &self.heard;
                Ok(Undo::Nothing)
            }
            LibEvent::Next(fec, hop) => {
                let old = self.hops[fec.0 as usize];
                self.hops[fec.0 as usize] = hop;
                Ok(Undo::Hop(fec, old))
            }
        }
    }

    /// Takes an event; what it answers puts the bindings back as they were.
    fn step(&mut self, event: LibEvent) -> Result<Undo, AllocError>
        requires { EventFits self.old event }
        ensures ok { OnOk result (self.new ≡ after_event self.old event) }
        ensures undo { IfOk result (λ undo. undone self.new undo ≡ self.old) }
        ensures err { OnErr result (self.new ≡ self.old) }
    {
        let undo = self.event(event)?;
        Ok(undo)
    }

    /// Notes what a neighbour last advertised for a FEC.
    fn hear(&mut self, from: NodeNo, fec: NodeNo, label: Option<u32>) -> Undo
        requires { from.0 < nodes self.old }
        ensures after { self.new ≡ heard_label self.old from.0 fec.0 label }
        ensures undo { result ≡ Label from fec (label_learned (row_of self.old from.0) fec.0) }
        ensures rows { length self.old.heard ≡ nodes self.old }
    {
        let old = self.label(from, fec);
        if let Some(row) = &mut self.heard[from.0 as usize] {
            row.set(fec, label);
        }
        Undo::Label(from, fec, old)
    }

    /// Puts one event back.
    fn undo(&mut self, undo: Undo)
        ensures { self.new ≡ undone self.old undo }
    {
        match undo {
            Undo::Row(from, row) => {
                let at = from.0 as usize;
                if at < self.heard.len() {
                    self.heard[at] = row;
                    list_open(&self.heard, &mut self.peers);
                }
            }
            Undo::Label(from, fec, label) => {
                let at = from.0 as usize;
                if at < self.heard.len() {
                    if let Some(row) = &mut self.heard[at] {
                        row.set(fec, label);
                    }
                }
            }
            Undo::Nothing => {}
            Undo::Hop(fec, hop) => {
                let at = fec.0 as usize;
                if at < self.hops.len() {
                    self.hops[at] = hop;
                }
            }
        }
    }

    /// Takes the events one after the other.
    fn follow(&mut self, events: &[LibEvent], undos: &mut Vec<Undo>) -> Result<(), AllocError>
        requires { EventsFit self.old events.now }
        ensures after { OnOk result (self.new ≡ after_events self.old events.now) }
        ensures undo { all_undone self.new undos.new.items ≡ all_undone self.old undos.old.items }
    {
        for event in events {
            undos.reserve(1)?;
            let undo = self.step(*event)?;
            undos.push_reserved(undo);
        }
        Ok(())
    }

    /// Puts events back, the last one first.
    fn undo_all(&mut self, mut undos: Vec<Undo>)
        ensures { self.new ≡ all_undone self.old undos.items }
    {
        while let Some(undo) = undos.pop() {
            self.undo(undo);
        }
    }

    /// Tells one neighbour what it must know of a FEC that is offered now or not.
    fn tell_one(
        &self,
        events: &[LibEvent],
        fec: NodeNo,
        before: bool,
        to: NodeNo,
        tells: &mut Vec<Tell>,
    ) -> Result<(), AllocError>
        requires fec { fec.0 < nodes self.now }
        ensures told { OnOk result (tells.new.items ≡ tells.old.items ++ told before self.now events.now fec.0 to.0) }
        ensures rows { length self.now.heard ≡ nodes self.now }
    {
        if self.is_open(to) {
            self.tell_open(events, fec, before, to, tells)
        } else {
            Ok(())
        }
    }

    /// Tells an open neighbour what it must know of such a FEC.
    fn tell_open(
        &self,
        events: &[LibEvent],
        fec: NodeNo,
        before: bool,
        to: NodeNo,
        tells: &mut Vec<Tell>,
    ) -> Result<(), AllocError>
        requires fec { fec.0 < nodes self.now }
        requires open { is_open self.now to.0 ≡ true }
        ensures { OnOk result (tells.new.items ≡ tells.old.items ++ told before self.now events.now fec.0 to.0) }
    {
        let before = before && !opens(events, to);
        let kind = match (before, self.offers(fec)) {
            (false, true) => TellKind::Map,
            (true, false) => TellKind::Withdraw,
            _ => return Ok(()),
        };
        tells.push(Tell { to, kind, fec })?;
        Ok(())
    }

    /// Tells each open neighbour what it must know of one FEC.
    fn tell(
        &self,
        events: &[LibEvent],
        fec: NodeNo,
        before: bool,
        tells: &mut Vec<Tell>,
    ) -> Result<(), AllocError>
        requires fec { fec.0 < nodes self.now }
        ensures { OnOk result (tells.new.items ≡ tells.old.items ++ tells_of before self.now events.now fec.0) }
    {
        for to in &self.peers {
            self.tell_one(events, fec, before, *to, tells)?;
        }
        Ok(())
    }

    /// Tells what must be known of a FEC whose offer stayed: it is news for a new neighbour alone, and where all that
    /// happened is that one opened, no other is looked at.
    fn tell_stayed(
        &self,
        events: &[LibEvent],
        fec: NodeNo,
        offered: bool,
        fresh: bool,
        tells: &mut Vec<Tell>,
    ) -> Result<(), AllocError>
        requires fec { fec.0 < nodes self.now }
        requires stayed { offered ≡ offers self.now fec.0 }
        requires fresh { fresh ≡ false → (neighbour : ℕ) → opens events.now neighbour ≡ false }
        ensures { OnOk result (tells.new.items ≡ tells.old.items ++ tells_of offered self.now events.now fec.0) }
    {
        if !fresh {
            return Ok(());
        }
        match opened_alone(events) {
            Some(to) => self.tell_one(events, fec, offered, to, tells),
            None => self.tell(events, fec, offered, tells),
        }
    }

    /// Tells the changes of these FECs since then.
    fn changes(
        &self,
        events: &[LibEvent],
        before: &[SoFar],
        tells: &mut Vec<Tell>,
    ) -> Result<(), AllocError>
        requires { All (λ one. one.fec.0 < nodes self.now) before.now }
        ensures { OnOk result (tells.new.items ≡ tells.old.items ++ flat_map (told_since self.now events.now) before.now) }
    {
        let fresh = opens_any(events);
        for one in before {
            if one.offered == self.offers(one.fec) {
                self.tell_stayed(events, one.fec, one.offered, fresh, tells)?;
            } else {
                self.tell(events, one.fec, one.offered, tells)?;
            }
        }
        Ok(())
    }

    /// Takes the events as one change, and says what must be sent, in order: a Release for each Withdraw whose neighbour
    /// isn't closed later, and then by FEC and neighbour, in node order, a Map of what is offered newly and a Withdraw of
    /// what isn't offered any more. A neighbour that was opened is sent a Map of each FEC that is offered.
    ///
    /// An `Err` says that memory ran out, and nothing else, and changes nothing.
    pub fn apply(&mut self, events: &[LibEvent], before: &[SoFar]) -> Result<Vec<Tell>, AllocError>
        requires fit { EventsFit self.old events.now }
        requires before { AreAllNews self.old events.now before.now }
        ensures tells { IfOk result (λ all. all.items ≡ tells self.old events.now) }
        ensures after { OnOk result (self.new ≡ after_events self.old events.now) }
        ensures kept { OnErr result (self.new ≡ self.old) }
    {
        let mut undos = Vec::new(self.alloc);
        match self.take(events, before, &mut undos) {
            Ok(tells) => Ok(tells),
            Err(error) => {
                self.undo_all(undos);
                Err(error)
            }
        }
    }

    /// Takes the events, and notes how to put them back.
    fn take(
        &mut self,
        events: &[LibEvent],
        before: &[SoFar],
        undos: &mut Vec<Undo>,
    ) -> Result<Vec<Tell>, AllocError>
        requires fit { EventsFit self.old events.now }
        requires before { AreAllNews self.old events.now before.now }
        ensures tells { IfOk result (λ all. all.items ≡ tells self.old events.now) }
        ensures after { OnOk result (self.new ≡ after_events self.old events.now) }
        ensures undo { all_undone self.new undos.new.items ≡ all_undone self.old undos.old.items }
    {
        self.follow(events, undos)?;
        let mut tells = releases(self.alloc, events)?;
        self.changes(events, before, &mut tells)?;
        Ok(tells)
    }
}

/// Lists the open neighbours, in node order. There is room for all.
fn list_open(heard: &[Option<Row>], peers: &mut Vec<NodeNo>)
    requires few { length heard.now ≤ 256 }
    requires room { length heard.now ≤ vec_capacity peers.old }
    ensures listed { peers.new.items ≡ open_from 0 (map is_some heard.now) }
    ensures room { vec_capacity peers.new ≡ vec_capacity peers.old }
{
    peers.clear();
    for at in 0..heard.len() {
        if heard[at].is_some() {
            peers.push_reserved(NodeNo(at as u16));
        }
    }
}

/// Whether the next hop is this neighbour.
fn is_hop(hop: Option<NodeNo>, neighbour: NodeNo) -> bool
    ensures { result ≡ is_hop hop neighbour.0 }
{
    match hop {
        None => false,
        Some(hop) => hop == neighbour,
    }
}

/// A Release for each Withdraw whose neighbour isn't closed later: RFC 5036, section 3.5.10.1.
fn releases(alloc: Global, events: &[LibEvent]) -> Result<Vec<Tell>, AllocError>
    ensures { IfOk result (λ all. all.items ≡ releases events.now) }
{
    let mut tells = Vec::new(alloc);
    for (at, event) in events.iter().enumerate() {
        if let LibEvent::Withdraw(to, fec) = event {
            if !closes(&events[at + 1..], *to) {
                tells.push(Tell {
                    to: *to,
                    kind: TellKind::Release,
                    fec: *fec,
                })?;
            }
        }
    }
    Ok(tells)
}
