//! Three routers in a row, 192.0.2.1 to 192.0.2.3, each knowing that both links are up, and driven by hand.
//!
//! ```text
//!   0 pe1 --- 0 --- 1 p --- 1 --- 2 pe2
//! ```
//!
//! `lsr new NODE LINK ..` makes a router that opens these sessions; `lsr agree` has those that were made receive from one another until
//! all is sent, and answers how many PDUs were refused; `lsr said NODE LINK` is all that it sent there, `lsr state NODE LINK` its
//! session. `lsr hear NODE LINK BYTES` and `lsr close NODE LINK` answer what is sent then: on the link where it received, and on
//! link 0 as it closes; they happen at the tick of the last `lsr tick NODE TICK`. `lsr outer NODE TO`, `lsr mended NODE TO`, `lsr forward NODE STACK`, `lsr attach NODE SITE`,
//! `lsr detach NODE LABEL`.
ghost use Rattle.std.specs.Prelude.{◌≡◌, ◌≢◌, ◌<◌, true, false, None, length, IfOk, OnOk, IsTrue};
ghost use Rattle.mn_wiring.specs.Wiring.{is_end};
ghost use Rattle.mn_node.specs.Node.{session_at};
ghost use Rattle.mn_ldp_session.specs.Routers.{routers_in_a_row};

use crate::frames::{labelled, outcome};
use crate::mended::entry;
use mn_base::{LinkNo, NodeNo};
use mn_labels::Bind;
use mn_linkdb::LinkDb;
use mn_lsr::{Lsr, LsrBad, Said, routers_in_a_row_are_wired};
use mn_rows::{Answer, Call, done, in_hex, shown};
use mn_wiring::LinkEnds;
use std::alloc::{AllocError, Global};

/// 192.0.2.1 to 192.0.2.3.
const LOOPBACKS: [u32; 3] = [0xC000_0201, 0xC000_0202, 0xC000_0203];

const ENDS: [LinkEnds; 2] = [
    LinkEnds {
        a: NodeNo(0),
        b: NodeNo(1),
        cost: 10,
        delay: 2,
        loss: 0,
        life: 2000,
    },
    LinkEnds {
        a: NodeNo(1),
        b: NodeNo(2),
        cost: 10,
        delay: 2,
        loss: 0,
        life: 2000,
    },
];

/// Who receives whom in a round: the speaker, the link and the hearer.
const ROUND: [(u16, u16, u16); 4] = [(2, 1, 1), (0, 0, 1), (1, 1, 2), (1, 0, 0)];

/// Learns of a link, which a node without a session says nothing of.
fn learn(lsr: &mut Lsr, db: &LinkDb, link: LinkNo) -> Result<(), AllocError>
    requires two { length db.now ≡ 2 }
    requires there { link.0 < 2 }
    requires wired { lsr.old.wiring ≡ routers_in_a_row }
    ensures wiring { OnOk result (lsr.new.wiring ≡ lsr.old.wiring) }
    ensures me { OnOk result (lsr.new.node.me ≡ lsr.old.node.me) }
{
    if !lsr.has_numbers() || lsr.view().learned(link) > db.changes(link) {
        return Err(AllocError);
    }
    match lsr.learn(db, link, 0) {
        Ok(said) if said.is_empty() => Ok(()),
        _ => Err(AllocError),
    }
}

/// Both links are up.
fn both_up(alloc: Global) -> Result<LinkDb, AllocError>
    ensures { IfOk result (λ db. length db ≡ 2) }
{
    let mut db = LinkDb::new(alloc, 2)?;
    let _ = db.change(LinkNo(0), true);
    let _ = db.change(LinkNo(1), true);
    Ok(db)
}

/// A node that knows both links, and has no session.
fn knowing(alloc: Global, me: NodeNo) -> Result<Lsr, AllocError>
    requires { me.0 < 3 }
    ensures wiring { IfOk result (λ lsr. lsr.wiring ≡ routers_in_a_row) }
    ensures me { IfOk result (λ lsr. lsr.node.me ≡ me.0) }
{
    routers_in_a_row_are_wired();
    let mut lsr = Lsr::new(alloc, me, &LOOPBACKS, &ENDS, 2000)?;
    let db = both_up(alloc)?;
    learn(&mut lsr, &db, LinkNo(0))?;
    learn(&mut lsr, &db, LinkNo(1))?;
    Ok(lsr)
}

fn is_at(me: NodeNo, link: LinkNo) -> bool
    ensures { IsTrue result → is_end routers_in_a_row link.0 me.0 ≡ true }
{
    matches!((me.0, link.0), (0, 0) | (1, 0) | (1, 1) | (2, 1))
}

/// Opens a session, where the node is an end of the link and has none, and answers what is sent.
fn open(
    alloc: Global,
    lsr: &mut Lsr,
    me: NodeNo,
    named: Option<LinkNo>,
) -> Result<Vec<Said>, AllocError>
    requires wired { lsr.old.wiring ≡ routers_in_a_row }
    requires node { lsr.old.node.me ≡ me.0 }
    ensures wiring { OnOk result (lsr.new.wiring ≡ routers_in_a_row) }
    ensures me { OnOk result (lsr.new.node.me ≡ me.0) }
{
    match named {
        Some(link)
            if link.0 < 2
                && is_at(me, link)
                && lsr.has_numbers()
                && lsr.session_state(link).is_none() => { lsr.open(link) }
        _ => Ok(Vec::new(alloc)),
    }
}

fn add(all: &mut Vec<Said>, more: Vec<Said>) -> Result<(), AllocError> {
    for said in more {
        all.push(said)?;
    }
    Ok(())
}

/// The bytes that were sent on a link, in hexadecimal.
fn on_link(alloc: Global, said: &[Said], link: LinkNo) -> Answer {
    let mut bytes = Vec::new(alloc);
    for one in said {
        if one.link == link {
            bytes.extend_from_slice(&one.bytes)?;
        }
    }
    Ok(Some(in_hex(alloc, &bytes)?))
}

/// A node, all that it has sent, and by link how much of that its neighbour has received.
#[derive(Drop)]
pub(crate) struct Router {
    lsr: Lsr,
    said: Vec<Said>,
    told: [usize; 2],
    tick: u64,
}

impl Router {
    /// With the sessions that the row names open.
    fn new(alloc: Global, me: NodeNo, call: Call<'_>) -> Result<Router, AllocError>
        requires { me.0 < 3 }
    {
        let mut lsr = knowing(alloc, me)?;
        let mut said = open(alloc, &mut lsr, me, call.link(3))?;
        let more = open(alloc, &mut lsr, me, call.link(4))?;
        add(&mut said, more)?;
        Ok(Router {
            lsr,
            said,
            told: [0, 0],
            tick: 0,
        })
    }

    fn has_session(&self, link: LinkNo) -> bool
        ensures there { IsTrue result → link.0 < length self.now.lsr.wiring.ends }
        ensures open { IsTrue result → session_at self.now.lsr.node link.0 ≢ None }
    {
        usize::from(link.0) < self.lsr.view().ends().len() && self.lsr.session_state(link).is_some()
    }

    fn hear(&mut self, alloc: Global, link: LinkNo, bytes: &[u8]) -> Answer {
        if !self.has_session(link) || !self.lsr.has_numbers() {
            return Ok(None);
        }
        match self.lsr.hear_ldp(link, bytes, self.tick) {
            Ok(said) => {
                let answer = on_link(alloc, &said, link)?;
                add(&mut self.said, said)?;
                Ok(answer)
            }
            Err(bad) => shown(alloc, &Err::<(), LsrBad>(bad)),
        }
    }

    /// Receives PDUs, and answers how many were refused.
    fn hear_all(
        &mut self,
        alloc: Global,
        link: LinkNo,
        pdus: &[Vec<u8>],
    ) -> Result<u32, AllocError> {
        let mut refused = 0u32;
        for pdu in pdus {
            match self.hear(alloc, link, pdu)? {
                Some(answer) if !answer.as_str().starts_with("Err(") => {}
                _ => refused = refused.saturating_add(1),
            }
        }
        Ok(refused)
    }

    /// The PDUs of a link that its neighbour hasn't received yet, which it receives now.
    fn untold(&mut self, alloc: Global, link: LinkNo) -> Result<Vec<Vec<u8>>, AllocError> {
        let mut pdus = Vec::new(alloc);
        let Some(told) = self.told.get_mut(usize::from(link.0)) else {
            return Ok(pdus);
        };
        for one in self.said.iter().skip(*told) {
            if one.link == link {
                pdus.push(Vec::from_slice(alloc, &one.bytes)?)?;
            }
        }
        *told = self.said.len();
        Ok(pdus)
    }

    fn close(&mut self, alloc: Global, link: LinkNo) -> Answer {
        if !self.has_session(link) || !self.lsr.has_numbers() {
            return Ok(None);
        }
        let said = self.lsr.close(link, self.tick)?;
        let answer = on_link(alloc, &said, LinkNo(0))?;
        add(&mut self.said, said)?;
        Ok(answer)
    }

    /// Whether both links are learned, which a node that has run out of memory doesn't say.
    fn has_learned(&mut self, db: &LinkDb) -> bool
        requires { length db.now ≡ 2 }
        ensures { IsTrue result → self.new.lsr.failed ≡ false }
    {
        let first = LinkNo(0);
        self.lsr.view().ends().len() == 2
            && self.lsr.view().learned(first) <= db.changes(first)
            && self.lsr.has_numbers()
            && matches!(self.lsr.learn(db, first, self.tick), Err(LsrBad::Empty))
    }

    fn wait(&mut self, alloc: Global, call: Call<'_>) -> Answer {
        match call.number_u32(3) {
            Some(tick) => {
                self.tick = u64::from(tick);
                done(alloc)
            }
            None => Ok(None),
        }
    }

    fn outer(&mut self, alloc: Global, call: Call<'_>) -> Answer {
        let db = both_up(alloc)?;
        if !self.has_learned(&db) {
            return Ok(None);
        }
        match call.node(3) {
            Some(to) if u32::from(to.0) < self.lsr.view().nodes() => {
                shown(alloc, &self.lsr.outer(to))
            }
            _ => Ok(None),
        }
    }

    /// What the tree that the node mends has of another one.
    fn mended(&self, alloc: Global, call: Call<'_>) -> Answer {
        let Some(to) = call.node(3) else {
            return Ok(None);
        };
        match entry(self.lsr.mended(), to) {
            Some(found) => shown(alloc, &found),
            None => Ok(None),
        }
    }

    fn forward(&self, alloc: Global, call: Call<'_>) -> Answer {
        match labelled(alloc, call, 3)? {
            Some(mut frame) => {
                let answer = self.lsr.forward(&mut frame);
                outcome(alloc, answer, &frame)
            }
            None => Ok(None),
        }
    }

    fn attach(&mut self, alloc: Global, call: Call<'_>) -> Answer {
        match call.site(3) {
            Some(site) => shown(alloc, &self.lsr.attach(site)),
            None => Ok(None),
        }
    }

    /// The attachment that a label was given for, which ends.
    fn detach(&mut self, alloc: Global, call: Call<'_>) -> Answer {
        let Some(label) = call.number_u32(3) else {
            return Ok(None);
        };
        match self.lsr.labels().means(label) {
            Some(Bind::Site(site, number)) => {
                self.lsr.detach(label);
                shown(alloc, &(site, number))
            }
            _ => Ok(None),
        }
    }

    fn of_link(&mut self, alloc: Global, call: Call<'_>, link: LinkNo) -> Answer {
        match call.verb() {
            b"hear" => match call.bytes(alloc, 4)? {
                Some(bytes) => self.hear(alloc, link, &bytes),
                None => Ok(None),
            },
            b"close" => self.close(alloc, link),
            b"state" => shown(alloc, &self.lsr.session_state(link)),
            b"said" => on_link(alloc, &self.said, link),
            _ => Ok(None),
        }
    }

    fn answer(&mut self, alloc: Global, call: Call<'_>) -> Answer {
        match call.verb() {
            b"outer" => self.outer(alloc, call),
            b"mended" => self.mended(alloc, call),
            b"forward" => self.forward(alloc, call),
            b"attach" => self.attach(alloc, call),
            b"detach" => self.detach(alloc, call),
            b"tick" => self.wait(alloc, call),
            _ => match call.link(3) {
                Some(link) => self.of_link(alloc, call, link),
                None => Ok(None),
            },
        }
    }
}

/// The routers that were made, by number.
#[derive(Drop)]
pub(crate) struct Routers {
    all: Vec<Option<Router>>,
}

impl Routers {
    /// None of the three is made.
    pub(crate) fn new(alloc: Global) -> Result<Routers, AllocError> {
        let mut all = Vec::new(alloc);
        for _ in 0..3 {
            all.push(None)?;
        }
        Ok(Routers { all })
    }

    fn get(&mut self, node: NodeNo) -> Option<&mut Router> {
        self.all.get_mut(usize::from(node.0))?.as_mut()
    }

    fn make(&mut self, alloc: Global, call: Call<'_>, me: NodeNo) -> Answer {
        match self.all.get_mut(usize::from(me.0)) {
            Some(place) if me.0 < 3 => {
                *place = Some(Router::new(alloc, me, call)?);
                done(alloc)
            }
            _ => Ok(None),
        }
    }

    /// What one sent on a link is received by the other, where both were made.
    fn exchange(
        &mut self,
        alloc: Global,
        from: NodeNo,
        link: LinkNo,
        to: NodeNo,
    ) -> Result<u32, AllocError> {
        let pdus = match self.get(from) {
            Some(speaker) => speaker.untold(alloc, link)?,
            None => return Ok(0),
        };
        match self.get(to) {
            Some(hearer) => hearer.hear_all(alloc, link, &pdus),
            None => Ok(0),
        }
    }

    /// Eight rounds, after which all is sent.
    fn agree(&mut self, alloc: Global) -> Answer {
        let mut refused = 0u32;
        for _ in 0..8 {
            for (from, link, to) in ROUND {
                let more = self.exchange(alloc, NodeNo(from), LinkNo(link), NodeNo(to))?;
                refused = refused.saturating_add(more);
            }
        }
        shown(alloc, &refused)
    }
}

pub(crate) fn router_row(alloc: Global, routers: &mut Routers, call: Call<'_>) -> Answer {
    if matches!(call.verb(), b"agree") {
        return routers.agree(alloc);
    }
    let Some(node) = call.node(2) else {
        return Ok(None);
    };
    if matches!(call.verb(), b"new") {
        return routers.make(alloc, call, node);
    }
    match routers.get(node) {
        Some(router) => router.answer(alloc, call),
        None => Ok(None),
    }
}
