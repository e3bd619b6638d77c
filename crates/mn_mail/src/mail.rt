//! What flies.
ghost use Rattle.std.specs.Prelude.{◌≡◌, ◌<◌, ◌≤◌, ◌+◌, ◌^◌, [], length, is_some, slice_get, option_map, IfOk, OnOk, OnErr};
ghost use Rattle.mn_mail.specs.Mail.{first_from_to, without_first, with_letter, with_letters, cut};
ghost use Rattle.mn_mail.specs.Sending.{channel};

use crate::Letter;
use mn_base::NodeNo;
use mn_flight::{Back, Flight};
use mn_flight_pool::PoolFlight;
use std::alloc::{AllocError, Global};
use std::marker::Model;

/// Letters in flight, in the order of sending.
#[derive(Drop)]
pub struct Mail {
    flight: PoolFlight<Letter>,
    nodes: u32,
    sent: u64,
}

/// The number after this one. An `Err` says that this one is the last of 64 bits.
fn next_number(number: u64) -> Result<u64, AllocError>
    ensures next { IfOk result (λ next. next ≡ number + 1) }
{
    match number.checked_add(1) {
        Some(next) => Ok(next),
        None => Err(AllocError),
    }
}

impl Model for Mail {
    ghost use Rattle.mn_mail.specs.Mail.{Mail as MailNow};
    ghost use Rattle.mn_mail.specs.Sending.{letters_of, IsMail};

    ghost Value = { MailNow };

    ghost view = { λ m. record { nodes = m.nodes; letters = letters_of m.flight.items; sent = m.sent } };

    ghost invariant = { λ m. IsMail m.nodes m.sent m.flight.channels m.flight.items };
}

impl Mail {
    /// No letter, between so many nodes.
    pub fn new(alloc: Global, nodes: u32) -> Result<Mail, AllocError>
        requires { nodes ≤ 1024 }
        ensures { IfOk result (λ mail. mail ≡ record { nodes = nodes; letters = []; sent = 0 }) }
    {
        let flight = PoolFlight::new(alloc, nodes * nodes)?;
        Ok(Mail {
            flight,
            nodes,
            sent: 0,
        })
    }

    /// The channel from a node to another.
    fn channel(&self, from: NodeNo, to: NodeNo) -> u32
        requires from { from.0 < self.now.nodes }
        requires to { to.0 < self.now.nodes }
        ensures { result ≡ channel self.now.nodes from.0 to.0 }
    {
        u32::from(from.0) * self.nodes + u32::from(to.0)
    }

    /// Sends a letter, behind all others. An `Err` changes nothing; it comes where memory runs out, and once 2^64 letters were sent.
    pub fn send(&mut self, letter: Letter) -> Result<(), AllocError>
        requires from { letter.from < self.old.nodes }
        requires to { letter.to < self.old.nodes }
        ensures ok { OnOk result (self.new ≡ with_letter letter self.old) }
        ensures err { OnErr result (self.new ≡ self.old) }
    {
        let channel = self.channel(letter.from, letter.to);
        let next = next_number(self.sent)?;
        match self.flight.push(channel, 0, self.sent, letter) {
            Ok(()) => {
                self.sent = next;
                Ok(())
            }
            Err(Back(_)) => Err(AllocError),
        }
    }

    /// Takes what was sent first of what flies from a node to another.
    pub fn take(&mut self, from: NodeNo, to: NodeNo) -> Option<Letter>
        requires from { from.0 < self.old.nodes }
        requires to { to.0 < self.old.nodes }
        ensures value { result ≡ first_from_to from.0 to.0 self.old.letters }
        ensures left { self.new ≡ with_letters (without_first from.0 to.0 self.old.letters) self.old }
    {
        let channel = self.channel(from, to);
        match self.flight.take(channel, 0) {
            Some(item) => Some(item.item),
            None => None,
        }
    }

    /// Whether a letter flies from a node to another.
    pub fn has(&self, from: NodeNo, to: NodeNo) -> bool
        requires from { from.0 < self.now.nodes }
        requires to { to.0 < self.now.nodes }
        ensures { result ≡ is_some (first_from_to from.0 to.0 self.now.letters) }
    {
        match self.flight.first(self.channel(from, to)) {
            Some(_) => true,
            None => false,
        }
    }

    /// Drops all that flies between two nodes, both ways.
    pub fn cut(&mut self, a: NodeNo, b: NodeNo)
        requires a { a.0 < self.old.nodes }
        requires b { b.0 < self.old.nodes }
        ensures { self.new ≡ cut a.0 b.0 self.old }
    {
        let forth = self.channel(a, b);
        let back = self.channel(b, a);
        self.flight.drop_channel(forth);
        self.flight.drop_channel(back);
    }

    /// How many letters fly.
    pub fn len(&self) -> u64
        ensures { result ≡ length self.now.letters }
    {
        self.flight.len()
    }

    /// The letter that was sent first of all that fly. None where none flies.
    pub fn first(&self) -> Option<&Letter>
        ensures { option_map (λ letter. letter.now) result ≡ slice_get self.now.letters 0 }
    {
        match self.flight.earliest(0) {
            Some(item) => Some(&item.item),
            None => None,
        }
    }
}
