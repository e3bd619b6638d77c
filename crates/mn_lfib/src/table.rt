ghost use Rattle.std.specs.Prelude.{◌≡◌, ◌≢◌, ◌<◌, ◌≤◌, ◌^◌, ◌==◌, ℕ, [], length, slice_index_or, None, Some, OnOk, OnErr, IsOk, IsSome};
ghost use Rattle.mn_lfib.specs.Uses.{use_of, fec_use, site_use, IsNotSite, IsNotFec, IsNextHop, Fits};
ghost use Rattle.mn_lfib.specs.Forwarding.{by_use, forwarded};
ghost use Rattle.mn_lfib.specs.Hop.{LeavesWith, IsOneHop};

use crate::answer::{Forwarded, Use};
use mn_base::{NodeNo, SiteNo};
use mn_drops::Rule;
use mn_stack::Frame;
use std::alloc::{AllocError, Global};
use std::marker::Model;

/// As a next label it says that the entry is popped: RFC 3032, section 2.1.
const IMPLICIT_NULL: u32 = 3;

/// What the labels of a node are used for.
///
/// Contracts see the labels that have a use, and their uses.
#[derive(Drop)]
pub struct Lfib {
    /// At the place of each label its use, as far as the greatest that was set. A node gives its labels one after another,
    /// so few places are empty.
    uses: Vec<Option<Use>>,
}

impl Model for Lfib {
    ghost use Rattle.std.specs.Prelude.{List, ℕ};
    ghost use Rattle.mn_lfib.specs.declared.answer.Use.{Use};
    ghost use Rattle.mn_lfib.specs.Kept.{used_from};
    ghost use Rattle.mn_lfib.specs.Uses.{AllFit};

    ghost Value = { List (ℕ × Use) };

    ghost view = { λ l. used_from 0 l.uses.items };

    ghost invariant = { λ l. AllFit (used_from 0 l.uses.items) };
}

impl Lfib {
    /// No label has a use. It takes no memory.
    pub fn new(alloc: Global) -> Lfib
        ensures { result ≡ [] }
    {
        Lfib {
            uses: Vec::new(alloc),
        }
    }

    /// Sets a FEC's label to a next hop and the label to be sent there, or to no use.
    ///
    /// Memory is taken only where the label had no use and is given one. An `Err` changes nothing.
    pub fn set_fec(&mut self, label: u32, to: Option<(NodeNo, u32)>) -> Result<(), AllocError>
        requires label { label < 2 ^ 20 }
        requires next_label { IsNextHop to }
        requires of_fec { IsNotSite (use_of self.old label) }
        ensures set { OnOk result (use_of self.new label ≡ fec_use to) }
        ensures others { (other : ℕ) → other ≢ label → use_of self.new other ≡ use_of self.old other }
        ensures cleared { to ≡ None → IsOk result }
        ensures known { IsSome (use_of self.old label) → IsOk result }
        ensures unchanged { OnErr result (self.new ≡ self.old) }
    {
        match to {
            Some((next_hop, next_label)) => self.set(label, Use::Fec(next_hop, next_label)),
            None => {
                self.clear(label);
                Ok(())
            }
        }
    }

    /// Sets an attachment's label to its site, or ends the attachment. To end what never began does nothing.
    ///
    /// Memory is taken only where the label was never set to a site and is now. An `Err` changes nothing.
    pub fn set_site(&mut self, label: u32, site: Option<SiteNo>) -> Result<(), AllocError>
        requires label { label < 2 ^ 20 }
        requires of_site { IsNotFec (use_of self.old label) }
        ensures set { OnOk result (use_of self.new label ≡ site_use (use_of self.old label) site) }
        ensures others { (other : ℕ) → other ≢ label → use_of self.new other ≡ use_of self.old other }
        ensures ended { site ≡ None → IsOk result }
        ensures known { IsSome (use_of self.old label) → IsOk result }
        ensures unchanged { OnErr result (self.new ≡ self.old) }
    {
        match (site, self.use_of(label)) {
            (Some(site), _) => self.set(label, Use::Site(site)),
            (None, Some(_)) => self.set(label, Use::Ended),
            (None, None) => Ok(()),
        }
    }

    /// Sets a label's use. Memory is taken only where the label has no place.
    fn set(&mut self, label: u32, used: Use) -> Result<(), AllocError>
        requires { Fits (Some used) }
        ensures set { OnOk result (use_of self.new label ≡ Some used) }
        ensures others { (other : ℕ) → other ≢ label → use_of self.new other ≡ use_of self.old other }
        ensures known { IsSome (use_of self.old label) → IsOk result }
        ensures unchanged { OnErr result (self.new ≡ self.old) }
    {
        reach(&mut self.uses, label)?;
        self.uses[label as usize] = Some(used);
        Ok(())
    }

    /// Takes a label's use back, if it has one.
    fn clear(&mut self, label: u32)
        ensures cleared { use_of self.new label ≡ None }
        ensures others { (other : ℕ) → other ≢ label → use_of self.new other ≡ use_of self.old other }
    {
        let place = label as usize;
        if place >= self.uses.len() {
            return;
        }
        self.uses[place] = None;
    }

    /// What a label is used for, if it has a use.
    fn use_of(&self, label: u32) -> Option<Use>
        ensures used { result ≡ use_of self.now label }
        ensures fits { Fits result }
    {
        self.uses.get(label as usize).copied().flatten()
    }

    /// Forwards a frame, whoever made it. A dropped one is unchanged. It takes no memory.
    pub fn forward(&self, frame: &mut Frame) -> Forwarded
        requires { 0 < length frame.old.entries }
        ensures cases { (result, frame.new) ≡ forwarded self.now frame.old }
        // What a neighbour, a site or a dropped frame's sender may count on, whatever the table says.
        ensures one_hop { IsOneHop frame.old result frame.new }
    {
        let top = frame.top();
        if top.ttl <= 1 {
            return Forwarded::Drop(Rule::TtlExpired);
        }
        let ttl = top.ttl - 1;
        match self.use_of(top.label) {
            None => Forwarded::Drop(Rule::NoEntry),
            Some(Use::Ended) => Forwarded::Drop(Rule::SiteGone),
            Some(Use::Fec(next_hop, label)) => to_next_hop(frame, next_hop, label, ttl),
            Some(Use::Site(site)) => to_site(frame, site, ttl),
        }
    }
}

/// Makes the place of a label, and those before it, without a use where they aren't there.
fn reach(uses: &mut Vec<Option<Use>>, label: u32) -> Result<(), AllocError>
    ensures there { OnOk result (label < length uses.new.items) }
    ensures kept { (other : ℕ) → slice_index_or uses.new.items other None ≡ slice_index_or uses.old.items other None }
    ensures missing { OnErr result (length uses.old.items ≤ label) }
    ensures unchanged { OnErr result (uses.new.items ≡ uses.old.items) }
{
    let place = label as usize;
    if place < uses.len() {
        return Ok(());
    }
    uses.resize(place + 1, None)
}

/// Sends a frame on with the next label, or without one.
fn to_next_hop(frame: &mut Frame, next_hop: NodeNo, label: u32, ttl: u8) -> Forwarded
    requires entry { 0 < length frame.old.entries }
    requires label { label < 2 ^ 20 }
    ensures leaves { LeavesWith ttl frame.old result frame.new }
    ensures cases { (result, frame.new) ≡ by_use (Some (Use.Fec next_hop label)) (length frame.old.entries == 1) ttl frame.old }
{
    if label != IMPLICIT_NULL {
        frame.swap(label, ttl);
        return Forwarded::Next(next_hop);
    }
    if frame.depth() == 1 {
        return Forwarded::Drop(Rule::NoEntry);
    }
    frame.pop();
    frame.set_top_ttl(ttl);
    Forwarded::Next(next_hop)
}

/// Hands the packet of a frame to a site, where nothing but the site's entry is before it.
fn to_site(frame: &mut Frame, site: SiteNo, ttl: u8) -> Forwarded
    requires { 0 < length frame.old.entries }
    ensures leaves { LeavesWith ttl frame.old result frame.new }
    ensures cases { (result, frame.new) ≡ by_use (Some (Use.Site site)) (length frame.old.entries == 1) ttl frame.old }
{
    if frame.depth() != 1 {
        return Forwarded::Drop(Rule::NoEntry);
    }
    frame.pop();
    frame.set_ip_ttl(ttl);
    Forwarded::Site(site)
}
