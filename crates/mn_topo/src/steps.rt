//! The steps that a network is moved by.

use mn_prefix::Prefix;
use mn_wiring::{Dir, LinkNo, NodeNo, Rt, SiteNo, VrfNo};

/// A step of the network.
#[derive(Clone, Copy, Debug, PartialEq, Eq)]
pub enum Step {
    /// The link comes up.
    LinkUp(LinkNo),
    /// The link goes down.
    LinkDown(LinkNo),
    /// The node learns of the link's state.
    Learn(NodeNo, LinkNo),
    /// LDP is switched on or off for the link.
    LdpAdmin(LinkNo, bool),
    /// The link's receiving end receives the first LDP message of the direction.
    HearLdp(LinkNo, Dir),
    /// The BGP session of two edges comes up, the lesser number first.
    BgpUp(NodeNo, NodeNo),
    /// The BGP session of two edges goes down, the lesser number first.
    BgpDown(NodeNo, NodeNo),
    /// The second edge receives the first BGP message that the first one sent to it.
    HearBgp(NodeNo, NodeNo),
    /// The site's VRF has the prefix over the site.
    AddRoute(SiteNo, Prefix),
    /// It has it no longer.
    DelRoute(SiteNo, Prefix),
    /// The VRF imports routes that have the target, or no longer does. The flag stands before the target, so that a step takes 16 bytes.
    Import(VrfNo, bool, Rt),
    /// The VRF's routes have the target, or no longer do.
    Export(VrfNo, bool, Rt),
    /// The site is attached.
    Attach(SiteNo),
    /// The site is detached.
    Detach(SiteNo),
    /// The packet of a record of the capture, numbered from 1, enters at the site.
    Inject(SiteNo, u32),
    /// The frame at a place, from 0, among those in flight in the direction arrives.
    Carry(LinkNo, Dir, u32),
    /// The frame at a place, from 0, among those in flight in the direction is lost.
    Lose(LinkNo, Dir, u32),
    /// So many ticks go by, from 1 to 1,000,000. By it each frame ends that was sent on its link longer ago than the link's life.
    Tick(u32),
}

/// A message of a session that was damaged on its way: the packet of a record of the capture, numbered from 1, came in its place,
/// and its reader refused that. The session ended at both ends.
#[derive(Clone, Copy, Debug, PartialEq, Eq)]
pub enum Damage {
    /// The first LDP message of the direction.
    Ldp(LinkNo, Dir, u32),
    /// The first BGP message that the first edge sent to the second one.
    Bgp(NodeNo, NodeNo, u32),
}

/// Whether a damaged message made the step, which ends its session: the packet of the record of this number came in the message's
/// place. One enum and no `Option`, so that it takes 8 bytes.
#[derive(Clone, Copy, Debug, PartialEq, Eq)]
pub enum Damaged {
    /// No message was damaged.
    Undamaged,
    /// One that came from the link's end `a`, or from the edge of lesser number.
    Forth(u32),
    /// One that came from the link's end `b`, or from the edge of greater number.
    Back(u32),
}

/// A step that was done, and when; and where a damaged message made it, which one. It takes 32 bytes: a journal may have 4,000,000.
#[derive(Clone, Copy, Debug, PartialEq, Eq)]
pub struct JournalEntry {
    pub tick: u64,
    pub step: Step,
    pub damaged: Damaged,
}

const _: () = prove!(size_of::<JournalEntry>() == 32);
