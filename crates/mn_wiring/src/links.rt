//! A link's two ends, its figures, and its two directions.
ghost use Rattle.std.specs.Prelude.{◌≡◌};
ghost use Rattle.mn_wiring.specs.Wiring.{channel, dir_of};

use mn_base::{LinkNo, NodeNo};

/// A direction of a link.
#[derive(Clone, Copy, Debug, PartialEq, Eq)]
pub enum Dir {
    /// From the link's end `a` to its end `b`.
    Forth,
    /// From the link's end `b` to its end `a`.
    Back,
}

/// The two ends of a link, and its figures.
#[derive(Clone, Copy)]
pub struct LinkEnds {
    pub a: NodeNo,
    pub b: NodeNo,
    /// What a walk over the link costs, in either direction.
    pub cost: u32,
    /// Ticks from sending to receiving.
    pub delay: u32,
    /// In each direction, of so many frames the last is lost; 0 loses none.
    pub loss: u32,
    /// Ticks for which a frame may be on the link.
    pub life: u32,
}

/// The number of a direction of a link.
pub fn channel_of(link: LinkNo, dir: Dir) -> u32
    ensures { result ≡ channel link.0 dir }
{
    match dir {
        Dir::Forth => 2 * u32::from(link.0),
        Dir::Back => 2 * u32::from(link.0) + 1,
    }
}

/// The direction that has the number.
pub fn direction_of(channel: u32) -> Dir
    ensures { result ≡ dir_of channel }
{
    if channel % 2 == 0 {
        Dir::Forth
    } else {
        Dir::Back
    }
}
