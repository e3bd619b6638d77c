ghost use Rattle.std.specs.Prelude.{◌≡◌, ◌≤◌, ◌<◌, ◌+◌, ◌∷◌, ◌++◌, [], ℕ, List, None, length, map, slice_index_or, option_map, OnOk};
ghost use Rattle.std.specs.List.{flat_map};
ghost use Rattle.mn_lsr.specs.Prelude.{joining, JoinsNodes, own_labels, pdu, said_on};
ghost use Rattle.mn_labels.specs.Labels.{Labels as NodeLabels};
ghost use Rattle.mn_lsr.specs.Message.{meaning, NamesNode, HasLabel};
ghost use Rattle.mn_lsr.specs.Telling.{said_by_tell, message_of, MayBring, MayTell, other_end, AreLinks};
ghost use Rattle.mn_lsr.specs.Said.{pdu_of};
ghost use Rattle.mn_lsr.specs.Parts.{pdus_by, ends_after, said_in, one_more, bumped, NumbersFit};

use crate::links::link_to;
use crate::message::{Message, pdu_bytes};
use crate::own_ends::Sessions;
use crate::parts::Open;
use crate::said::Said;
use mn_base::{LinkNo, NodeNo};
use mn_bindings::{Tell, TellKind};
use mn_labels::Labels;
use mn_wiring::LinkEnds;
use std::alloc::{AllocError, Global};

/// The other end of a link.
pub(crate) fn across(link: &LinkEnds, me: NodeNo) -> NodeNo
    ensures { result.0 ≡ other_end link.now me.0 }
{
    if link.a == me { link.b } else { link.a }
}

/// A node that says something: what its messages are made of, and the links to its neighbours. A Release brings the label that was
/// withdrawn.
#[derive(Clone, Copy)]
pub(crate) struct Speaker<'a> {
    pub alloc: Global,
    pub me: NodeNo,
    pub loopbacks: &'a [u32],
    pub ends: &'a [LinkEnds],
    /// By neighbour.
    pub links: &'a [Option<LinkNo>],
    /// Those that it gave.
    pub labels: &'a Labels,
    pub withdrawn: u32,
}

/// Says a message on a link, with the next number of the session there, and counts it.
pub(crate) fn say(
    speaker: &Speaker,
    link: LinkNo,
    message: Message,
    sessions: &mut Sessions,
    out: &mut Vec<Said>,
) -> Result<(), AllocError>
    requires few { length speaker.now.loopbacks.now ≤ 256 }
    requires me { speaker.now.me.0 < length speaker.now.loopbacks.now }
    requires joins { JoinsNodes (record { loopbacks = speaker.now.loopbacks.now; ends = speaker.now.ends.now }) }
    requires there { link.0 < length speaker.now.ends.now }
    requires one_each { length sessions.old.items ≡ length speaker.now.ends.now }
    requires fec { NamesNode (length speaker.now.loopbacks.now) message }
    requires label { HasLabel speaker.now.me.0 speaker.now.labels.now.labels speaker.now.withdrawn message }
    requires numbers { NumbersFit sessions.old.items (length out.old.items) }
    ensures said { OnOk result (map pdu_of out.new.items ≡ map pdu_of out.old.items ++ pdu (record { loopbacks = speaker.now.loopbacks.now; ends = speaker.now.ends.now }) link.0 speaker.now.me.0 (own_labels speaker.now.me.0 speaker.now.labels.now.labels) speaker.now.withdrawn
        (said_in (slice_index_or sessions.old.items link.0 None) + 1) (meaning message) ∷ []) }
    ensures counted { OnOk result (sessions.new.items ≡ bumped sessions.old.items link.0) }
{
    let at = usize::from(link.0);
    let far = across(&speaker.ends[at], speaker.me);
    let end = sessions.get(link);
    let number = said_at(end) + 1;
    let bytes = pdu_bytes(speaker, far, number, message)?;
    out.push(Said { link, bytes })?;
    sessions.set(link, one_more(end))
}

/// How much was sent at an end.
fn said_at(end: Option<Open>) -> u64
    ensures { result ≡ said_in end }
{
    match end {
        None => 0,
        Some(open) => open.said,
    }
}

/// The end once one message more is sent there.
fn one_more(end: Option<Open>) -> Option<Open>
    requires { said_in end < 18446744073709551615 }
    ensures { result ≡ option_map one_more end }
{
    match end {
        None => None,
        Some(open) => Some(Open {
            session: open.session,
            said: open.said + 1,
        }),
    }
}

/// Says a message to a neighbour, on the link that joins it.
pub(crate) fn say_to(
    speaker: &Speaker,
    to: NodeNo,
    message: Message,
    sessions: &mut Sessions,
    out: &mut Vec<Said>,
) -> Result<(), AllocError>
    requires few { length speaker.now.loopbacks.now ≤ 256 }
    requires me { speaker.now.me.0 < length speaker.now.loopbacks.now }
    requires joins { JoinsNodes (record { loopbacks = speaker.now.loopbacks.now; ends = speaker.now.ends.now }) }
    requires links { AreLinks (record { loopbacks = speaker.now.loopbacks.now; ends = speaker.now.ends.now }) speaker.now.me.0 speaker.now.links.now }
    requires one_each { length sessions.old.items ≡ length speaker.now.ends.now }
    requires fec { NamesNode (length speaker.now.loopbacks.now) message }
    requires label { HasLabel speaker.now.me.0 speaker.now.labels.now.labels speaker.now.withdrawn message }
    requires numbers { NumbersFit sessions.old.items (length out.old.items) }
    ensures said { OnOk result (map pdu_of out.new.items ≡ map pdu_of out.old.items ++ pdus_by (record { loopbacks = speaker.now.loopbacks.now; ends = speaker.now.ends.now }) speaker.now.me.0 (own_labels speaker.now.me.0 speaker.now.labels.now.labels) speaker.now.withdrawn sessions.old.items
        (flat_map (λ l. said_on l speaker.now.me.0 (meaning message ∷ [])) (joining (record { loopbacks = speaker.now.loopbacks.now; ends = speaker.now.ends.now }) speaker.now.me.0 to.0))) }
    ensures counted { OnOk result (sessions.new.items ≡ ends_after sessions.old.items
        (flat_map (λ l. said_on l speaker.now.me.0 (meaning message ∷ [])) (joining (record { loopbacks = speaker.now.loopbacks.now; ends = speaker.now.ends.now }) speaker.now.me.0 to.0))) }
{
    match link_to(speaker.links, to) {
        None => Ok(()),
        Some(link) => say(speaker, link, message, sessions, out),
    }
}

/// The message that a tell asks for.
fn message_of(tell: &Tell) -> Message
    ensures meaning { meaning result ≡ message_of tell.now.kind tell.now.fec.0 }
    ensures label { (me : ℕ) (labels : NodeLabels) (withdrawn : ℕ) → MayBring me labels withdrawn tell.now.kind tell.now.fec.0 → HasLabel me labels withdrawn result }
    ensures fec { (nodes : ℕ) → tell.now.fec.0 < nodes → NamesNode nodes result }
{
    match tell.kind {
        TellKind::Map => Message::Mapping(tell.fec),
        TellKind::Withdraw => Message::Withdraw(tell.fec),
        TellKind::Release => Message::Release(tell.fec),
    }
}

/// Says what must be sent, each tell on the link to its neighbour.
pub(crate) fn say_all(
    speaker: &Speaker,
    tells: &[Tell],
    sessions: &mut Sessions,
    out: &mut Vec<Said>,
) -> Result<(), AllocError>
    requires few { length speaker.now.loopbacks.now ≤ 256 }
    requires me { speaker.now.me.0 < length speaker.now.loopbacks.now }
    requires joins { JoinsNodes (record { loopbacks = speaker.now.loopbacks.now; ends = speaker.now.ends.now }) }
    requires links { AreLinks (record { loopbacks = speaker.now.loopbacks.now; ends = speaker.now.ends.now }) speaker.now.me.0 speaker.now.links.now }
    requires one_each { length sessions.old.items ≡ length speaker.now.ends.now }
    requires may { MayTell (length speaker.now.loopbacks.now) speaker.now.me.0 speaker.now.labels.now.labels speaker.now.withdrawn tells.now }
    requires numbers { NumbersFit sessions.old.items (length out.old.items) }
    ensures said { OnOk result (map pdu_of out.new.items ≡ map pdu_of out.old.items ++ pdus_by (record { loopbacks = speaker.now.loopbacks.now; ends = speaker.now.ends.now }) speaker.now.me.0 (own_labels speaker.now.me.0 speaker.now.labels.now.labels) speaker.now.withdrawn sessions.old.items
        (flat_map (said_by_tell (record { loopbacks = speaker.now.loopbacks.now; ends = speaker.now.ends.now }) speaker.now.me.0) tells.now)) }
    ensures counted { OnOk result (sessions.new.items ≡ ends_after sessions.old.items (flat_map (said_by_tell (record { loopbacks = speaker.now.loopbacks.now; ends = speaker.now.ends.now }) speaker.now.me.0) tells.now)) }
{
    for tell in tells {
        let message = message_of(tell);
        say_to(speaker, tell.to, message, sessions, out)?;
    }
    Ok(())
}
