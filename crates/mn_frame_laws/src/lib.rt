//! Packets as label stacks, in the ledger's words. The ledger follows a packet as a token, without a label; a real node sees a
//! frame and its own label table. Here stands what both have to do with each other, and the laws that a node which forwards
//! the frame by its table does what the ledger says of the packet.
//!
//! ```text
//! ledger:  token --arrive--> token with one hop less, over a link
//!            | IsFrameOf       | IsFrameOf
//! node:    frame --forwarded-> next node and frame
//! ```
//!
//! - `specs/Given`: each node's labels after a journal (RFC 3031, section 3.14)
//! - `specs/Numbers`: which labels attachments have (RFC 3031, section 3.14)
//! - `specs/Attached`: which attachments have labels: those that announcements, routes and packets name
//! - `specs/Frames`: the frame of a packet that flies to a node (RFC 3032, sections 2.1 and 2.4)
//! - `specs/Tables`: a node's table stands for the ledger's world (RFC 3031, sections 3.10 and 3.11)
//! - `specs/Attachments`: how a table changes as a site is attached or detached
//! - `specs/Entries`: what an edge says of a packet that enters (RFC 4364, section 5)
//! - `specs/Departures`: what becomes of a packet that leaves its edge
//! - `specs/Arrivals`: what becomes of a packet by what its frame's forwarding answers
//! - `specs/Laws`: what holds of labels, and of frames as labels are given and given up
#![tactic(auto)]

ghost use Rattle.mn_frame_laws.specs.Arrivals.{IsForwardedAsTold};
ghost use Rattle.mn_frame_laws.specs.Attached.{GivesToEach, GivesToNoOther, AllHaveLabels, LeavesSound, AllAreSound};
ghost use Rattle.mn_frame_laws.specs.Attachments.{FollowsAttach, FollowsDetach};
ghost use Rattle.mn_frame_laws.specs.Departures.{LeavesAsTold, StaysAsTold};
ghost use Rattle.mn_frame_laws.specs.Entries.{IsByFate, FitsOrFalls};
ghost use Rattle.mn_frame_laws.specs.Laws.{MeansOne, AttachmentsStay, FramesStay, AsManyGiven, FramesKeepLabels, AllAreMapped, GivesByAttaching};
ghost use Rattle.mn_frame_laws.specs.Numbers.{GivesTheNext};

/// The frame of a packet that arrives at a node, forwarded by a table that stands for the ledger's world, becomes what
/// the ledger says of the packet: dropped by the same rule, delivered to the same site, or the next hop's frame.
#[tactic(auto, using(crate::proofs::Forwarding::forwarded_as_told))]
pub fn a_frame_is_forwarded_as_told()
    ensures { IsForwardedAsTold }
{}

/// What an edge pushes on a packet that is bound to another edge's route, with the label of the way out on top, is the
/// frame of the packet on its way to the next hop. One that stays is delivered one hop older.
pub fn what_leaves_is_its_frame()
    ensures leaves { LeavesAsTold }
    ensures stays { StaysAsTold }
{}

/// A packet that enters is dropped, delivered or sent by what the rules at entry and the best route say.
#[tactic(auto, using(crate::proofs::Entering::by_fate))]
pub fn an_entry_goes_by_fate()
    ensures { IsByFate }
{}

/// A packet that doesn't fall as it enters is good, and aged by one it is a packet with one hop less.
pub fn what_enters_is_fit()
    ensures { FitsOrFalls }
{}

/// A label means what it was given for, so none means two things.
#[tactic(auto, using(crate::proofs::Labels::means_one))]
pub fn a_label_means_one_thing()
    ensures { MeansOne }
{}

/// An attachment keeps its label, whatever happens.
#[tactic(auto, using(crate::proofs::Labels::attachments_stay))]
pub fn an_attachment_keeps_its_label()
    ensures { AttachmentsStay }
{}

/// Where the labels of a frame are kept, it is still that of its packet.
pub fn old_frames_stay()
    ensures { FramesStay }
{}

/// In no step does the frame of a packet on its way lose one of its labels, or get another.
pub fn flying_frames_keep_their_labels()
    ensures { FramesKeepLabels }
{}

/// Where a node can send towards an edge over another node, that one has a label for the edge.
#[tactic(auto, using(crate::proofs::Mapped::all_are_mapped))]
pub fn a_next_hop_has_a_label()
    ensures { AllAreMapped }
{}

/// The steps of links, views and LDP alone give labels to FECs: in all others a site that is attached is given one, and nothing else.
#[tactic(auto, using(crate::proofs::Unmoved::gives_by_attaching))]
pub fn a_label_is_given_to_what_is_attached()
    ensures { GivesByAttaching }
{}

/// The attachments that a node gave labels and the other nodes are as many as the ledger counts, so the ledger refuses an attachment
/// exactly where no label is left beside those of all FECs.
pub fn as_many_labels_are_given()
    ensures { AsManyGiven }
{}

/// A site that is attached anew has the label past the greatest that its edge gave.
#[tactic(auto, using(crate::proofs::Next::gives_the_next))]
pub fn an_attachment_has_the_next_label()
    ensures { GivesTheNext }
{}

/// A site's edge has given a label for each attachment of the site, and no node has for any other attachment.
pub fn each_attachment_has_a_label()
    ensures each { GivesToEach }
    ensures no_other { GivesToNoOther }
{}

/// Each announcement in a session's present life, and each route that a VRF holds, names an attachment that has a label
/// at its edge.
pub fn what_is_named_has_a_label()
    ensures { AllHaveLabels }
{}

/// A packet that leaves its edge is sound, and so is each packet on its way.
pub fn what_flies_is_sound()
    ensures leaves { LeavesSound }
    ensures flies { AllAreSound }
{}

/// A table that stands for the world goes on to stand for it as a site is attached or detached, where the site's label alone
/// is set or ended.
pub fn tables_follow_attachments()
    ensures attach { FollowsAttach }
    ensures detach { FollowsDetach }
{}
