//! Labels of FECs that are used again (RFC 3031, section 3.14): what has to hold before a label may mean another FEC, and why no
//! message and no frame then goes by the old meaning.
//!
//! A node gives a FEC a label as it first offers it. When it ceases to offer the FEC, the label rests, and stays the FEC's; it is
//! free once every neighbour that was sent the label has released it (or the session with that neighbour has ended), and a frame
//! that was sent meanwhile can't fly any more.
//!
//! ```text
//!             offers p             withdraws p                    the last Release is received  longer than a frame may fly
//!   no label ----------> offered ---------------> rests, owed ----------------------------> at rest -----------------> free
//!                           ^                         |                                        |                        |
//!                           +-------------------------+----------- offers p again -------------+                        v
//!                                                                                                        another FEC may have it
//! ```
//!
//! - `specs/Answers`: each Withdraw is in flight, or its Release is, or that was received (RFC 5036, sections 3.5.10 and 3.5.11)
//! - `specs/Resting`: when a FEC is at rest at a node, and since when
//! - `specs/Labels`: which labels a node has given, and which its FECs have, by the journal
//! - `specs/Relabelled`: a node whose neighbours' FECs have other labels
//! - `specs/Laws`: what holds of them
//!
//! Each law here is the contract of a function that does nothing; `proofs/Witness` and `proofs/Runs` show that what the laws ask is met.
#![tactic(auto)]

ghost use Rattle.std.specs.Prelude.{ℕ, ◌≡◌, ◌≢◌, ◌<◌, List, [], ◌∷◌, ◌++◌, length, true, None};
ghost use Rattle.mn_ledger.specs.Prelude.{Wiring, is_end, Network, wiring_of, IsLawful, fits, JournalEntry, Node, Event, world_of, packets_of, IsLawfulJournal, refusal_at};
ghost use Rattle.mn_reuse_laws.specs.Answers.{AreAnswered};
ghost use Rattle.mn_reuse_laws.specs.Relabelled.{Labelling, GoesAlike, IsRelabelledAlike, GoesWithItsLabels};
ghost use Rattle.mn_reuse_laws.specs.Laws.{AreSound, KeepsItsLabel, ChangesOnceFree, KeepsWhatIsSaid, RestsByTurns, BlocksTheWay, AreForgotten};
ghost use Rattle.mn_reuse_laws.specs.Laws.{WereSentBefore, FramesKeepTheirLabels};

// 1. Answers and rest

/// After a lawful journal, of each FEC the mentions that an end of a session sent come by turns, a Mapping first, and where the
/// end is OPERATIONAL the last one is a Mapping exactly where its node offers the FEC; and each Withdraw is in flight, or its
/// Release is, or that was received. So the other end keeps no label of a FEC that isn't offered and of which every Release was
/// received.
pub fn each_withdraw_is_answered()
    ensures { (topology : Network) (entries : List JournalEntry) (inputs : List (List ℕ)) →
        IsLawful topology → IsLawfulJournal topology entries inputs → AreAnswered topology (world_of topology entries) }
{}

/// A FEC comes to rest at a node only in a step that ends its offer, brings a Release of it, or ends a session in which the node was
/// OPERATIONAL, and rests until the node offers it.
pub fn a_fec_rests_between_offers()
    ensures { (topology : Network) (entries : List JournalEntry) (inputs : List (List ℕ)) →
        IsLawful topology → IsLawfulJournal topology entries inputs → RestsByTurns topology entries inputs }
{}

/// Where a FEC is at rest at a node, no neighbour keeps a label of it from the node, and no mention of it by the node and no Release of
/// it to the node flies.
pub fn what_rests_is_forgotten()
    ensures { (topology : Network) (entries : List JournalEntry) (inputs : List (List ℕ)) →
        IsLawful topology → IsLawfulJournal topology entries inputs → AreForgotten topology (world_of topology entries) }
{}

/// Where a FEC is at rest at a node, no neighbour can send towards it over the node.
pub fn nobody_sends_over_a_node_at_which_a_fec_rests()
    ensures { (topology : Network) (entries : List JournalEntry) (inputs : List (List ℕ)) →
        IsLawful topology → IsLawfulJournal topology entries inputs → BlocksTheWay topology (world_of topology entries) }
{}

// 2. Labels

/// After a lawful journal no label of a node means two things, and each FEC that isn't at rest has one.
pub fn no_label_means_two_things()
    ensures { (topology : Network) (entries : List JournalEntry) (inputs : List (List ℕ)) (node : ℕ) → node < length topology.loopbacks →
        IsLawful topology → IsLawfulJournal topology entries inputs → AreSound topology entries node }
{}

/// A FEC keeps its label in a step, unless it was free before it. It holds of every journal, lawful or not.
pub fn a_label_stays_until_it_is_free()
    ensures { (topology : Network) (entries : List JournalEntry) (entry : JournalEntry) (node : ℕ) → KeepsItsLabel topology entries entry node }
{}

/// A label that a FEC had before a lawful step means something else after it only where the FEC was free: the node didn't offer it,
/// every neighbour that was sent the label had released it or its session had ended, and since the last of these more ticks had
/// passed than a frame may fly on any link of the node.
pub fn a_label_changes_its_meaning_only_once_free()
    ensures { (topology : Network) (entries : List JournalEntry) (inputs : List (List ℕ)) (entry : JournalEntry) (node : ℕ) →
        node < length topology.loopbacks → IsLawful topology → IsLawfulJournal topology (entries ++ entry ∷ []) inputs →
        ChangesOnceFree topology entries entry node }
{}

/// In a step a FEC keeps its label where the other end of a link keeps it, or a mention of it by the node or a Release of it to the
/// node flies.
pub fn what_is_said_keeps_its_label()
    ensures { (topology : Network) (entries : List JournalEntry) (inputs : List (List ℕ)) (entry : JournalEntry) (node fec l : ℕ) →
        IsLawful topology → IsLawfulJournal topology entries inputs → node < length topology.loopbacks → fec < length topology.loopbacks → fec ≢ node →
        l < length topology.links → is_end (wiring_of topology) l node ≡ true → KeepsWhatIsSaid topology entries entry node fec l }
{}

// 3. Nodes

/// A node of the world before a step, with the labels that FECs have before it, is the same with those that they have after it.
pub fn a_node_before_a_step_has_the_labels_after_it()
    ensures { (topology : Network) (entries : List JournalEntry) (inputs : List (List ℕ)) (entry : JournalEntry) (node : ℕ) →
        IsLawful topology → IsLawfulJournal topology entries inputs → IsRelabelledAlike topology entries entry node }
{}

/// In a lawful step a node with the labels that FECs have before it becomes the node with those that they have after it, and says
/// what the ledger says of it.
pub fn a_node_goes_with_its_labels()
    ensures { (topology : Network) (entries : List JournalEntry) (inputs : List (List ℕ)) (entry : JournalEntry) (count : ℕ)
        (bytes : List ℕ) (node : ℕ) → IsLawful topology → IsLawfulJournal topology entries inputs → fits topology entry.step ≡ true →
        refusal_at topology (world_of topology entries) (packets_of topology entries inputs) count entry.step bytes ≡ None →
        node < length topology.loopbacks → GoesWithItsLabels topology entries entry node }
{}

/// What a node knows, says and becomes goes by which FECs have labels, and not by which labels these are.
pub fn a_node_goes_by_mappings_and_not_by_labels()
    ensures { (wiring : Wiring) (given : Labelling) (node : Node) (event : Event) → GoesAlike wiring given node event }
{}

// 4. Frames

/// After a lawful journal each frame that flies to a node at which its FEC is at rest was sent at or before the tick at which the FEC
/// came to rest.
pub fn frames_were_sent_before_the_rest()
    ensures { (topology : Network) (entries : List JournalEntry) (inputs : List (List ℕ)) →
        IsLawful topology → IsLawfulJournal topology entries inputs → WereSentBefore topology entries inputs }
{}

/// In no step does a frame's FEC get another label at the node to which the frame flies.
pub fn frames_keep_their_labels()
    ensures { (topology : Network) (entries : List JournalEntry) (inputs : List (List ℕ)) (entry : JournalEntry) →
        IsLawful topology → IsLawfulJournal topology entries inputs → FramesKeepTheirLabels topology entries inputs entry }
{}
