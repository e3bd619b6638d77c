ghost use Rattle.std.specs.Prelude.{◌≡◌, ℕ, List, Ok};
ghost use Rattle.std.specs.List.{Contains};
ghost use Rattle.mn_ledger.specs.Prelude.{NodeNo, Network, IsLawful, JournalEntry, World, Telling, IsInTurn, world_of, IsLawfulJournal};
ghost use Rattle.mn_bgp_wire.specs.Grammar.{IsBgp};
ghost use Rattle.mn_bgp_wire.specs.Reading.{message_of};
ghost use Rattle.mn_bgp_spelling_laws.specs.Spelling.{Labels, message_in, bytes_in, IsWritable};
ghost use Rattle.mn_bgp_spelling_laws.specs.TwoEdges.{TwoEdgesTalk};
ghost use Rattle.mn_bgp_spelling_laws.specs.Laws.{IsComing, IsTaken, GoesOn, RepliesByTheTable, AreLabels};

/// What is sent is the message that its bytes spell, and is read as it.
pub fn what_is_told_is_read()
    ensures spelled { (topology : Network) (labels : Labels) (teller : ℕ) (telling : Telling) →
        IsLawful topology → IsWritable topology labels telling → IsBgp (bytes_in topology labels teller telling) (message_in topology labels teller telling) }
    ensures read { (topology : Network) (labels : Labels) (teller : ℕ) (telling : Telling) →
        IsLawful topology → IsWritable topology labels telling → message_of (bytes_in topology labels teller telling) ≡ Ok (message_in topology labels teller telling) }
{}

/// Where sessions are in turn, as they are after every lawful journal, the session takes the message that comes next, goes on
/// by the table, and what is sent back is what the table says.
pub fn what_comes_is_taken()
    ensures taken { (topology : Network) (labels : Labels) (world : World) (edge peer : ℕ) →
        IsLawful topology → IsInTurn topology world → IsComing world edge peer → IsTaken topology labels world edge peer }
    ensures goes_on { (topology : Network) (labels : Labels) (world : World) (peer edge : NodeNo) →
        IsLawful topology → IsInTurn topology world → IsComing world edge.0 peer.0 → GoesOn topology labels world peer edge }
    ensures replies { (topology : Network) (world : World) (edge peer : ℕ) →
        IsLawful topology → IsInTurn topology world → IsComing world edge peer → RepliesByTheTable topology world edge peer }
{}

/// Everything that was sent after a lawful journal can be written, whatever labels of 20 bits the attachments have.
pub fn what_is_told_can_be_written()
    ensures { (topology : Network) (labels : Labels) (entries : List JournalEntry) (inputs : List (List ℕ)) (teller peer : ℕ) (telling : Telling) →
        IsLawful topology → AreLabels labels → IsLawfulJournal topology entries inputs →
        Contains ((world_of topology entries).peerings.told teller peer) telling → IsWritable topology labels telling }
{}

/// Two edges open their session: what the laws above ask is met there, and the OPEN, KEEPALIVE and UPDATE of the first to the
/// second are worked byte by byte, 138 bytes in all.
#[tactic(auto, using(crate::proofs::TwoEdges::they_talk))]
pub fn two_edges_talk()
    ensures { TwoEdgesTalk }
{}
