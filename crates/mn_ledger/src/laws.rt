//! Laws of the definitions, each the contract of a function that does nothing.
ghost use Rattle.std.specs.Prelude.{ℕ, ◌≡◌, ◌≢◌, ◌<◌, true, false, List, [], length, Some};
ghost use Rattle.mn_ledger.specs.declared.refused.Refused.TheVariants.{NoMemory};
ghost use Rattle.mn_ledger.specs.Prelude.{IsLeast, View, next, IsLawful, Network, wiring_of, fits, JournalEntry, Step};
ghost use Rattle.mn_ledger.specs.Prelude.{Config, Packets, World, IsLawfulJournal, config_after, held, known, packets_of, world_of};
ghost use Rattle.mn_ledger.specs.Prelude.{flight_of, made_by, is_unchanged, refusal_at, injections, known_after, said_by};
ghost use Rattle.mn_ledger.specs.Prelude.{AreInOnePlace, GoesOnByOneStep, HasRows, IsBounded, IsByLastSteps, IsFairChoice, IsInFlight, IsInTurn, IsNearer};
ghost use Rattle.mn_ledger.specs.Prelude.{IsTidy, KeepsOtherParts, NamesTheBest, TellsOneKind};

/// Each packet that was injected has one verdict and one path, and flies in exactly one place where its verdict says so,
/// and in none otherwise. It holds of every journal, lawful or not.
pub fn packets_are_in_one_place()
    ensures { (topology : Network) (entries : List JournalEntry) (inputs : List (List ℕ)) →
        AreInOnePlace (packets_of topology entries inputs) (injections entries) }
{}

/// A step leaves the parts of the world that it isn't of as they were; of packets, that nothing is delivered in it. So what
/// a node knows, and where it can send, changes only by steps of links and LDP; and what an edge exports and a VRF holds
/// only by steps of routes and BGP.
pub fn a_step_keeps_other_parts()
    ensures { (topology : Network) (world : World) (packets : Packets) (step : Step) (bytes : List ℕ) →
        KeepsOtherParts topology world packets step bytes }
{}

/// What is configured is what the last step that named it made it, and changes, learned changes and attachments, those of
/// detached sites too, are counted over the journal.
pub fn last_steps_decide()
    ensures { (topology : Network) (entries : List JournalEntry) → IsByLastSteps topology entries }
{}

/// After a lawful journal nobody has received more than was sent, nor learned more than was changed; a session
/// without a life has sent nothing; and what each end says goes by the state tables of LDP and BGP.
pub fn sessions_are_in_turn()
    ensures { (topology : Network) (entries : List JournalEntry) (inputs : List (List ℕ)) →
        IsLawful topology → IsLawfulJournal topology entries inputs → IsInTurn topology (world_of topology entries) }
{}

/// Where sessions are in turn, the table of an end's state has a row for the message that it receives next.
pub fn every_message_has_a_row()
    ensures { (topology : Network) (world : World) → IsLawful topology → IsInTurn topology world → HasRows topology world }
{}

/// A node that knows after a step's change of links, switches and counts what it knew before says nothing in the step.
pub fn who_learns_nothing_says_nothing()
    ensures { (topology : Network) (world : World) (step : Step) (node : ℕ) →
        fits topology step ≡ true → is_unchanged world.config step ≡ false →
        known topology world node ≡ known_after topology world step node → said_by topology world step node ≡ [] }
{}

/// From the next hop towards a node the least cost is less than from the node before it.
pub fn the_next_hop_is_nearer()
    ensures { (topology : Network) (view : View) (from to cost : ℕ) (hop : ℕ × ℕ) →
        IsLawful topology → from < length topology.loopbacks → from ≢ to →
        next (wiring_of topology) view from to ≡ Some hop → IsLeast (wiring_of topology) view from to cost →
        IsNearer (wiring_of topology) view hop.0 to cost }
{}

/// After a lawful journal each channel of notices or messages holds the last that was made for it, with its number and due
/// tick: what wasn't learned or received yet. A link holds a frame for each packet that flies on it.
pub fn what_flies_has_not_arrived()
    ensures { (topology : Network) (entries : List JournalEntry) (inputs : List (List ℕ)) →
        IsLawful topology → IsLawfulJournal topology entries inputs →
        IsInFlight topology (world_of topology entries) (packets_of topology entries inputs) (made_by topology entries inputs) (flight_of topology entries inputs) }
{}

/// After a lawful journal, of the routes that a VRF holds `best` names the one that is best for an address, and none
/// exactly where no prefix contains it: no two are best (RFC 1812, section 5.2.4.3).
pub fn best_names_one_held_route()
    ensures { (topology : Network) (entries : List JournalEntry) (inputs : List (List ℕ)) (edge v address : ℕ) →
        IsLawful topology → IsLawfulJournal topology entries inputs →
        NamesTheBest (held topology (world_of topology entries).config (world_of topology entries).peerings edge v) address }
{}

/// After a lawful journal the route by which a packet goes is one of those that its VRF holds, the best of them where the edge can send to that one's edge; and,
/// where the topology says `resolve`, one to which it can send if any that contains the address is.
pub fn the_choice_is_fair()
    ensures { (topology : Network) (entries : List JournalEntry) (inputs : List (List ℕ)) (edge v address : ℕ) →
        IsLawful topology → IsLawfulJournal topology entries inputs →
        IsFairChoice topology (world_of topology entries) edge v address }
{}

/// Of an edge's exports a step makes some go, or makes some come or change, and never both: so what the edge tells of them
/// stands in the order of VRF and prefix. It holds of every step, refused or not.
pub fn a_step_withdraws_or_announces()
    ensures { (topology : Network) (config : Config) (step : Step) (edge : ℕ) → TellsOneKind topology config (config_after config step) edge }
{}

/// What a journal with one entry more makes is what the journal made, and one step more; and it is lawful exactly where the
/// journal is, the step fits, the clock doesn't go back, and nothing refuses the step.
pub fn one_entry_more()
    ensures { (topology : Network) (entries : List JournalEntry) (inputs : List (List ℕ)) (entry : JournalEntry) (bytes : List ℕ) →
        length inputs ≡ injections entries → GoesOnByOneStep topology entries inputs entry bytes }
{}

/// After a lawful journal sets of targets ascend, no two statics of one VRF have one prefix, exports stand in their order,
/// each once, and no two routes that a VRF holds have one prefix and one source.
pub fn lists_are_tidy()
    ensures { (topology : Network) (entries : List JournalEntry) (inputs : List (List ℕ)) →
        IsLawful topology → IsLawfulJournal topology entries inputs → IsTidy topology (world_of topology entries) }
{}

/// A lawful journal has at most 4,000,000 entries, and so 32 bits count the changes of a link and the messages that an end
/// says in one life of a session.
pub fn journals_are_bounded()
    ensures { (topology : Network) (entries : List JournalEntry) (inputs : List (List ℕ)) →
        IsLawful topology → IsLawfulJournal topology entries inputs → IsBounded topology entries }
{}

/// The ledger refuses no step because memory ran out.
pub fn memory_refuses_nothing()
    ensures { (topology : Network) (world : World) (packets : Packets) (count : ℕ) (step : Step) (bytes : List ℕ) →
        refusal_at topology world packets count step bytes ≢ Some NoMemory }
{}
