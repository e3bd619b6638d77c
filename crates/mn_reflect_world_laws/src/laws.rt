// What follows from the definitions.
ghost use Rattle.mn_reflect_world_laws.specs.Laws.{KeepsWhatIsAnnounced, LettersAreWords, TakesInWhatIsHeard, ForgetsAsSessionsTurn};
ghost use Rattle.mn_reflect_world_laws.specs.AtRest.{ComeToRest};
ghost use Rattle.mn_reflect_world_laws.specs.Onward.{GoesOn, Starts, FindsWhatIsReflected, FindsAsInAFullMesh};

/// What a node keeps of a route is the last mention that it received from each peer, where that is an announcement and the session lives.
pub fn a_node_keeps_what_is_announced()
    ensures { KeepsWhatIsAnnounced }
{}

/// What flies as letters is what was sent: so is the first of a direction, what is left once it is taken, and what is left between all other
/// nodes once a session begins or ends.
pub fn letters_are_what_is_said()
    ensures { LettersAreWords }
{}

/// As a node receives a word of a peer in a living session, what it keeps of that peer takes the word in, and what any node keeps of any other
/// peer stays.
pub fn a_node_takes_in_what_it_hears()
    ensures { TakesInWhatIsHeard }
{}

/// As a session of two nodes begins or ends, each forgets what it received from the other, and what any node keeps of any other peer stays.
pub fn two_nodes_forget_as_their_session_turns()
    ensures { ForgetsAsSessionsTurn }
{}

/// At the start what is kept stands for no steps.
pub fn at_the_start_it_stands_for_no_steps()
    ensures { Starts }
{}

/// Where what is kept stands for the steps of a lawful run, what one more step makes of it stands for the steps with that one.
pub fn what_a_step_makes_stands_for_the_steps()
    ensures { GoesOn }
{}

/// After each lawful run a VRF finds, for an address and for a prefix, the best of its own routes and of those that it imports of what
/// the reflectors announce.
pub fn each_vrf_finds_what_is_reflected()
    ensures { FindsWhatIsReflected }
{}

/// Where no message flies, each edge has a living session with a reflector and reflectors have one with each other, each VRF finds what
/// a full mesh of sessions gives it.
pub fn where_none_flies_each_vrf_finds_as_in_a_full_mesh()
    ensures { FindsAsInAFullMesh }
{}

/// Two edges with a reflector between them come to rest by steps that are taken and not refused, so that what the last law says is of some
/// runs.
pub fn two_edges_come_to_rest()
    ensures { ComeToRest }
{}
