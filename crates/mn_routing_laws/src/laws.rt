//! What follows from the definitions of `specs/`, each as the contract of a function that does nothing.
ghost use Rattle.mn_routing_laws.specs.Laws.{AllFindTheBest, AllExportAlike};
ghost use Rattle.mn_routing_laws.specs.Changes.{GoByParts, TellsWhatIsTouched};
ghost use Rattle.mn_routing_laws.specs.Steps.{StayAsTheyWere};

/// After every lawful journal the route that an edge finds is the ledger's best, and what it exports is what the ledger
/// says.
pub fn an_edge_stands_for_the_ledger()
    ensures best { AllFindTheBest }
    ensures exports { AllExportAlike }
{}

/// With one step more the routes of a network are those of before with what the step changes: the session of two edges, the
/// next message received, or one thing that one edge is told.
pub fn a_step_changes_its_parts()
    ensures { GoByParts }
{}

/// What is told in a step of the exports that change is told of those that the step touches: a prefix, a site or a VRF.
pub fn a_step_tells_what_it_touches()
    ensures { TellsWhatIsTouched }
{}

/// After a step that isn't one of the routes they stand as they did.
pub fn routes_stay_as_they_were()
    ensures { StayAsTheyWere }
{}
