//! What follows from the definitions.
ghost use Rattle.std.specs.Prelude.{◌≡◌, ℕ, true, List, Some, Ok, Err};
ghost use Rattle.mn_topo.specs.Network.{Network};
ghost use Rattle.mn_script.specs.declared.refusal.ScriptRule.{ScriptRule};
ghost use Rattle.mn_script.specs.declared.command.Line.{Line};
ghost use Rattle.mn_topo.specs.Lawful.{IsLawful};
ghost use Rattle.mn_script.specs.declared.command.Command.{Command};
ghost use Rattle.mn_script.specs.Lines.{line_says, command_fits};
ghost use Rattle.mn_script.specs.Spelled.{command_words, IsCommand, AskFor};
ghost use Rattle.mn_script.specs.Script.{script_of};
ghost use Rattle.mn_script.specs.Firsts.{number_at, IsFirstRefused, AllAreRead, commands_in};

/// A script is refused with the number and the rule of its first refused line.
#[tactic(auto, using(crate::proofs::FirstsOf::refused_first, crate::proofs::FirstsOf::first_refused))]
pub fn first_refused()
    ensures so { (network : Network) (bytes : List ℕ) (k : ℕ) (rule : ScriptRule) → IsFirstRefused network bytes k rule → script_of network bytes ≡ Err (rule, number_at k) }
    ensures only { (network : Network) (bytes : List ℕ) (rule : ScriptRule) (number : ℕ) → script_of network bytes ≡ Err (rule, number) → (k : ℕ) × (IsFirstRefused network bytes k rule × (number ≡ number_at k)) }
{}

/// Where no line is refused, a script is the commands of its lines, in order and with their numbers.
#[tactic(auto, using(crate::proofs::FirstsOf::read_whole, crate::proofs::FirstsOf::all_are_read))]
pub fn all_read()
    ensures so { (network : Network) (bytes : List ℕ) → AllAreRead network bytes → script_of network bytes ≡ Ok (commands_in network bytes) }
    ensures only { (network : Network) (bytes : List ℕ) (script : List Line) → script_of network bytes ≡ Ok script → AllAreRead network bytes }
{}

/// The words of a command are read as the command.
#[tactic(auto, using(crate::proofs::Again::command_again))]
pub fn command_again()
    ensures { (network : Network) (asked : Command) → IsLawful network → command_fits network asked ≡ true → IsCommand asked → line_says network (command_words network asked) ≡ Ok (Some asked) }
{}

/// What is read as a command is the command's words, where the order of two nodes may be the other one if it
/// says nothing.
#[tactic(auto, using(crate::proofs::Only::command_only))]
pub fn command_only()
    ensures { (network : Network) (words : List (List ℕ)) (asked : Command) → line_says network words ≡ Ok (Some asked) → AskFor network words asked }
{}
