//! What holds of each script, whatever its lines: laws of the definitions.
ghost use Rattle.std.specs.Prelude.{List};
ghost use Rattle.mn_topo.specs.Network.{Network};
ghost use Rattle.mn_topo.specs.Lawful.{IsLawful};
ghost use Rattle.mn_flood_run.specs.declared.command.FloodLine.{FloodLine};
ghost use Rattle.mn_flood_run.specs.Report.{course_of};
ghost use Rattle.mn_flood_run.specs.Laws.{AllFit, AreSettled, AreDrained};

use mn_linkdb::{each_root_has_a_tree, tree_is_computed};

/// Where no advert flies at the end of a script, the printed trees are those over the links that are up.
pub fn where_none_flies_the_printed_trees_are_those_of_the_links()
    ensures { (topology : Network) (lines : List FloodLine) → IsLawful topology → AllFit topology lines → AreSettled topology (course_of topology lines) }
{
    each_root_has_a_tree();
    tree_is_computed();
}

/// A drain of a script that begins with f adverts receives at most f(1 + 2L), L links, and then none flies, but where steps are
/// full.
pub fn each_drain_of_a_script_is_bounded()
    ensures { (topology : Network) (lines : List FloodLine) → IsLawful topology → AllFit topology lines → AreDrained topology lines }
{}
