//! What holds of each script, whatever its lines: laws of the definitions.
ghost use Rattle.mn_reflect_run.specs.Prelude.{Network, IsLawful, numbers_of};
ghost use Rattle.mn_reflect_run.specs.Language.{Script};
ghost use Rattle.mn_reflect_run.specs.Reading.{IsLawfulScript};
ghost use Rattle.mn_reflect_run.specs.Report.{course_of};
ghost use Rattle.mn_reflect_run.specs.Laws.{AreOfTheMesh, AreDrained};

use mn_reflect_drain_laws::a_drain_with_reflectors_is_bounded;
use mn_reflect_ledger_laws::where_none_flies_a_vrf_holds_its_routes;

/// Each table that is printed where no message flies, each edge has a living session with a reflector and each two reflectors have one,
/// is that of a full mesh of sessions between all edges.
pub fn where_none_flies_the_printed_tables_are_those_of_the_mesh()
    ensures { (topology : Network) (script : Script) → IsLawful topology → IsLawfulScript topology script →
        AreOfTheMesh topology (numbers_of script.reflectors) (course_of topology script) }
{
    where_none_flies_a_vrf_holds_its_routes();
}

/// A drain of a script that begins with m messages in flight receives at most R (1 + E) (m + B (1 + K)), with R reflectors, E edges, B
/// directions of living sessions and K routes; and a drain without a number then leaves none in flight, but where steps are full.
pub fn each_drain_of_a_script_is_bounded()
    ensures { (topology : Network) (script : Script) → IsLawful topology → IsLawfulScript topology script → AreDrained topology script }
{
    a_drain_with_reflectors_is_bounded();
}
