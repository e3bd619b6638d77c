//! The whole list.
ghost use Rattle.std.specs.Prelude.{IfOk};
ghost use Rattle.mn_join_script.specs.Joints.{joints_of, Reads, AreSites, AreApart};

use crate::joint_line::joint_of;
use crate::refusal::JointsBad;
use mn_base::SiteNo;
use mn_text::first_line;
use mn_topo::Topology;
use std::alloc::Global;

/// The joints of two networks, read from their text: each a site of the first and one of the second.
///
/// The first refused line is answered, with the first rule by number that it breaks.
pub fn read_joints(
    alloc: Global,
    first: &Topology,
    second: &Topology,
    bytes: &[u8],
) -> Result<Vec<(SiteNo, SiteNo)>, JointsBad>
    ensures value { Reads result (joints_of first.now second.now bytes.now) }
    ensures sites { IfOk result (λ joints. AreSites first.now second.now joints.items) }
    ensures apart { IfOk result (λ joints. AreApart joints.items) }
{
    let mut joints = Vec::new(alloc);
    let mut rest = bytes;
    let mut number: u32 = 1;
    'lines: while let Some((line, next)) = first_line(rest) {
        match joint_of(first, second, &joints, line) {
            Ok(joint) => joints.push(joint)?,
            Err(rule) => return Err(JointsBad::Refused { rule, line: number }),
        }
        rest = next;
        number = number.saturating_add(1);
    }
    Ok(joints)
}
