//! A line of the list.
ghost use Rattle.std.specs.Prelude.{◌≡◌, false, IfOk, option_map};
ghost use Rattle.mn_text.specs.Words.{words};
ghost use Rattle.mn_join_script.specs.Joints.{pair_of, joint_of, is_joined, IsThere};

use crate::refusal::JointsRule;
use mn_base::SiteNo;
use mn_text::first_word;
use mn_topo::Topology;

/// The two words of a line that has two and no more.
fn two_words(line: &[u8]) -> Option<(&[u8], &[u8])>
    ensures { option_map (λ pair. (pair.0.now, pair.1.now)) result ≡ pair_of (words line.now) }
{
    let (one, rest) = first_word(line)?;
    let (other, rest) = first_word(rest)?;
    match first_word(rest) {
        Some(_) => None,
        None => Some((one, other)),
    }
}

/// Whether one of the two sites is in one of the joints.
fn is_joined(joints: &[(SiteNo, SiteNo)], one: SiteNo, other: SiteNo) -> bool
    ensures { result ≡ is_joined joints.now one other }
{
    joints
        .iter()
        .any(|joint| joint.0.0 == one.0 || joint.1.0 == other.0)
}

/// The joint of a line, behind the joints of earlier lines.
pub(crate) fn joint_of(
    first: &Topology,
    second: &Topology,
    earlier: &[(SiteNo, SiteNo)],
    line: &[u8],
) -> Result<(SiteNo, SiteNo), JointsRule>
    ensures value { result ≡ joint_of first.now second.now earlier.now (words line.now) }
    ensures there { IfOk result (IsThere first.now second.now) }
    ensures free { IfOk result (λ joint. is_joined earlier.now joint.0 joint.1 ≡ false) }
{
    let Some((one, other)) = two_words(line) else {
        return Err(JointsRule::WrongCount);
    };
    let one = first.site_named(one).ok_or(JointsRule::NoSuchName)?;
    let other = second.site_named(other).ok_or(JointsRule::NoSuchName)?;
    if is_joined(earlier, one, other) {
        return Err(JointsRule::TwiceJoined);
    }
    Ok((one, other))
}
