//! A step by its numbers, which may be none of a topology's.
ghost use Rattle.std.specs.Prelude.{◌≤◌};

use mn_base::Rt;
use mn_rows::Call;
use mn_topo::Step;
use mn_wiring::Dir;

fn dir(call: Call<'_>, k: usize) -> Option<Dir> {
    match call.word(k)? {
        b"Forth" => Some(Dir::Forth),
        b"Back" => Some(Dir::Back),
        _ => None,
    }
}

fn flag(call: Call<'_>, k: usize) -> Option<bool> {
    match call.word(k)? {
        b"true" => Some(true),
        b"false" => Some(false),
        _ => None,
    }
}

/// A target as a number.
fn target(call: Call<'_>, k: usize) -> Option<Rt> {
    Some(Rt(call.number(k, u64::MAX)?))
}

fn step_of_link(call: Call<'_>, k: usize) -> Option<Step>
    requires { k ≤ 8 }
{
    let link = call.link(k + 1)?;
    Some(match call.word(k)? {
        b"LinkUp" => Step::LinkUp(link),
        b"LinkDown" => Step::LinkDown(link),
        b"LdpAdmin" => Step::LdpAdmin(link, flag(call, k + 2)?),
        b"HearLdp" => Step::HearLdp(link, dir(call, k + 2)?),
        b"Carry" => Step::Carry(link, dir(call, k + 2)?, call.number_u32(k + 3)?),
        b"Lose" => Step::Lose(link, dir(call, k + 2)?, call.number_u32(k + 3)?),
        _ => return None,
    })
}

fn step_of_nodes(call: Call<'_>, k: usize) -> Option<Step>
    requires { k ≤ 8 }
{
    let node = call.node(k + 1)?;
    Some(match call.word(k)? {
        b"Learn" => Step::Learn(node, call.link(k + 2)?),
        b"BgpUp" => Step::BgpUp(node, call.node(k + 2)?),
        b"BgpDown" => Step::BgpDown(node, call.node(k + 2)?),
        b"HearBgp" => Step::HearBgp(node, call.node(k + 2)?),
        _ => return None,
    })
}

fn step_of_sites(call: Call<'_>, k: usize) -> Option<Step>
    requires { k ≤ 8 }
{
    let site = call.site(k + 1)?;
    let vrf = call.vrf(k + 1)?;
    Some(match call.word(k)? {
        b"AddRoute" => Step::AddRoute(site, call.prefix(k + 2)?),
        b"DelRoute" => Step::DelRoute(site, call.prefix(k + 2)?),
        b"Import" => Step::Import(vrf, flag(call, k + 3)?, target(call, k + 2)?),
        b"Export" => Step::Export(vrf, flag(call, k + 3)?, target(call, k + 2)?),
        b"Attach" => Step::Attach(site),
        b"Detach" => Step::Detach(site),
        b"Inject" => Step::Inject(site, call.number_u32(k + 2)?),
        _ => return None,
    })
}

/// The step that the words from `k` on name, by numbers, as `LdpAdmin 1 true`.
pub(crate) fn step_from(call: Call<'_>, k: usize) -> Option<Step>
    requires { k ≤ 8 }
{
    step_of_link(call, k)
        .or(step_of_nodes(call, k))
        .or(step_of_sites(call, k))
}
