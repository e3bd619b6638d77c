//! A link, a VRF and a site of the networks.
ghost use Rattle.std.specs.Prelude.{◌≡◌, ◌<◌, ◌∷◌, [], IfOk};
ghost use Rattle.mn_prefix.specs.Prefix.{IsPrefix};
ghost use Rattle.mn_test_nets.specs.Entries.{link, apart, joined, bare, of_one};

use mn_base::{ListOf, NodeNo, Rd, Rt, VrfNo};
use mn_prefix::Prefix;
use mn_topo::{SiteDef, VrfDef};
use mn_wiring::LinkEnds;
use std::alloc::{AllocError, Global};

/// The target 65000:100 (RFC 4360, section 3.1).
const TARGET: Rt = Rt(0x0002_FDE8_0000_0064);

/// The distinguisher 65000:0, to which a number is added (RFC 4364, section 4.2).
const DISTINGUISHER: u64 = 0x0000_FDE8_0000_0000;

/// A link with the figures of a file that names its cost alone.
pub(crate) fn link(a: u16, b: u16, cost: u32) -> LinkEnds
    ensures { result ≡ link a b cost }
{
    LinkEnds {
        a: NodeNo(a),
        b: NodeNo(b),
        cost,
        delay: 1,
        loss: 0,
        life: 2000,
    }
}

/// A VRF without targets.
pub(crate) fn apart(alloc: Global, node: u16, number: u16) -> VrfDef
    ensures { result ≡ apart node number }
{
    VrfDef {
        node: NodeNo(node),
        rd: Rd(DISTINGUISHER + u64::from(number)),
        import: ListOf::from_vec(Vec::new(alloc)),
        export: ListOf::from_vec(Vec::new(alloc)),
    }
}

/// A VRF that imports and exports the one target.
pub(crate) fn joined(alloc: Global, node: u16, number: u16) -> Result<VrfDef, AllocError>
    ensures { IfOk result (λ vrf. vrf ≡ joined node number) }
{
    let mut vrf = apart(alloc, node, number);
    vrf.import.push(TARGET)?;
    vrf.export.push(TARGET)?;
    Ok(vrf)
}

/// A site without prefixes.
pub(crate) fn bare(alloc: Global, vrf: u16) -> SiteDef
    ensures { result ≡ bare vrf }
{
    SiteDef {
        vrf: VrfNo(vrf),
        prefixes: ListOf::from_vec(Vec::new(alloc)),
    }
}

/// A site with one prefix of 16 bits.
pub(crate) fn of_one(alloc: Global, vrf: u16, address: u32) -> Result<SiteDef, AllocError>
    requires { IsPrefix address 16 }
    ensures { IfOk result (λ site. site ≡ of_one vrf address) }
{
    let mut site = bare(alloc, vrf);
    match Prefix::new(address, 16) {
        Some(prefix) => site.prefixes.push(prefix)?,
        None => unreachable!(),
    }
    Ok(site)
}
