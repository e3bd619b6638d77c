// An edge as the topology has it.
ghost use Rattle.std.specs.Prelude.{◌≡◌, ◌≤◌, ◌<◌, ◌++◌, ℕ, [], map, drop, length, None, OnOk, IfOk};
ghost use Rattle.mn_topo.specs.declared.sites.SiteDef.{SiteDef as Site};
ghost use Rattle.mn_pe.specs.Start.{with_target, after_targets, after_prefixes, after_sites, vrf_at_start, vrf_if, vrfs_from, HoldsNone};
ghost use Rattle.std.specs.List.{AllByRecursion};
ghost use Rattle.mn_pe.specs.Pe.{told};

use mn_base::{NodeNo, Rt, SiteNo, VrfNo};
use mn_prefix::Prefix;
use mn_rib_in::RibIn;
use mn_targets::Targets;
use mn_topo::{Node, SiteDef, VrfDef};
use mn_vrf::{StaticRoute, Statics, Vrf};
use std::alloc::{AllocError, Global};

/// Puts a target in, once.
fn add_once(set: &mut Targets, target: Rt) -> Result<(), AllocError>
    ensures { OnOk result (set.new ≡ with_target target set.old) }
{
    if set.has(target) {
        return Ok(());
    }
    set.add(target)?;
    Ok(())
}

/// The set of these targets.
fn set_of(alloc: Global, targets: &[Rt]) -> Result<Targets, AllocError>
    ensures { IfOk result (λ set. set ≡ after_targets [] targets.now) }
{
    let mut set = Targets::new(alloc);
    for target in targets {
        add_once(&mut set, *target)?;
    }
    Ok(set)
}

/// Has a site's prefixes.
fn put_prefixes(statics: &mut Statics, prefixes: &[Prefix], site: SiteNo) -> Result<(), AllocError>
    ensures { OnOk result (statics.new ≡ after_prefixes site.0 statics.old prefixes.now) }
{
    for prefix in prefixes {
        statics.put(StaticRoute::new(*prefix, site))?;
    }
    Ok(())
}

/// The prefixes of a VRF's sites.
fn statics_of(alloc: Global, sites: &[SiteDef], number: VrfNo) -> Result<Statics, AllocError>
    requires { length sites.now ≤ 65536 }
    ensures { IfOk result (λ statics. statics ≡ after_sites number.0 0 [] sites.now) }
{
    let mut statics = Statics::new(alloc);
    for (at, site) in sites.iter().enumerate() {
        if site.vrf.0 == number.0 {
            put_prefixes(&mut statics, site.prefixes.as_slice(), SiteNo(at as u16))?;
        }
    }
    Ok(statics)
}

/// A VRF as the topology has it.
fn vrf_of(alloc: Global, sites: &[SiteDef], number: VrfNo, def: &VrfDef) -> Result<Vrf, AllocError>
    requires { length sites.now ≤ 65536 }
    ensures told { IfOk result (λ vrf. vrf.vrf ≡ vrf_at_start sites.now number.0 def.now) }
    ensures held { IfOk result (λ vrf. vrf.held ≡ []) }
{
    let statics = statics_of(alloc, sites, number)?;
    let imports = set_of(alloc, def.import.as_slice())?;
    let exports = set_of(alloc, def.export.as_slice())?;
    Ok(Vrf::of(alloc, number, def.rd, statics, imports, exports))
}

/// Puts a VRF, if it is the node's.
fn put_if_of(
    out: &mut Vec<Vrf>,
    alloc: Global,
    sites: &[SiteDef],
    node: NodeNo,
    number: VrfNo,
    def: &VrfDef,
) -> Result<(), AllocError>
    requires { length sites.now ≤ 65536 }
    ensures told { OnOk result (told out.new.items ≡ told out.old.items ++ vrf_if sites.now node.0 number.0 def.now) }
    ensures held { AllByRecursion HoldsNone out.old.items → OnOk result (AllByRecursion HoldsNone out.new.items) }
{
    if def.node.0 != node.0 {
        return Ok(());
    }
    let vrf = vrf_of(alloc, sites, number, def)?;
    out.push(vrf)?;
    Ok(())
}

/// The node's VRFs.
pub(crate) fn vrfs_of(
    alloc: Global,
    vrfs: &[VrfDef],
    sites: &[SiteDef],
    node: NodeNo,
) -> Result<Vec<Vrf>, AllocError>
    requires sites { length sites.now ≤ 65536 }
    requires vrfs { length vrfs.now ≤ 65536 }
    ensures told { IfOk result (λ out. told out.items ≡ vrfs_from sites.now node.0 0 vrfs.now) }
    ensures held { IfOk result (λ out. AllByRecursion HoldsNone out.items) }
{
    let mut out = Vec::new(alloc);
    for (at, def) in vrfs.iter().enumerate() {
        put_if_of(&mut out, alloc, sites, node, VrfNo(at as u16), def)?;
    }
    Ok(out)
}

/// The VRF of each site.
pub(crate) fn sites_of(alloc: Global, sites: &[SiteDef]) -> Result<Vec<VrfNo>, AllocError>
    ensures { IfOk result (λ out. out.items ≡ map (λ (site : Site). site.vrf) sites.now) }
{
    let mut out = Vec::new(alloc);
    for site in sites {
        out.push(site.vrf)?;
    }
    Ok(out)
}

/// No label for any site.
pub(crate) fn no_labels(alloc: Global, sites: &[SiteDef]) -> Result<Vec<Option<u32>>, AllocError>
    ensures { IfOk result (λ out. out.items ≡ map (λ (site : Site). None) sites.now) }
{
    let mut out = Vec::new(alloc);
    for _site in sites {
        out.push(None)?;
    }
    Ok(out)
}

/// The address of each node.
pub(crate) fn loopbacks_of(alloc: Global, nodes: &[Node]) -> Result<Vec<u32>, AllocError>
    ensures { IfOk result (λ out. out.items ≡ map (λ node. node.loopback) nodes.now) }
{
    let mut out = Vec::new(alloc);
    for node in nodes {
        out.push(node.loopback)?;
    }
    Ok(out)
}

/// Nothing received from any node.
pub(crate) fn nothing_heard(alloc: Global, loopbacks: &[u32]) -> Result<Vec<RibIn>, AllocError>
    ensures { IfOk result (λ out. out.items ≡ map (λ (loopback : ℕ). []) loopbacks.now) }
{
    let mut out = Vec::new(alloc);
    for _loopback in loopbacks {
        out.push(RibIn::new(alloc))?;
    }
    Ok(out)
}
