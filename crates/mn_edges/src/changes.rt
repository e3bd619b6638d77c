//! What one of the edges is told in a step. Each call answers the exports that it is then to announce or to withdraw. After running out
//! of memory nothing is promised of it.
ghost use Rattle.std.specs.Prelude.{◌≡◌, ◌↔◌, IsOk, None, Ok, IfOk, OnOk};
ghost use Rattle.mn_vrf.specs.Vrf.{VrfState, add_refused, del_refused, set_refused, refusal_of};
ghost use Rattle.mn_pe.specs.Edge.{vrf_of_site, after_attach, after_detach};
ghost use Rattle.mn_pe.specs.Exports.{exports_at, exports_over, export_of};
ghost use Rattle.mn_pe.specs.Pe.{found_in};
ghost use Rattle.mn_edges.specs.Changes.{edge_of_node, IsThere, edge_set, those_of, AreNews, import_set, export_set, static_added, static_deleted};

use mn_base::{NodeNo, Rt, SiteNo, VrfNo};
use mn_pe::{Export, NoMemory, Pe};
use mn_prefix::Prefix;
use mn_vrf::VrfBad;
use std::alloc::{AllocError, Global};

/// An answer of an edge that can only be out of memory.
fn done(answer: Result<(), VrfBad>) -> Result<(), AllocError>
    requires { refusal_of answer ≡ None }
    ensures { IsOk result ↔ IsOk answer }
{
    match answer {
        Ok(()) => Ok(()),
        Err(VrfBad::NoMemory) => Err(AllocError),
        Err(_) => unreachable!(),
    }
}

/// What an edge advertises, or out of memory.
fn told(answer: Result<Vec<Export>, NoMemory>) -> Result<Vec<Export>, AllocError>
    ensures told { IfOk result (λ exports. answer ≡ Ok exports) }
    ensures asked { IsOk answer → IsOk result }
{
    match answer {
        Ok(exports) => Ok(exports),
        Err(_) => Err(AllocError),
    }
}

/// One export, if there is one, among others.
fn told_of_one(
    alloc: Global,
    answer: Result<Option<Export>, NoMemory>,
) -> Result<Vec<Export>, AllocError>
    ensures told { IfOk result (λ exports. IfOk answer (λ export. exports.items ≡ those_of export)) }
    ensures asked { IsOk result → IsOk answer }
    ensures none { answer ≡ Ok None → IsOk result }
{
    let mut exports = Vec::new(alloc);
    match answer {
        Ok(None) => {}
        Ok(Some(export)) => exports.push(export)?,
        Err(_) => return Err(AllocError),
    }
    Ok(exports)
}

/// Exports of an edge that come, or that go.
#[derive(Drop)]
pub struct News {
    pub exports: Vec<Export>,
    pub comes: bool,
}

/// What comes, or where that is nothing what is gone.
fn news_of(come: Vec<Export>, gone: Vec<Export>) -> News
    ensures { AreNews result.comes result.exports.items come.items gone.items }
{
    if come.is_empty() {
        News {
            exports: gone,
            comes: false,
        }
    } else {
        News {
            exports: come,
            comes: true,
        }
    }
}

/// A VRF imports routes with a target, or doesn't. Its edge has no news.
pub fn import(
    edges: &mut [Option<Pe>],
    edge: NodeNo,
    vrf: VrfNo,
    target: Rt,
    on: bool,
) -> Result<(), AllocError>
    requires there { IsThere edges.old edge.0 }
    requires free { found_in vrf.0 (λ (state : VrfState). set_refused target on state.imports) (edge_of_node edges.old edge.0).vrfs ≡ None }
    ensures { OnOk result (edges.new ≡ edge_set edge.0 (import_set (edge_of_node edges.old edge.0) vrf target on) edges.old) }
{
    let Some(pe) = &mut edges[usize::from(edge.0)] else {
        unreachable!()
    };
    done(pe.import(vrf, target, on))
}

/// A VRF exports routes with a target, or doesn't. It answers what its edge is to advertise then: what the VRF exports now, or where
/// that is nothing what it did.
pub fn export(
    edges: &mut [Option<Pe>],
    edge: NodeNo,
    vrf: VrfNo,
    target: Rt,
    on: bool,
) -> Result<News, AllocError>
    requires there { IsThere edges.old edge.0 }
    requires free { found_in vrf.0 (λ (state : VrfState). set_refused target on state.exports) (edge_of_node edges.old edge.0).vrfs ≡ None }
    ensures now { OnOk result (edges.new ≡ edge_set edge.0 (export_set (edge_of_node edges.old edge.0) vrf target on) edges.old) }
    ensures news { IfOk result (λ news. AreNews news.comes news.exports.items (exports_at (export_set (edge_of_node edges.old edge.0) vrf target on) vrf.0) (exports_at (edge_of_node edges.old edge.0) vrf.0)) }
{
    let Some(pe) = &mut edges[usize::from(edge.0)] else {
        unreachable!()
    };
    let gone = told(pe.exports_at(vrf))?;
    done(pe.export(vrf, target, on))?;
    let come = told(pe.exports_at(vrf))?;
    Ok(news_of(come, gone))
}

/// A site's VRF has a prefix over the site. It answers what its edge is to announce.
pub fn add(
    alloc: Global,
    edges: &mut [Option<Pe>],
    edge: NodeNo,
    site: SiteNo,
    prefix: Prefix,
) -> Result<Vec<Export>, AllocError>
    requires there { IsThere edges.old edge.0 }
    requires free { found_in (vrf_of_site (edge_of_node edges.old edge.0) site.0) (λ (state : VrfState). add_refused prefix state) (edge_of_node edges.old edge.0).vrfs ≡ None }
    ensures now { OnOk result (edges.new ≡ edge_set edge.0 (static_added (edge_of_node edges.old edge.0) site prefix) edges.old) }
    ensures come { IfOk result (λ come. come.items ≡ those_of (export_of (static_added (edge_of_node edges.old edge.0) site prefix) site.0 prefix)) }
{
    let Some(pe) = &mut edges[usize::from(edge.0)] else {
        unreachable!()
    };
    done(pe.add_route(site, prefix))?;
    told_of_one(alloc, pe.export_of(site, prefix))
}

/// A site's VRF has a prefix over the site no longer. It answers what its edge is to withdraw.
pub fn del(
    alloc: Global,
    edges: &mut [Option<Pe>],
    edge: NodeNo,
    site: SiteNo,
    prefix: Prefix,
) -> Result<Vec<Export>, AllocError>
    requires there { IsThere edges.old edge.0 }
    requires free { found_in (vrf_of_site (edge_of_node edges.old edge.0) site.0) (λ (state : VrfState). del_refused prefix site.0 state) (edge_of_node edges.old edge.0).vrfs ≡ None }
    ensures now { OnOk result (edges.new ≡ edge_set edge.0 (static_deleted (edge_of_node edges.old edge.0) site prefix) edges.old) }
    ensures gone { IfOk result (λ gone. gone.items ≡ those_of (export_of (edge_of_node edges.old edge.0) site.0 prefix)) }
{
    let Some(pe) = &mut edges[usize::from(edge.0)] else {
        unreachable!()
    };
    let gone = told_of_one(alloc, pe.export_of(site, prefix))?;
    done(pe.del_route(site, prefix))?;
    Ok(gone)
}

/// A site is attached with a label. It answers what its edge is to announce.
pub fn attach(
    edges: &mut [Option<Pe>],
    edge: NodeNo,
    site: SiteNo,
    label: u32,
) -> Result<Vec<Export>, AllocError>
    requires there { IsThere edges.old edge.0 }
    ensures now { OnOk result (edges.new ≡ edge_set edge.0 (after_attach (edge_of_node edges.old edge.0) site.0 label) edges.old) }
    ensures come { IfOk result (λ come. come.items ≡ exports_over (after_attach (edge_of_node edges.old edge.0) site.0 label) site.0) }
{
    let Some(pe) = &mut edges[usize::from(edge.0)] else {
        unreachable!()
    };
    if pe.attach(site, label).is_err() {
        return Err(AllocError);
    }
    told(pe.exports_over(site))
}

/// A site is detached. It answers what its edge is to withdraw.
pub fn detach(
    edges: &mut [Option<Pe>],
    edge: NodeNo,
    site: SiteNo,
) -> Result<Vec<Export>, AllocError>
    requires there { IsThere edges.old edge.0 }
    ensures now { OnOk result (edges.new ≡ edge_set edge.0 (after_detach (edge_of_node edges.old edge.0) site.0) edges.old) }
    ensures gone { IfOk result (λ gone. gone.items ≡ exports_over (edge_of_node edges.old edge.0) site.0) }
{
    let Some(pe) = &mut edges[usize::from(edge.0)] else {
        unreachable!()
    };
    let gone = told(pe.exports_over(site))?;
    if pe.detach(site).is_err() {
        return Err(AllocError);
    }
    Ok(gone)
}
