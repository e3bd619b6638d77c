// What an edge advertises to its peers of its own routes.
ghost use Rattle.std.specs.Prelude.{◌≡◌, ◌++◌, ◌==◌, ℕ, [], filter, map, drop, length, OnOk, IfOk};
ghost use Rattle.std.specs.List.{flat_map};
ghost use Rattle.mn_vrf.specs.Vrf.{VrfState, Static, static_of};
ghost use Rattle.mn_pe.specs.Held.{export_at};
ghost use Rattle.mn_pe.specs.Exports.{export_over, exports_by_over, exports_by, exports_among, exports_at_among, exports_over_among, export_by};
ghost use Rattle.mn_pe.specs.Pe.{found_in, told};

use crate::look::{label_at, vrf_in};
use mn_base::{Rd, Rt, SiteNo, VrfNo};
use mn_prefix::Prefix;
use mn_vrf::{StaticRoute, Vrf};
use std::alloc::{AllocError, Global};
use std::marker::Model;

/// A route that an edge advertises to its peers (RFC 4364, section 4.3.2).
#[derive(Debug, Drop)]
pub struct Export {
    vrf: VrfNo,
    rd: Rd,
    prefix: Prefix,
    label: u32,
    site: SiteNo,
    targets: Vec<Rt>,
}

impl Model for Export {
    ghost use Rattle.mn_pe.specs.Held.{Exported};

    ghost Value = { Exported };

    ghost view = { λ e. record {
      vrf = e.vrf.0;
      rd = e.rd;
      prefix = e.prefix;
      label = e.label;
      site = e.site.0;
      targets = e.targets.items;
    } };
}

impl Export {
    /// The VRF whose static it is.
    pub fn vrf(&self) -> VrfNo
        ensures { result.0 ≡ self.now.vrf }
    {
        self.vrf
    }

    /// The VRF's distinguisher.
    pub fn rd(&self) -> Rd
        ensures { result ≡ self.now.rd }
    {
        self.rd
    }

    /// The customer's prefix.
    pub fn prefix(&self) -> Prefix
        ensures { result ≡ self.now.prefix }
    {
        self.prefix
    }

    /// The label of the site's attachment.
    pub fn label(&self) -> u32
        ensures { result ≡ self.now.label }
    {
        self.label
    }

    /// The site.
    pub fn site(&self) -> SiteNo
        ensures { result.0 ≡ self.now.site }
    {
        self.site
    }

    /// The VRF's export targets, ascending.
    pub fn targets(&self) -> &[Rt]
        ensures { result.now ≡ self.now.targets }
    {
        &self.targets
    }
}

/// A static over a site that has this label, as it is advertised.
fn told_as(alloc: Global, vrf: &Vrf, route: &StaticRoute, label: u32) -> Result<Export, AllocError>
    ensures { IfOk result (λ export. export ≡ record { vrf = vrf.now.vrf.number; rd = vrf.now.vrf.rd; prefix = route.now.prefix; label = label; site = route.now.site; targets = vrf.now.vrf.exports }) }
{
    Ok(Export {
        vrf: vrf.number(),
        rd: vrf.rd(),
        prefix: route.prefix(),
        label,
        site: route.site(),
        targets: Vec::from_slice(alloc, vrf.exports().as_slice())?,
    })
}

/// Puts a static, if its site is attached.
fn put_static(
    out: &mut Vec<Export>,
    alloc: Global,
    vrf: &Vrf,
    route: &StaticRoute,
    label: Option<u32>,
) -> Result<(), AllocError>
    ensures { OnOk result (out.new.items ≡ out.old.items ++ export_at vrf.now.vrf vrf.now.vrf.exports route.now label) }
{
    let Some(label) = label else {
        return Ok(());
    };
    let told = told_as(alloc, vrf, route, label)?;
    out.push(told)?;
    Ok(())
}

/// Puts what a VRF exports.
fn put_vrf(
    out: &mut Vec<Export>,
    alloc: Global,
    vrf: &Vrf,
    labels: &[Option<u32>],
) -> Result<(), AllocError>
    ensures { OnOk result (out.new.items ≡ out.old.items ++ exports_by labels.now vrf.now.vrf) }
{
    if vrf.exports().as_slice().is_empty() {
        return Ok(());
    }
    for route in vrf.statics() {
        put_static(out, alloc, vrf, route, label_at(labels, route.site()))?;
    }
    Ok(())
}

/// What VRFs export, in the order of VRFs and then of prefixes.
pub(crate) fn exports_in(
    alloc: Global,
    vrfs: &[Vrf],
    labels: &[Option<u32>],
) -> Result<Vec<Export>, AllocError>
    ensures { IfOk result (λ exports. exports.items ≡ exports_among labels.now (told vrfs.now)) }
{
    let mut out = Vec::new(alloc);
    for vrf in vrfs {
        put_vrf(&mut out, alloc, vrf, labels)?;
    }
    Ok(out)
}

/// What the VRFs of a number export.
pub(crate) fn exports_at_in(
    alloc: Global,
    vrfs: &[Vrf],
    labels: &[Option<u32>],
    number: VrfNo,
) -> Result<Vec<Export>, AllocError>
    ensures { IfOk result (λ exports. exports.items ≡ exports_at_among labels.now number.0 (told vrfs.now)) }
{
    let mut out = Vec::new(alloc);
    for vrf in vrfs {
        if vrf.number().0 == number.0 {
            put_vrf(&mut out, alloc, vrf, labels)?;
        }
    }
    Ok(out)
}

/// Puts a static, if it is over the site and the site is attached.
fn put_if_over(
    out: &mut Vec<Export>,
    alloc: Global,
    vrf: &Vrf,
    route: &StaticRoute,
    labels: &[Option<u32>],
    site: SiteNo,
) -> Result<(), AllocError>
    ensures { OnOk result (out.new.items ≡ out.old.items ++ export_over labels.now vrf.now.vrf vrf.now.vrf.exports site.0 route.now) }
{
    if route.site().0 != site.0 {
        return Ok(());
    }
    put_static(out, alloc, vrf, route, label_at(labels, route.site()))
}

/// Puts what a VRF exports over a site.
fn put_over(
    out: &mut Vec<Export>,
    alloc: Global,
    vrf: &Vrf,
    labels: &[Option<u32>],
    site: SiteNo,
) -> Result<(), AllocError>
    ensures { OnOk result (out.new.items ≡ out.old.items ++ exports_by_over labels.now site.0 vrf.now.vrf vrf.now.vrf.exports) }
{
    if vrf.exports().as_slice().is_empty() {
        return Ok(());
    }
    for route in vrf.statics() {
        put_if_over(out, alloc, vrf, route, labels, site)?;
    }
    Ok(())
}

/// What the VRFs of a number export over a site.
pub(crate) fn exports_over_in(
    alloc: Global,
    vrfs: &[Vrf],
    labels: &[Option<u32>],
    number: VrfNo,
    site: SiteNo,
) -> Result<Vec<Export>, AllocError>
    ensures { IfOk result (λ exports. exports.items ≡ exports_over_among labels.now number.0 site.0 (told vrfs.now)) }
{
    let mut out = Vec::new(alloc);
    for vrf in vrfs {
        if vrf.number().0 == number.0 {
            put_over(&mut out, alloc, vrf, labels, site)?;
        }
    }
    Ok(out)
}

/// A static as it is advertised, if it is.
fn told_if(
    alloc: Global,
    vrf: &Vrf,
    labels: &[Option<u32>],
    route: Option<StaticRoute>,
) -> Result<Option<Export>, AllocError>
    ensures { IfOk result (λ export. export ≡ export_by labels.now vrf.now.vrf vrf.now.vrf.exports route) }
{
    let Some(route) = route else {
        return Ok(None);
    };
    if vrf.exports().as_slice().is_empty() {
        return Ok(None);
    }
    let Some(label) = label_at(labels, route.site()) else {
        return Ok(None);
    };
    let told = told_as(alloc, vrf, &route, label)?;
    Ok(Some(told))
}

/// What the VRF of a number exports of a prefix.
pub(crate) fn export_of_in(
    alloc: Global,
    vrfs: &[Vrf],
    labels: &[Option<u32>],
    number: VrfNo,
    prefix: Prefix,
) -> Result<Option<Export>, AllocError>
    ensures { IfOk result (λ export. export ≡ found_in number.0 (λ (vrf : VrfState). export_by labels.now vrf vrf.exports (static_of prefix vrf.statics)) (told vrfs.now)) }
{
    match vrf_in(vrfs, number) {
        None => Ok(None),
        Some(vrf) => told_if(alloc, vrf, labels, vrf.static_of(prefix)),
    }
}
