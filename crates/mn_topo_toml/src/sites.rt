//! The sites.
ghost use Rattle.std.specs.Prelude.{◌≡◌, ◌≤◌, ◌<◌, ◌^◌, [], length, option_map, IfOk};
ghost use Rattle.toml.specs.View.{view, table_view, items_view};
ghost use Rattle.mn_topo_toml.specs.Rules.{Reads};
ghost use Rattle.mn_topo_toml.specs.Tables.{tables_of};

use crate::numbered::NumberedSites;
use crate::statics::Statics;
use crate::tables::{array_at, has_unknown_key, is_name, lacks, named_at, text_at};
use crate::{Place, TopoBad, TopoRule};
use mn_base::{ListOf, VrfNo};
use mn_prefix::Prefix;
use mn_text::prefix;
use mn_topo::{SiteDef, Sites, Vrfs};
use std::alloc::{AllocError, Global};
use toml::{Table, Value};

/// The most prefixes of all sites together.
const MOST_PREFIXES: usize = 65_536;

/// What the first rules take from an entry.
#[derive(Drop)]
pub(crate) struct SiteHead<'a> {
    name: &'a [u8],
    vrf: u16,
    prefixes: Vec<Prefix>,
}

ghost use Rattle.mn_topo.specs.SiteTable.{no_sites, statics_of};
ghost use Rattle.mn_topo_toml.specs.Sites.{prefix_in, prefixes_from, prefixes_at, ReadsSiteHead, ReadsSite, AddsSite, sites_from};

/// The prefix that a value is.
fn prefix_in(value: &Value) -> Option<Prefix>
    ensures { result ≡ prefix_in (view value.now) }
{
    match value.as_str() {
        Some(text) => prefix(text.as_bytes()).ok(),
        None => None,
    }
}

/// The prefixes that the values are, and `None` where one of them isn't a prefix.
fn prefixes_in(alloc: Global, values: &[Value]) -> Result<Option<Vec<Prefix>>, AllocError>
    ensures { IfOk result (λ prefixes. option_map (λ p. p.items) prefixes ≡ prefixes_from [] (items_view values.now)) }
{
    let mut prefixes = Vec::new(alloc);
    for value in values {
        let Some(prefix) = prefix_in(value) else {
            return Ok(None);
        };
        prefixes.push(prefix)?;
    }
    Ok(Some(prefixes))
}

/// The prefixes of an entry.
fn prefixes_at(alloc: Global, entry: &Table) -> Result<Option<Vec<Prefix>>, AllocError>
    ensures { IfOk result (λ prefixes. option_map (λ p. p.items) prefixes ≡ prefixes_at (table_view entry.now)) }
{
    match array_at("prefixes", entry) {
        Some(values) => prefixes_in(alloc, values),
        None => Ok(None),
    }
}

/// What the first rules take from an entry.
#[tactic(auto, unfolding(crate::specs::Sites::site_head_rule))]
fn head_in<'a>(
    alloc: Global,
    sites: &NumberedSites,
    vrfs: &Vrfs,
    entry: &'a Table,
) -> Result<Result<SiteHead<'a>, TopoRule>, AllocError>
    ensures { IfOk result (ReadsSiteHead vrfs.now.names sites.now (table_view entry.now)) }
{
    if has_unknown_key(&["name", "vrf", "prefixes"], entry) {
        return Ok(Err(TopoRule::UnknownKey));
    }
    if lacks("name", entry) || lacks("vrf", entry) {
        return Ok(Err(TopoRule::MissingKey));
    }
    let Some(name) = text_at("name", entry) else {
        return Ok(Err(TopoRule::WrongKind));
    };
    if text_at("vrf", entry).is_none() {
        return Ok(Err(TopoRule::WrongKind));
    }
    let Some(prefixes) = prefixes_at(alloc, entry)? else {
        return Ok(Err(TopoRule::WrongKind));
    };
    let name = name.as_bytes();
    if !is_name(name) {
        return Ok(Err(TopoRule::BadName));
    }
    if sites.has(name) {
        return Ok(Err(TopoRule::TwiceNamed));
    }
    let Some(vrf) = named_at(vrfs.names(), "vrf", entry) else {
        return Ok(Err(TopoRule::NoSuchName));
    };
    Ok(Ok(SiteHead {
        name,
        vrf,
        prefixes,
    }))
}

/// The name and the site that an entry is. Its prefixes join the statics.
#[tactic(auto, unfolding(crate::specs::Sites::site_rule))]
fn site_in<'a>(
    alloc: Global,
    sites: &NumberedSites,
    vrfs: &Vrfs,
    statics: &mut Statics,
    entry: &'a Table,
) -> Result<Result<(&'a [u8], SiteDef), TopoRule>, AllocError>
    requires { statics.old ≡ statics_of sites.now.sites }
    ensures { IfOk result (ReadsSite vrfs.now.names sites.now statics.new (table_view entry.now)) }
{
    let head = match head_in(alloc, sites, vrfs, entry)? {
        Ok(head) => head,
        Err(rule) => return Ok(Err(rule)),
    };
    if !statics.add_all(head.vrf, &head.prefixes)? {
        return Ok(Err(TopoRule::PrefixTaken));
    }
    if statics.len() > MOST_PREFIXES {
        return Ok(Err(TopoRule::TooMany));
    }
    let site = SiteDef {
        vrf: VrfNo(head.vrf),
        prefixes: ListOf::from_vec(head.prefixes),
    };
    Ok(Ok((head.name, site)))
}

/// The sites so far, and that of an entry. Its prefixes join the statics.
fn with_entry(
    alloc: Global,
    vrfs: &Vrfs,
    sites: NumberedSites,
    statics: &mut Statics,
    entry: &Table,
) -> Result<Result<NumberedSites, TopoRule>, AllocError>
    requires room { length sites.names < 2 ^ 16 }
    requires statics { statics.old ≡ statics_of sites.sites }
    ensures { IfOk result (AddsSite vrfs.now.names sites statics.new (table_view entry.now)) }
{
    match site_in(alloc, &sites, vrfs, statics, entry)? {
        Ok((name, site)) => {
            let more = sites.with(alloc, name, site)?;
            Ok(Ok(more))
        }
        Err(rule) => Ok(Err(rule)),
    }
}

/// The sites of an array of tables.
pub(crate) fn read_sites(alloc: Global, vrfs: &Vrfs, values: &[Value]) -> Result<Sites, TopoBad>
    requires { length values.now ≤ 2 ^ 16 }
    ensures { Reads result (sites_from vrfs.now.names (tables_of (items_view values.now)) no_sites) }
{
    let mut sites = NumberedSites::new(alloc);
    let mut statics = Statics::new(alloc);
    for value in values {
        let Some(entry) = value.as_table() else {
            continue;
        };
        let place = Place::Site(sites.next() as u32);
        match with_entry(alloc, vrfs, sites, &mut statics, entry)? {
            Ok(more) => sites = more,
            Err(rule) => return Err(TopoBad::Refused { rule, place }),
        }
    }
    Ok(sites.sites())
}
