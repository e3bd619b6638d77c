// One VRF, as it is told.
ghost use Rattle.std.specs.Prelude.{◌≡◌, ◌+◌, ℕ, [], true, false, None, Some, OnOk, OnErr, IfOk, slice_get, filter, if◌then◌else◌, option_map};
ghost use Rattle.std.specs.Map.Iter.{ShowsInOrder, deref};
ghost use Rattle.mn_vrf.specs.Prelude.{AddressBlock, longest_match, value_at, first_of, with_one, without_one, one_at, target_set, has_target};
ghost use Rattle.mn_vrf.specs.Routes.{route_before, without_route, sources_of, unless_empty, is_open, found_among};
ghost use Rattle.mn_vrf.specs.Vrf.{Static, Holding, with_static, without_static, with_imports, with_exports, add_refused, del_refused, set_refused, refusal_of, static_of, heads, IsHeldAt};

use crate::{Routes, Source, Sources, StaticRoute, Statics, VrfBad};
use mn_base::{Rd, Rt, SiteNo, VrfNo};
use mn_lpm::LengthTable;
use mn_prefix::Prefix;
use mn_targets::Targets;
use std::alloc::{AllocError, Global};
use std::collections::btree_map::Values;
use std::marker::Model;

/// A VRF: its statics, its two sets of targets, and the routes that it holds.
#[derive(Drop)]
pub struct Vrf {
    number: VrfNo,
    rd: Rd,
    statics: Statics,
    imports: Targets,
    exports: Targets,
    held: Routes,
}

impl Model for Vrf {
    ghost use Rattle.mn_vrf.specs.Vrf.{Holding};

    ghost Value = { Holding };

    ghost view = { λ v. record { vrf = record { number = v.number.0; rd = v.rd; statics = v.statics; imports = v.imports; exports = v.exports }; held = v.held } };
}

/// Why a set of targets isn't changed, if it isn't.
fn set_refusal(target: Rt, on: bool, targets: &Targets) -> Option<VrfBad>
    ensures { result ≡ set_refused target on targets.now }
{
    if targets.has(target) {
        return if on { Some(VrfBad::Unchanged) } else { None };
    }
    if !on {
        return Some(VrfBad::Unchanged);
    }
    if targets.as_slice().len() >= 16 {
        return Some(VrfBad::TargetsFull);
    }
    None
}

/// Changes a set of targets. An `Err` changes nothing.
fn change_set(target: Rt, on: bool, targets: &mut Targets) -> Result<(), VrfBad>
    ensures ok { OnOk result (targets.new ≡ target_set target on targets.old) }
    ensures err { OnErr result (targets.new ≡ targets.old) }
    ensures refusal { refusal_of result ≡ set_refused target on targets.old }
{
    if let Some(bad) = set_refusal(target, on, targets) {
        return Err(bad);
    }
    if on {
        let Ok(_) = targets.add(target) else {
            return Err(VrfBad::NoMemory);
        };
    } else {
        targets.remove(target);
    }
    Ok(())
}

impl Vrf {
    /// Without statics, targets and held routes. It takes no memory.
    pub fn new(alloc: Global, number: VrfNo, rd: Rd) -> Vrf
        ensures { result ≡ record { vrf = record { number = number.0; rd = rd; statics = []; imports = []; exports = [] }; held = [] } }
    {
        Vrf {
            number,
            rd,
            statics: Statics::new(alloc),
            imports: Targets::new(alloc),
            exports: Targets::new(alloc),
            held: Routes::new(alloc),
        }
    }

    /// As it was told, without held routes. It takes no memory.
    pub fn of(
        alloc: Global,
        number: VrfNo,
        rd: Rd,
        statics: Statics,
        imports: Targets,
        exports: Targets,
    ) -> Vrf
        ensures { result ≡ record { vrf = record { number = number.0; rd = rd; statics = statics; imports = imports; exports = exports }; held = [] } }
    {
        Vrf {
            number,
            rd,
            statics,
            imports,
            exports,
            held: Routes::new(alloc),
        }
    }

    /// Its number.
    pub fn number(&self) -> VrfNo
        ensures { result ≡ record { 0 = self.now.vrf.number } }
    {
        self.number
    }

    /// Its distinguisher.
    pub fn rd(&self) -> Rd
        ensures { result ≡ self.now.vrf.rd }
    {
        self.rd
    }

    /// Has a prefix over a site. An `Err` changes nothing.
    pub fn add_static(&mut self, prefix: Prefix, site: SiteNo) -> Result<(), VrfBad>
        ensures ok { OnOk result (self.new ≡ record self.old { vrf = with_static (record { prefix = prefix; site = site.0 }) self.old.vrf }) }
        ensures err { OnErr result (self.new ≡ self.old) }
        ensures refusal { refusal_of result ≡ add_refused prefix self.old.vrf }
    {
        if let Some(route) = self.statics.of_prefix(prefix) {
            return Err(VrfBad::PrefixTaken { site: route.site() });
        }
        let Ok(()) = self.statics.put(StaticRoute::new(prefix, site)) else {
            return Err(VrfBad::NoMemory);
        };
        Ok(())
    }

    /// Has a prefix over a site no longer. It takes no memory, and an `Err` changes nothing.
    pub fn del_static(&mut self, prefix: Prefix, site: SiteNo) -> Result<(), VrfBad>
        ensures ok { OnOk result (self.new ≡ record self.old { vrf = without_static (record { prefix = prefix; site = site.0 }) self.old.vrf }) }
        ensures err { OnErr result (self.new ≡ self.old) }
        ensures refusal { refusal_of result ≡ del_refused prefix site.0 self.old.vrf }
    {
        let Some(route) = self.statics.of_prefix(prefix) else {
            return Err(VrfBad::NoRouteThere);
        };
        if route.site().0 != site.0 {
            return Err(VrfBad::NoRouteThere);
        }
        self.statics.take(&StaticRoute::new(prefix, site));
        Ok(())
    }

    /// Imports routes with a target, or doesn't. An `Err` changes nothing.
    pub fn import(&mut self, target: Rt, on: bool) -> Result<(), VrfBad>
        ensures ok { OnOk result (self.new ≡ record self.old { vrf = with_imports (target_set target on) self.old.vrf }) }
        ensures err { OnErr result (self.new ≡ self.old) }
        ensures refusal { refusal_of result ≡ set_refused target on self.old.vrf.imports }
    {
        change_set(target, on, &mut self.imports)
    }

    /// Exports routes with a target, or doesn't. An `Err` changes nothing.
    pub fn export(&mut self, target: Rt, on: bool) -> Result<(), VrfBad>
        ensures ok { OnOk result (self.new ≡ record self.old { vrf = with_exports (target_set target on) self.old.vrf }) }
        ensures err { OnErr result (self.new ≡ self.old) }
        ensures refusal { refusal_of result ≡ set_refused target on self.old.vrf.exports }
    {
        change_set(target, on, &mut self.exports)
    }

    /// Holds one route more.
    pub fn offer(&mut self, prefix: Prefix, source: Source) -> Result<(), AllocError>
        requires free { one_at route_before (prefix, source) self.old.held ≡ None }
        ensures ok { OnOk result (self.new ≡ record self.old { held = with_one route_before (prefix, source) self.old.held }) }
        ensures err { OnErr result (self.new ≡ self.old) }
    {
        self.held.offer(prefix, source)
    }

    /// Holds the route no longer, if it is held. It takes no memory.
    pub fn retract(&mut self, prefix: Prefix, source: &Source)
        ensures { self.new ≡ record self.old { held = without_route (prefix, source.now) self.old.held } }
    {
        if self.held.has(prefix, source) {
            self.held.retract(prefix, source);
        }
    }

    /// Holds a route, in place of one of its prefix that is preferred as much.
    pub fn replace(&mut self, prefix: Prefix, source: Source) -> Result<(), AllocError>
        ensures ok { OnOk result (self.new ≡ record self.old { held = with_one route_before (prefix, source) self.old.held }) }
        ensures err { OnErr result (self.new ≡ self.old) }
    {
        self.held.offer(prefix, source)
    }

    /// Holds none of this prefix that is preferred as much. It takes no memory.
    pub fn withdraw(&mut self, prefix: Prefix, source: &Source)
        ensures { self.new ≡ record self.old { held = without_one route_before (prefix, source.now) self.old.held } }
    {
        self.held.retract(prefix, source);
    }

    /// The best of the held routes whose prefix contains the address. It takes no memory.
    pub fn lookup(&self, address: u32) -> Option<(Prefix, Source)>
        ensures { result ≡ longest_match address self.now.held }
    {
        self.held.lookup(address)
    }

    /// The best of the open routes whose prefix contains the address: own routes, those of other VRFs of the edge, and those of
    /// edges that are among these, by number; where there is none, the best of all. It takes no memory.
    pub fn lookup_among(&self, address: u32, ways: &[bool]) -> Option<(Prefix, Source)>
        ensures { result ≡ found_among ways.now address self.now.held }
    {
        self.held.lookup_among(address, ways)
    }

    /// Where the best of the open routes of a prefix comes from. It takes no memory.
    pub fn open_at(&self, prefix: Prefix, ways: &[bool]) -> Option<Source>
        ensures { result ≡ first_of (filter (is_open ways.now) (sources_of prefix self.now.held)) }
    {
        self.held.open_at(prefix, ways)
    }

    /// The held prefix of this number, with the best of its routes. It takes no memory.
    pub fn held(&self, k: u32) -> Option<(Prefix, Source)>
        ensures { result ≡ slice_get (heads self.now.held) k }
    {
        self.held.held(k)
    }

    /// The held prefix after a held one, with the best of its routes. It takes no memory.
    pub fn after(&self, last: Prefix) -> Option<(Prefix, Source)>
        ensures { (k : ℕ) → IsHeldAt last (slice_get (heads self.now.held) k) → result ≡ slice_get (heads self.now.held) (k + 1) }
    {
        self.held.after(last)
    }

    /// The held prefixes, and no others, each with its sources. It takes no memory.
    pub fn table(&self) -> &LengthTable<Sources>
        ensures { (prefix : AddressBlock) → value_at prefix result.now ≡ unless_empty (sources_of prefix self.now.held) }
    {
        self.held.table()
    }

    /// The static of a prefix. It takes no memory.
    pub fn static_of(&self, prefix: Prefix) -> Option<StaticRoute>
        ensures { result ≡ static_of prefix self.now.vrf.statics }
    {
        self.statics.of_prefix(prefix)
    }

    /// The static of this number. It takes no memory.
    pub fn static_at(&self, k: u32) -> Option<StaticRoute>
        ensures { result ≡ slice_get self.now.vrf.statics k }
    {
        self.statics.at(k)
    }

    /// Its statics, in the order of their prefixes. It takes no memory.
    pub fn statics(&self) -> Values<'_, Prefix, StaticRoute>
        ensures rest { result ≡ self.now.vrf.statics }
        ensures runs { ShowsInOrder (deref {X = Static}) }
    {
        self.statics.iter()
    }

    /// Holds these routes, and no others.
    pub fn hold(&mut self, held: Routes)
        ensures { self.new ≡ record self.old { held = held } }
    {
        self.held = held;
    }

    /// The routes that it holds, and holds none: for its owner to change them and give them back by `hold`. It takes no
    /// memory.
    pub fn take_held(&mut self) -> Routes
        ensures all { result ≡ self.old.held }
        ensures left { self.new ≡ record self.old { held = [] } }
    {
        self.held.take()
    }

    /// What it imports.
    pub fn imports(&self) -> &Targets
        ensures { result.now ≡ self.now.vrf.imports }
    {
        &self.imports
    }

    /// What it exports.
    pub fn exports(&self) -> &Targets
        ensures { result.now ≡ self.now.vrf.exports }
    {
        &self.exports
    }
}
