//! An edge: `pe new NODE` makes it of the topology in the text. `pe attach SITE LABEL`, `pe detach SITE`, `pe attached SITE`;
//! `pe add SITE PREFIX`, `pe del SITE PREFIX`; `pe import VRF TARGET on`, `off`, `pe export ..`; `pe hear NODE UPDATE`,
//! `pe forget NODE`; `pe lookup VRF ADDRESS`, `pe held VRF K`; `pe exports`, `pe exports_at VRF`, `pe exports_over SITE`,
//! `pe export_of SITE PREFIX`, which answer each as `VRF RD PREFIX LABEL SITE TARGET ..`; `pe enter SITE PACKET`,
//! `pe enter_among SITE WAYS PACKET`, where WAYS has a digit for each node, 1 where there is a way to it.
ghost use Rattle.std.specs.Prelude.{IfOk, IfSome};
ghost use Rattle.mn_pe.specs.Pe.{AreLabelled};

use crate::routes::{route, ways};
use crate::targets::target_words;
use mn_base::{NodeNo, SiteNo, VrfNo};
use mn_bgp_wire::{BgpMessage, BgpWireBad, Update, read_bgp};
use mn_pe::{Entered, Export, NoMemory, Pe};
use mn_rows::{Answer, Call, Paired, Slashed, in_hex, shown};
use mn_topo_toml::read_topology;
use std::alloc::{AllocError, Global};

/// The edge that was made last.
#[derive(Drop)]
pub(crate) struct Edge {
    pe: Option<Pe>,
}

impl Edge {
    pub(crate) fn new() -> Edge {
        Edge { pe: None }
    }

    /// How many VRFs and sites the topology has; what it is refused for.
    fn make(&mut self, alloc: Global, call: Call<'_>, node: NodeNo) -> Answer {
        let topology = match read_topology(alloc, call.text().as_bytes()) {
            Ok(topology) => topology,
            Err(bad) => return shown(alloc, &bad),
        };
        self.pe = Pe::new(alloc, &topology, node).ok();
        shown(alloc, &(topology.vrfs().len(), topology.sites().len()))
    }
}

/// The UPDATE that these bytes are.
#[tactic(auto, using(mn_pe::proofs::Read::read_labels))]
fn update_of(alloc: Global, bytes: &[u8]) -> Result<Option<Update>, AllocError>
    ensures { IfOk result (λ found. IfSome found (λ update. AreLabelled update.reached)) }
{
    match read_bgp(alloc, bytes) {
        Ok(BgpMessage::Update(update)) => Ok(Some(update)),
        Err(BgpWireBad::NoMemory) => Err(AllocError),
        _ => Ok(None),
    }
}

fn hear(alloc: Global, pe: &mut Pe, call: Call<'_>, peer: NodeNo) -> Answer {
    let Some(bytes) = call.bytes(alloc, 3)? else {
        return Ok(None);
    };
    match update_of(alloc, &bytes)? {
        Some(update) => {
            let loopback = pe.loopback(peer);
            shown(alloc, &pe.hear(peer, loopback, &update))
        }
        None => Ok(None),
    }
}

fn of_target(alloc: Global, pe: &mut Pe, call: Call<'_>, vrf: VrfNo) -> Answer {
    let Some(target) = call.rt(3) else {
        return Ok(None);
    };
    let on = call.has(4, b"on");
    match call.verb() {
        b"import" => shown(alloc, &pe.import(vrf, target, on)),
        b"export" => shown(alloc, &pe.export(vrf, target, on)),
        _ => Ok(None),
    }
}

fn of_prefix(alloc: Global, pe: &mut Pe, call: Call<'_>, site: SiteNo) -> Answer {
    let Some(prefix) = call.prefix(3) else {
        return Ok(None);
    };
    match call.verb() {
        b"add" => shown(alloc, &pe.add_route(site, prefix)),
        b"del" => shown(alloc, &pe.del_route(site, prefix)),
        b"export_of" => match pe.export_of(site, prefix) {
            Ok(found) => exports(alloc, found.as_slice()),
            Err(bad) => shown(alloc, &Err::<(), NoMemory>(bad)),
        },
        _ => Ok(None),
    }
}

fn export_words(alloc: Global, export: &Export) -> Result<String, AllocError> {
    let targets = target_words(alloc, export.targets())?;
    let (vrf, rd) = (export.vrf().0, Paired(export.rd().0));
    let (prefix, label, site) = (Slashed(export.prefix()), export.label(), export.site().0);
    format!(in alloc; "{vrf} {rd} {prefix} {label} {site}{targets}")
}

/// Exports, joined by `, `; `none` where there is none.
fn exports(alloc: Global, exports: &[Export]) -> Answer {
    let mut text = String::new(alloc);
    for export in exports {
        if !text.is_empty() {
            text.push_str(", ")?;
        }
        text.push_str(export_words(alloc, export)?.as_str())?;
    }
    if text.is_empty() {
        text.push_str("none")?;
    }
    Ok(Some(text))
}

fn told(alloc: Global, found: Result<Vec<Export>, NoMemory>) -> Answer {
    match found {
        Ok(found) => exports(alloc, &found),
        Err(bad) => shown(alloc, &Err::<(), NoMemory>(bad)),
    }
}

fn entered(alloc: Global, entered: Result<Entered, NoMemory>) -> Answer {
    match entered {
        Ok(Entered::Drop(rule)) => shown(alloc, &rule),
        Ok(Entered::Local(site, frame)) => {
            let bytes = in_hex(alloc, frame.bytes())?;
            Ok(Some(format!(in alloc; "site {} {bytes}", site.0)?))
        }
        Ok(Entered::Tunnel { edge, frame }) => {
            let bytes = in_hex(alloc, frame.bytes())?;
            Ok(Some(format!(in alloc; "edge {} {} {bytes}", edge.0, frame.depth())?))
        }
        Err(bad) => shown(alloc, &Err::<(), NoMemory>(bad)),
    }
}

fn enter(alloc: Global, pe: &Pe, call: Call<'_>, site: SiteNo) -> Answer {
    let Some(packet) = call.bytes(alloc, 3)? else {
        return Ok(None);
    };
    entered(alloc, pe.enter(site, &packet))
}

fn enter_among(alloc: Global, pe: &Pe, call: Call<'_>, site: SiteNo) -> Answer {
    let Some(packet) = call.bytes(alloc, 4)? else {
        return Ok(None);
    };
    let ways = ways(alloc, call)?;
    entered(alloc, pe.enter_among(site, &packet, &ways))
}

fn of_site(alloc: Global, pe: &mut Pe, call: Call<'_>, site: SiteNo) -> Answer {
    match call.verb() {
        b"attach" => match call.number_u32(3) {
            Some(label) => shown(alloc, &pe.attach(site, label)),
            None => Ok(None),
        },
        b"detach" => shown(alloc, &pe.detach(site)),
        b"attached" => shown(alloc, &pe.attached(site)),
        b"exports_over" => told(alloc, pe.exports_over(site)),
        b"enter" => enter(alloc, pe, call, site),
        b"enter_among" => enter_among(alloc, pe, call, site),
        _ => of_prefix(alloc, pe, call, site),
    }
}

fn of_vrf(alloc: Global, pe: &mut Pe, call: Call<'_>, vrf: VrfNo) -> Answer {
    match call.verb() {
        b"lookup" => match call.address(3) {
            Some(address) => route(alloc, pe.lookup(vrf, address)),
            None => Ok(None),
        },
        b"held" => match call.number_u32(3) {
            Some(k) => route(alloc, pe.held(vrf, k)),
            None => Ok(None),
        },
        b"exports_at" => told(alloc, pe.exports_at(vrf)),
        _ => of_target(alloc, pe, call, vrf),
    }
}

/// The third word is a node's, a VRF's or a site's number by the verb.
fn of_number(alloc: Global, pe: &mut Pe, call: Call<'_>, number: u16) -> Answer {
    match call.verb() {
        b"hear" => hear(alloc, pe, call, NodeNo(number)),
        b"forget" => shown(alloc, &pe.forget(NodeNo(number))),
        b"lookup" | b"held" | b"exports_at" | b"import" | b"export" => {
            of_vrf(alloc, pe, call, VrfNo(number))
        }
        _ => of_site(alloc, pe, call, SiteNo(number)),
    }
}

pub(crate) fn edge_row(alloc: Global, edge: &mut Edge, call: Call<'_>) -> Answer {
    let number = call.number_u16(2);
    if let (b"new", Some(node)) = (call.verb(), number) {
        return edge.make(alloc, call, NodeNo(node));
    }
    let Some(pe) = edge.pe.as_mut() else {
        return Ok(None);
    };
    match number {
        Some(number) => of_number(alloc, pe, call, number),
        None => told(alloc, pe.exports()),
    }
}
