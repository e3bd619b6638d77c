//! Messages as they are read and sent, and an edge's exports as they are advertised.
ghost use Rattle.std.specs.Prelude.{◌≡◌, ◌<◌, ◌∷◌, [], map, length, IfOk, OnOk};
ghost use Rattle.mn_base.specs.declared.numbers.NodeNo.{NodeNo as NodeNumber};
ghost use Rattle.mn_reflect_telling.specs.Prelude.{IsSayable, AreSayable, export_letter, edge_news};
ghost use Rattle.mn_reflect_telling.specs.Mentions.{AreNodes};
ghost use Rattle.mn_reflect_telling.specs.Telling.{posted, letter_of};

use mn_base::NodeNo;
use mn_bgp_reflected::{Reflected, ReflectedBad, read_reflected};
use mn_bgp_wire::{BgpMessage, read_bgp};
use mn_edges::spell;
use mn_mail::{Letter, Mail};
use mn_pe::Export;
use mn_topo::Topology;
use std::alloc::{AllocError, Global};

/// The routes that a message brings, or what else it says.
#[derive(Drop)]
pub enum Heard {
    Routes(Reflected),
    Other(BgpMessage),
}

ghost use Rattle.mn_reflect_telling.specs.Said.{IsSaid, IsHeard};

/// What a message says.
pub fn read(alloc: Global, bytes: &[u8]) -> Result<Heard, AllocError>
    requires { IsSaid bytes.now }
    ensures { IfOk result (λ heard. IsHeard bytes.now heard) }
{
    match read_reflected(alloc, bytes) {
        Ok(reflected) => return Ok(Heard::Routes(reflected)),
        Err(ReflectedBad::NotUpdate) => {}
        Err(_) => return Err(AllocError),
    }
    match read_bgp(alloc, bytes) {
        Ok(message) => Ok(Heard::Other(message)),
        Err(_) => Err(AllocError),
    }
}

/// Sends a message.
pub fn send(mail: &mut Mail, from: NodeNo, to: NodeNo, bytes: Vec<u8>) -> Result<(), AllocError>
    requires from { from.0 < mail.old.nodes }
    requires to { to.0 < mail.old.nodes }
    ensures sent { OnOk result (mail.new ≡ posted (letter_of from.0 to.0 bytes.items ∷ []) mail.old) }
    ensures nodes { mail.new.nodes ≡ mail.old.nodes }
{
    mail.send(Letter::new(from, to, bytes))
}

/// Tells these peers of an export that comes or goes.
fn tell_export(
    mail: &mut Mail,
    alloc: Global,
    topology: &Topology,
    edge: NodeNo,
    peers: &[NodeNo],
    export: &Export,
    comes: bool,
) -> Result<(), AllocError>
    requires edge { edge.0 < length topology.now.loopbacks }
    requires peers { AreNodes topology.now peers.now }
    requires nodes { mail.old.nodes ≡ length topology.now.loopbacks }
    requires sayable { IsSayable export.now }
    ensures nodes { mail.new.nodes ≡ mail.old.nodes }
    ensures told { OnOk result (mail.new ≡ posted (map (λ (peer : NodeNumber). export_letter topology.now edge.0 peer.0 comes export.now) peers.now) mail.old) }
{
    for peer in peers {
        let bytes = spell(alloc, topology, edge, export, comes)?;
        send(mail, edge, *peer, bytes)?;
    }
    Ok(())
}

/// Tells these peers of exports that come or go.
pub fn tell_exports(
    mail: &mut Mail,
    alloc: Global,
    topology: &Topology,
    edge: NodeNo,
    peers: &[NodeNo],
    exports: &[Export],
    comes: bool,
) -> Result<(), AllocError>
    requires edge { edge.0 < length topology.now.loopbacks }
    requires peers { AreNodes topology.now peers.now }
    requires nodes { mail.old.nodes ≡ length topology.now.loopbacks }
    requires sayable { AreSayable exports.now }
    ensures nodes { mail.new.nodes ≡ mail.old.nodes }
    ensures told { OnOk result (mail.new ≡ posted (edge_news topology.now edge.0 peers.now comes exports.now) mail.old) }
{
    for export in exports {
        tell_export(mail, alloc, topology, edge, peers, export, comes)?;
    }
    Ok(())
}
