//! The peers that an edge tells, and an export as they receive it.
ghost use Rattle.std.specs.Prelude.{◌≡◌, ◌<◌, ◌≤◌, ◌++◌, ◌∷◌, [], length, if◌then◌else◌, IfOk, OnOk};
ghost use Rattle.mn_ledger.specs.Places.{loopback};
ghost use Rattle.mn_edges.specs.Peers.{is_steady, peers_from};
ghost use Rattle.mn_edges.specs.Said.{IsSayable, spelled_in};

use mn_base::NodeNo;
use mn_bgp_session::BgpSession;
use mn_bgp_wire::{write_reach, write_unreach};
use mn_pe::Export;
use mn_states::BgpState;
use mn_topo::Topology;
use mn_vpn_nlri::VpnRoute;
use std::alloc::{AllocError, Global};

/// The address of a node.
pub fn loopback_of(topology: &Topology, node: NodeNo) -> u32
    requires { node.0 < length topology.now.loopbacks }
    ensures { result ≡ loopback topology.now node.0 }
{
    topology.nodes()[usize::from(node.0)].loopback
}

/// An export as it is announced, or as it is withdrawn.
pub fn spell(
    alloc: Global,
    topology: &Topology,
    edge: NodeNo,
    export: &Export,
    comes: bool,
) -> Result<Vec<u8>, AllocError>
    requires edge { edge.0 < length topology.now.loopbacks }
    requires sayable { IsSayable export.now }
    ensures { IfOk result (λ bytes. bytes.items ≡ spelled_in topology.now edge.0 comes export.now) }
{
    if !comes {
        return write_unreach(alloc, export.rd(), export.prefix());
    }
    let route = VpnRoute {
        rd: export.rd(),
        prefix: export.prefix(),
        label: export.label(),
    };
    write_reach(alloc, loopback_of(topology, edge), &route, export.targets())
}

/// Whether a session is there and Established.
fn is_steady(end: &Option<BgpSession>) -> bool
    ensures { result ≡ is_steady end.now }
{
    match end {
        None => false,
        Some(session) => match session.state() {
            BgpState::Established => true,
            _ => false,
        },
    }
}

/// Puts a peer behind others, if its session is Established.
fn put_if(peers: &mut Vec<NodeNo>, steady: bool, peer: NodeNo) -> Result<(), AllocError>
    ensures { OnOk result (peers.new.items ≡ peers.old.items ++ (if steady then peer ∷ [] else [])) }
{
    if steady {
        peers.push(peer)?;
    }
    Ok(())
}

/// The peers with which a node's session is Established, by its ends.
pub fn steady_peers(alloc: Global, ends: &[Option<BgpSession>]) -> Result<Vec<NodeNo>, AllocError>
    requires { length ends.now ≤ 65536 }
    ensures { IfOk result (λ peers. peers.items ≡ peers_from 0 ends.now) }
{
    let mut peers = Vec::new(alloc);
    for peer in 0..ends.len() {
        let steady = is_steady(&ends[peer]);
        put_if(&mut peers, steady, NodeNo(peer as u16))?;
    }
    Ok(peers)
}
