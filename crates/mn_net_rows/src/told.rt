//! What became of packets, and which labels were given.
use mn_base::NodeNo;
use mn_net::Net;
use mn_rows::{Answer, shown};
use std::alloc::Global;

/// What became of a packet, numbered from 0, and the nodes at which it was, in order.
pub(crate) fn packet(alloc: Global, net: &Net, number: Option<u32>) -> Answer {
    let Some(number) = number else {
        return Ok(None);
    };
    if !net.works() {
        return Ok(None);
    }
    net.laws();
    if number >= net.packets() {
        return Ok(Some(String::from_str(alloc, "no such packet")?));
    }
    let mut text = format!(in alloc; "{:?} at", net.verdict(number))?;
    for node in net.path(number) {
        let node = format!(in alloc; " {}", node.0)?;
        text.push_str(node.as_str())?;
    }
    Ok(Some(text))
}

/// A node's giving of a label, numbered from 0, and what it gave it for.
pub(crate) fn given(alloc: Global, net: &Net, node: Option<NodeNo>, number: Option<u32>) -> Answer {
    let (Some(node), Some(number)) = (node, number) else {
        return Ok(None);
    };
    if !net.works() || usize::from(node.0) >= net.topology().nodes().len() {
        return Ok(None);
    }
    shown(alloc, &net.labels(node).get(number as usize))
}
