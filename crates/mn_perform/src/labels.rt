//! The lines of labels.txt: one label space for each node, RFC 3031, section 3.14.
ghost use Rattle.std.specs.Prelude.{◌≡◌, ◌++◌, OnOk};
ghost use Rattle.mn_ledger.specs.Places.{loopback};
ghost use Rattle.mn_output_laws.specs.Contents.{bind_text, label_line};

use itoa::Buffer;
use mn_base::NodeNo;
use mn_labels::{Bind, Given};
use mn_lines::{node_name, put_pieces, site_name};
use mn_text::put_address;
use mn_topo::Topology;
use std::alloc::AllocError;

/// The address of the node, 0.0.0.0 where there is none.
fn loopback(topology: &Topology, node: NodeNo) -> u32
    ensures { result ≡ loopback topology.now node.0 }
{
    match topology.nodes().get(node.0 as usize) {
        Some(node) => node.loopback,
        None => 0,
    }
}

/// Appends what a label was given for.
#[tactic(auto, unfolding(mn_text::specs::Addresses::prefix_text))]
fn put_bind(line: &mut Vec<u8>, topology: &Topology, bind: Bind) -> Result<(), AllocError>
    ensures { OnOk result (line.new.items ≡ line.old.items ++ bind_text topology.now bind) }
{
    let mut digits = Buffer::new();
    match bind {
        Bind::Fec(node) => {
            line.extend_from_slice(b"fec ")?;
            put_address(line, loopback(topology, node))?;
            put_pieces(line, &[b"/", digits.format(32u32).as_bytes()])
        }
        Bind::Site(site, number) => put_pieces(
            line,
            &[
                b"site ",
                site_name(topology, site),
                b" ",
                digits.format(number).as_bytes(),
            ],
        ),
    }
}

/// Appends the line of a label that a node gave.
pub(crate) fn put_label(
    line: &mut Vec<u8>,
    topology: &Topology,
    node: NodeNo,
    giving: Given,
) -> Result<(), AllocError>
    ensures { OnOk result (line.new.items ≡ line.old.items ++ label_line topology.now node.0 giving) }
{
    let mut digits = Buffer::new();
    put_pieces(
        line,
        &[
            node_name(topology, node),
            b" ",
            digits.format(giving.label).as_bytes(),
            b" ",
        ],
    )?;
    put_bind(line, topology, giving.what)?;
    line.extend_from_slice(b"\n")
}
