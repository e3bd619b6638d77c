//! The tables that a script asks for.
ghost use Rattle.std.specs.Prelude.{◌≡◌, true, false, List, ℕ, OnOk, OnErr, Err};
ghost use Rattle.mn_report.specs.Prelude.{NoMemory, Counted, command_fits, show_fits, Puts, PutsPart, StandsFor, table_text, standing, Tells};
ghost use Rattle.mn_script.specs.declared.command.Command.TheVariants as command;
ghost use Rattle.mn_report.specs.Frames.{packet_of};

use crate::bgp::put_bgp_sessions;
use crate::flight::put_flight;
use crate::frame::{AskedFrame, put_frame};
use crate::ldp::put_ldp_sessions;
use crate::links::put_links;
use crate::routes::put_routes;
use crate::tree::put_tree;
use mn_edge::{DeviceBad, Sink};
use mn_lines::Page;
use mn_net::Net;
use mn_script::Show;
use mn_tables::ShownFrame;

/// A table that a script asks for, and the packet of the record that a `Show::Frame` names, where the capture has it; the
/// other tables don't look at it.
#[derive(Clone, Copy)]
pub struct AskedTable<'p> {
    pub table: Show,
    pub packet: Option<&'p [u8]>,
}

/// Puts a table of a network that works.
fn put_rows<O: Sink>(
    out: &mut O,
    page: &mut Page,
    line: &mut Vec<u8>,
    net: &Net,
    asked: AskedTable<'_>,
) -> Result<(), DeviceBad>
    requires works { net.now.failed ≡ false }
    requires fits { show_fits net.now.topology asked.table ≡ true }
    ensures told { (inputs : List (List ℕ)) → StandsFor net.now inputs →
        Tells (table_text net.now.topology net.now.journal inputs (packet_of asked.entry.packet) asked.entry.table)
        (standing page.old (O.written out.old) (O.faults out.old)) (standing page.new (O.written out.new) (O.faults out.new)) result }
    ensures cause { Counted (O.faults out.old) (O.faults out.new) result }
{
    match asked.table {
        Show::Links => put_links(out, page, net),
        Show::Tree(node) => put_tree(out, page, net, node),
        Show::Ldp => put_ldp_sessions(out, page, net),
        Show::Bgp => put_bgp_sessions(out, page, net),
        Show::Vrf(vrf) => put_routes(out, page, line, net, vrf),
        Show::Flight => put_flight(out, page, net),
        Show::Frame(node, number) => {
            let shown = ShownFrame { node, number };
            let frame = AskedFrame {
                shown,
                packet: asked.packet,
            };
            put_frame(out, page, *line.allocator(), net, frame)
        }
    }
}

/// Puts a table as the network stands. `line` is written anew. A network that has failed is answered by out of memory.
pub fn put_table<O: Sink>(
    out: &mut O,
    page: &mut Page,
    line: &mut Vec<u8>,
    net: &Net,
    asked: AskedTable<'_>,
) -> Result<(), DeviceBad>
    requires fits { command_fits net.now.topology (command.Show asked.table) ≡ true }
    ensures put { OnOk result ((inputs : List (List ℕ)) → StandsFor net.now inputs →
        Puts (table_text net.now.topology net.now.journal inputs (packet_of asked.entry.packet) asked.entry.table) page.old page.new (O.written out.old) (O.written out.new)) }
    ensures part { OnErr result ((inputs : List (List ℕ)) → StandsFor net.now inputs →
        PutsPart (table_text net.now.topology net.now.journal inputs (packet_of asked.entry.packet) asked.entry.table) page.old (O.written out.old) (O.written out.new)) }
    ensures cause { Counted (O.faults out.old) (O.faults out.new) result }
    ensures wants { net.now.failed ≡ true →
        (result ≡ Err NoMemory) × (page.new ≡ page.old) × (out.new ≡ out.old) }
{
    if !net.works() {
        return Err(DeviceBad::NoMemory);
    }
    put_rows(out, page, line, net, asked)
}
