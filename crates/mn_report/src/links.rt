//! The table of links.
ghost use Rattle.std.specs.Prelude.{◌≡◌, ◌<◌, false, length};
ghost use Rattle.std.specs.List.{flat_map};
ghost use Rattle.mn_ledger.specs.Prelude.{links_of, wiring_of, world_of};
ghost use Rattle.mn_output_laws.specs.Tables.{link_line};
ghost use Rattle.mn_tables.specs.Telling.{standing, Tells};

use crate::counts::link_count;
use mn_base::LinkNo;
use mn_edge::{DeviceBad, Sink};
use mn_lines::Page;
use mn_net::Net;
use mn_tables::{LinkState, put_link};

/// Puts the line of a link.
fn put_link_of<O: Sink>(
    out: &mut O,
    page: &mut Page,
    net: &Net,
    link: LinkNo,
) -> Result<(), DeviceBad>
    requires works { net.now.failed ≡ false }
    requires link { link.0 < length net.now.topology.links }
    ensures { Tells (link_line net.now.topology (world_of net.now.topology net.now.journal) link.0)
        (standing page.old (O.written out.old) (O.faults out.old)) (standing page.new (O.written out.new) (O.faults out.new)) result }
{
    let state = LinkState {
        up: net.link_up(link),
        changes: net.link_changes(link),
    };
    put_link(out, page, net.topology(), link, state)
}

/// Puts the lines of all links, in order.
pub(crate) fn put_links<O: Sink>(out: &mut O, page: &mut Page, net: &Net) -> Result<(), DeviceBad>
    requires { net.now.failed ≡ false }
    ensures { Tells (flat_map (link_line net.now.topology (world_of net.now.topology net.now.journal)) (links_of (wiring_of net.now.topology)))
        (standing page.old (O.written out.old) (O.faults out.old)) (standing page.new (O.written out.new) (O.faults out.new)) result }
{
    for link in 0..link_count(net) {
        put_link_of(out, page, net, LinkNo(link))?;
    }
    Ok(())
}
