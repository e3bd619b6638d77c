//! An advert sent over links of a node, and a database over one.
ghost use Rattle.std.specs.Prelude.{◌≡◌, ◌<◌, ◌≤◌, ◌+◌, ◌^◌, ◌∷◌, [], map, length, OnOk, OnErr};
ghost use Rattle.mn_flood_laws.specs.Flood.{sent_over, others_up, adverts_in};
ghost use Rattle.mn_flood.specs.Queue.{with_sents};

use crate::advert::{Advert, Sent};
use crate::database::Database;
use crate::links::Links;
use crate::queue::Queue;
use mn_base::{LinkNo, NodeNo};
use std::alloc::AllocError;

/// A node sends an advert over a link. An `Err` changes nothing.
fn send_over(
    queue: &mut Queue,
    links: &Links,
    node: NodeNo,
    advert: &Advert,
    link: LinkNo,
) -> Result<(), AllocError>
    requires link { link.0 < length links.now.ends }
    requires same_links { queue.old.links ≡ length links.now.ends }
    requires room { queue.old.made < 2 ^ 63 }
    ensures sent { OnOk result (queue.new ≡ with_sents queue.old (sent_over links.now node.0 advert.now link.0 ∷ [])) }
    ensures err { OnErr result (queue.new ≡ queue.old) }
{
    let sent = Sent {
        link,
        dir: links.away(link, node),
        advert: advert.copy()?,
    };
    queue.send(sent)
}

/// A node sends an advert over each of its links that are up, but for one. An `Err` means out of memory, after some of them.
pub(crate) fn send_on(
    queue: &mut Queue,
    links: &Links,
    up: &[bool],
    node: NodeNo,
    but: LinkNo,
    advert: &Advert,
) -> Result<(), AllocError>
    requires node { node.0 < length links.now.loopbacks }
    requires one_each { length up.now ≡ length links.now.ends }
    requires same_links { queue.old.links ≡ length links.now.ends }
    requires room { queue.old.made + length links.now.ends < 2 ^ 63 }
    ensures sent { OnOk result (queue.new ≡ with_sents queue.old (map (sent_over links.now node.0 advert.now) (others_up links.now up.now node.0 but.0))) }
    ensures made { OnOk result (queue.new.made ≤ queue.old.made + length links.now.ends) }
    ensures links { queue.new.links ≡ queue.old.links }
{
    for link in links.at(node) {
        if up[usize::from(link.0)] && link.0 != but.0 {
            send_over(queue, links, node, advert, *link)?;
        }
    }
    Ok(())
}

/// A node sends all adverts that it has over a link. An `Err` means out of memory, after some of them.
pub(crate) fn send_all(
    queue: &mut Queue,
    links: &Links,
    node: NodeNo,
    link: LinkNo,
    database: &Database,
) -> Result<(), AllocError>
    requires link { link.0 < length links.now.ends }
    requires same_links { queue.old.links ≡ length links.now.ends }
    requires room { queue.old.made + length database.now < 2 ^ 63 }
    ensures sent { OnOk result (queue.new ≡ with_sents queue.old (map (λ advert. sent_over links.now node.0 advert link.0) (adverts_in database.now))) }
    ensures made { OnOk result (queue.new.made ≤ queue.old.made + length database.now) }
    ensures links { queue.new.links ≡ queue.old.links }
{
    for advert in database.adverts() {
        if let Some(advert) = advert {
            send_over(queue, links, node, advert, link)?;
        }
    }
    Ok(())
}
