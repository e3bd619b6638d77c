//! Nodes 0, 1 and 2 in a row, and what one of them has learned: `links change LINK up`, `down`; `links changes LINK`,
//! `links learn LINK`, `links learned LINK`, `links up LINK`, `links size`. A table of paths: `links path NODE`,
//! `links set NODE COST HOP`, `links clear NODE`. And `links network NODES` of the links in the text, each as `A B COST`.
ghost use Rattle.std.specs.Prelude.{◌<◌, ◌≡◌, length};

use mn_base::{LinkNo, NodeNo};
use mn_linkdb::{LinkDb, Tree, View, is_network};
use mn_rows::{Answer, Call, shown};
use mn_wiring::LinkEnds;
use std::alloc::{AllocError, Global};
use std::marker::Model;

fn link_of(a: u16, b: u16, cost: u32) -> LinkEnds {
    LinkEnds {
        a: NodeNo(a),
        b: NodeNo(b),
        cost,
        delay: 1,
        loss: 0,
        life: 2000,
    }
}

/// The link that a line writes as `A B COST`.
fn read_link(line: &str) -> Option<LinkEnds> {
    let words = Call::new(line, "");
    Some(link_of(
        words.number_u16(0)?,
        words.number_u16(1)?,
        words.number_u32(2)?,
    ))
}

/// The links of the text, one a line; none where a line isn't one.
pub(crate) fn links_of(alloc: Global, call: Call<'_>) -> Result<Option<Vec<LinkEnds>>, AllocError> {
    let mut links = Vec::new(alloc);
    for line in call.text().lines() {
        let Some(link) = read_link(line) else {
            return Ok(None);
        };
        links.push(link)?;
    }
    Ok(Some(links))
}

/// Two links, what one node has learned of them, and its table of paths.
#[derive(Drop)]
pub(crate) struct Links {
    db: LinkDb,
    view: View,
    tree: Tree,
}

impl Model for Links {
    ghost use Rattle.std.specs.Prelude.{◌≡◌, List, ℕ, length};

    ghost Value = { List ℕ };

    ghost view = { λ l. l.db };

    ghost invariant = { λ l. (length l.db ≡ 2) × (length l.view.ends ≡ 2) × (length l.tree.dists ≡ 3) };
}

impl Links {
    pub(crate) fn new(alloc: Global) -> Result<Links, AllocError> {
        let row = [link_of(0, 1, 10), link_of(1, 2, 10)];
        if !is_network(3, &row) {
            return Err(AllocError);
        }
        Ok(Links {
            db: LinkDb::new(alloc, 2)?,
            view: View::new(alloc, 3, &row)?,
            tree: Tree::new(alloc, 3)?,
        })
    }

    fn change(&mut self, alloc: Global, link: LinkNo, up: bool) -> Answer
        requires { link.0 < 2 }
    {
        if self.db.changes(link) == u32::MAX {
            return Ok(None);
        }
        shown(alloc, &self.db.change(link, up))
    }

    fn learn(&mut self, alloc: Global, link: LinkNo) -> Answer
        requires { link.0 < 2 }
    {
        if self.view.learned(link) > self.db.changes(link) {
            return Ok(None);
        }
        shown(alloc, &self.view.learn(&self.db, link))
    }

    fn of_link(&mut self, alloc: Global, call: Call<'_>, link: LinkNo) -> Answer
        requires { link.0 < 2 }
    {
        match call.verb() {
            b"change" => self.change(alloc, link, call.has(3, b"up")),
            b"changes" => shown(alloc, &self.db.changes(link)),
            b"learn" => self.learn(alloc, link),
            b"learned" => shown(alloc, &self.view.learned(link)),
            b"up" => shown(alloc, &self.view.up(link)),
            _ => Ok(None),
        }
    }

    /// The cost and the next hop that the table has of a node, after they are set where the row says so.
    fn path(&mut self, alloc: Global, call: Call<'_>, to: NodeNo) -> Answer
        requires { to.0 < 3 }
    {
        if !matches!(call.verb(), b"path") {
            self.tree.set(to, call.number_u32(3), call.node(4));
        }
        shown(alloc, &(self.tree.dist(to), self.tree.next(to)))
    }
}

fn network(alloc: Global, call: Call<'_>) -> Answer {
    match (call.number_u32(2), links_of(alloc, call)?) {
        (Some(nodes), Some(links)) => shown(alloc, &is_network(nodes, &links)),
        _ => Ok(None),
    }
}

pub(crate) fn link_row(alloc: Global, links: &mut Links, call: Call<'_>) -> Answer {
    match call.verb() {
        b"network" => network(alloc, call),
        b"size" => shown(alloc, &(links.view.nodes(), links.view.ends().len())),
        b"set" | b"clear" | b"path" => match call.node(2) {
            Some(to) if to.0 < 3 => links.path(alloc, call, to),
            _ => Ok(None),
        },
        _ => match call.link(2) {
            Some(link) if link.0 < 2 => links.of_link(alloc, call, link),
            _ => Ok(None),
        },
    }
}
