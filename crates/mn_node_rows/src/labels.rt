//! The labels of node 0 of four: `labels attach SITE NUMBER` gives an attachment the next one, which `labels next` tells before;
//! `labels offer NODE FREE ..` offers a FEC once those that are free have given up theirs, and answers the label that it has then.
//! `labels of NODE`, `labels means LABEL`, `labels given`, `labels count`; `labels spend COUNT` attaches a site so often;
//! `labels spent` and `labels no_memory` are refusals as texts.
ghost use Rattle.std.specs.Prelude.{◌<◌};

use mn_base::{NodeNo, SiteNo};
use mn_labels::{LabelBad, Labels};
use mn_rows::{Answer, Call, displayed, shown};
use std::alloc::{AllocError, Global};
use std::marker::Model;

/// The labels of node 0 in a network of four.
#[derive(Drop)]
pub(crate) struct OfFour {
    labels: Labels,
}

impl Model for OfFour {
    ghost use Rattle.std.specs.Prelude.{◌≡◌, length};
    ghost use Rattle.mn_labels.specs.Labels.{LabelTable};

    ghost Value = { LabelTable };

    ghost view = { λ l. l.labels };

    ghost invariant = { λ l. (l.labels.me ≡ 0) × (length l.labels.labels.fecs ≡ 4) };
}

impl OfFour {
    pub(crate) fn new(alloc: Global) -> Result<OfFour, AllocError> {
        let labels = Labels::new(alloc, NodeNo(0), 4)?;
        Ok(OfFour { labels })
    }

    fn attach(&mut self, alloc: Global, call: Call<'_>) -> Answer {
        match (call.site(2), call.number_u32(3)) {
            (Some(site), Some(number)) => shown(alloc, &self.labels.attach(site, number)),
            _ => Ok(None),
        }
    }

    /// Offers a FEC, and answers the label that it has then.
    fn offer(&mut self, alloc: Global, fec: NodeNo, free: &[NodeNo]) -> Answer
        requires { (0 < fec.0) × (fec.0 < 4) }
    {
        self.labels.offer(&[fec], free)?;
        shown(alloc, &self.labels.of(fec))
    }

    fn offered(&mut self, alloc: Global, call: Call<'_>) -> Answer {
        let free = named(alloc, call)?;
        match call.node(2) {
            Some(fec) if 0 < fec.0 && fec.0 < 4 => self.offer(alloc, fec, &free),
            _ => Ok(None),
        }
    }

    /// Gives labels for attachments of site 0 with room made before, and answers how many were the next ones from 16 on.
    fn spend(&mut self, alloc: Global, call: Call<'_>) -> Answer {
        let Some(count) = call.number_u32(2) else {
            return Ok(None);
        };
        self.labels.reserve(count as usize)?;
        let mut given = 0u32;
        for before in 0..count {
            let label = self.labels.attach(SiteNo(0), before.saturating_add(1));
            if label == Ok(before.saturating_add(16)) {
                given = given.saturating_add(1);
            }
        }
        shown(alloc, &given)
    }
}

/// The nodes that stand behind the one that is offered, three at most.
fn named(alloc: Global, call: Call<'_>) -> Result<Vec<NodeNo>, AllocError> {
    let mut nodes = Vec::new(alloc);
    for at in 3..6 {
        if let Some(node) = call.node(at) {
            nodes.push(node)?;
        }
    }
    Ok(nodes)
}

pub(crate) fn label_row(alloc: Global, four: &mut OfFour, call: Call<'_>) -> Answer {
    match call.verb() {
        b"attach" => four.attach(alloc, call),
        b"next" => shown(alloc, &four.labels.next()),
        b"offer" => four.offered(alloc, call),
        b"of" => match call.node(2) {
            Some(fec) => shown(alloc, &four.labels.of(fec)),
            None => Ok(None),
        },
        b"means" => match call.number_u32(2) {
            Some(label) => shown(alloc, &four.labels.means(label)),
            None => Ok(None),
        },
        b"given" => shown(alloc, &four.labels.given()),
        b"count" => shown(alloc, &four.labels.given().len()),
        b"spend" => four.spend(alloc, call),
        b"spent" => displayed(alloc, &LabelBad::Spent),
        b"no_memory" => displayed(alloc, &LabelBad::NoMemory),
        _ => Ok(None),
    }
}
