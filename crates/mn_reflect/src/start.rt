//! The start: no session lives, and nothing was received.
ghost use Rattle.std.specs.Prelude.{[], IfOk};
ghost use Rattle.mn_reflect_ledger_laws.specs.Quiet.{AreReflectors};
ghost use Rattle.mn_reflect_telling.specs.Mentions.{numbers_of};
ghost use Rattle.mn_reflect.specs.Course.{IsRun};

use crate::reflect::Reflect;
use mn_base::NodeNo;
use mn_edges::no_sessions;
use mn_mail::Mail;
use mn_reflect_telling::{
    by_address, distinguishers, first_attachments, first_edges, nothing_heard, statics_of,
};
use mn_topo::Topology;
use std::alloc::{AllocError, Global};

impl<'t> Reflect<'t> {
    /// The start: each site is attached, no session lives, and nothing flies. The reflectors are nodes that aren't edges.
    pub fn new(
        alloc: Global,
        topology: &'t Topology,
        reflectors: &[NodeNo],
    ) -> Result<Reflect<'t>, AllocError>
        requires { AreReflectors topology.now (numbers_of reflectors.now) }
        ensures { IfOk result (λ reflect. IsRun topology.now (numbers_of reflectors.now) [] reflect) }
    {
        topology.laws();
        let nodes = topology.nodes().len();
        let reflectors = by_address(alloc, topology, reflectors)?;
        let vrfs = distinguishers(alloc, topology)?;
        let edges = first_edges(alloc, topology)?;
        let sessions = no_sessions(alloc, nodes)?;
        let heard = nothing_heard(alloc, nodes)?;
        let attachments = first_attachments(alloc, topology)?;
        let mail = Mail::new(alloc, nodes as u32)?;
        Ok(Reflect {
            alloc,
            topology,
            reflectors,
            vrfs,
            edges,
            sessions,
            heard,
            attachments,
            statics: statics_of(topology),
            mail,
            done: 0,
            failed: false,
        })
    }
}
