//! What a run keeps for its report.
ghost use Rattle.std.specs.Prelude.{◌≡◌, ◌++◌, [], map, IfOk, OnOk};
ghost use Rattle.mn_course_laws.specs.Expansion.{sending_by};
ghost use Rattle.mn_perform.specs.Shown.{sending_of};

use mn_join_script::JoinLine;
use mn_lines::{Page, Sent};
use mn_script::Command;
use mn_topo::Step;
use std::alloc::{AllocError, Global};

/// What waits to be put, and what the end of the report will tell.
#[derive(Drop)]
pub(crate) struct Desk {
    pub page: Page,
    /// A line as it is written.
    pub line: Vec<u8>,
    /// The packets that lines sent, in order.
    pub sent: Vec<Sent>,
}

impl Desk {
    pub fn new(alloc: Global) -> Result<Desk, AllocError>
        ensures page { IfOk result (λ desk. desk.page ≡ []) }
        ensures sent { IfOk result (λ desk. desk.sent.items ≡ []) }
    {
        Ok(Desk {
            page: Page::new(alloc)?,
            line: Vec::new(alloc),
            sent: Vec::new(alloc),
        })
    }

    /// Keeps the packet that a line sent, if it sends one.
    pub fn send(&mut self, line: &JoinLine) -> Result<(), AllocError>
        ensures sent { OnOk result (map sending_of self.new.sent.items ≡ map sending_of self.old.sent.items ++ sending_by line.now.number line.now.command) }
        ensures page { self.new.page ≡ self.old.page }
    {
        if let Command::Do(Step::Inject(site, record)) = line.command {
            self.sent.push(Sent {
                line: line.number,
                site,
                record,
            })?;
        }
        Ok(())
    }
}
