//! What a run keeps for its report.
ghost use Rattle.std.specs.Prelude.{◌≡◌, ◌-◌, ◌+◌, ◌<◌, ◌++◌, ◌^◌, true, [], List, ℕ, Some, map, codes, Err, IfOk, OnOk, OnErr};
ghost use Rattle.mn_perform.specs.Prelude.{command_fits, sending_by, PutOn, PartPut, Puts, PutsPart, table_text, StandsFor, sending_of, shown_text, packet_of};
ghost use Rattle.mn_ledger.specs.Ledger.{packets_of};
ghost use Rattle.mn_perform.specs.Faults.{SinkBlamed};
ghost use Rattle.mn_perform.specs.declared.ended.Fault.TheVariants.{NoMemory};
ghost use Rattle.mn_perform.specs.Running.{line_text, Notes};
ghost use Rattle.mn_perform.specs.Whole.{last_text};

use crate::ended::{Ended, Fault};
use mn_edge::Sink;
use mn_lines::{Page, Sent};
use mn_report::{AskedTable, Shown, put_packets, put_refused, put_table, put_total};
use mn_sched::{Net, Played};
use mn_script::{Command, Line, Show};
use mn_topo::{Step, Topology};
use std::alloc::{AllocError, Global};

/// What waits to be put, and what the end of the report will tell.
#[derive(Drop)]
pub(crate) struct Desk {
    pub page: Page,
    /// A line as it is written.
    pub line: Vec<u8>,
    /// The injections that were done, in order.
    pub sendings: Vec<Sent>,
    /// How many lines were refused.
    pub refused: u32,
}

impl Desk {
    pub fn new(alloc: Global) -> Result<Desk, AllocError>
        ensures page { IfOk result (λ desk. desk.page ≡ []) }
        ensures sendings { IfOk result (λ desk. desk.sendings.items ≡ []) }
        ensures refused { IfOk result (λ desk. desk.refused ≡ 0) }
    {
        Ok(Desk {
            page: Page::new(alloc)?,
            line: Vec::new(alloc),
            sendings: Vec::new(alloc),
            refused: 0,
        })
    }

    /// Keeps the injection that a line did, if it is one.
    fn send(&mut self, line: &Line) -> Result<(), AllocError>
        ensures sent { OnOk result (map sending_of self.new.sendings.items ≡ map sending_of self.old.sendings.items ++ sending_by line.now.number line.now.command) }
        ensures page { self.new.page ≡ self.old.page }
        ensures refused { self.new.refused ≡ self.old.refused }
    {
        if let Command::Do(Step::Inject(site, record)) = line.command {
            self.sendings.push(Sent {
                line: line.number,
                site,
                record,
            })?;
        }
        Ok(())
    }

    /// Puts a refused line.
    fn refuse<O: Sink>(
        &mut self,
        out: &mut O,
        topology: &Topology,
        number: u32,
        shown: Shown,
    ) -> Result<(), Fault>
        requires { self.old.refused < 2 ^ 32 - 1 }
        ensures put { OnOk result (Puts (shown_text topology.now number shown) self.old.page self.new.page (O.written out.old) (O.written out.new)) }
        ensures part { OnErr result (PutsPart (shown_text topology.now number shown) self.old.page (O.written out.old) (O.written out.new)) }
        ensures counted { self.new.refused ≡ self.old.refused + 1 }
        ensures sendings { self.new.sendings ≡ self.old.sendings }
        ensures cause { SinkBlamed (O.faults out.old) (O.faults out.new) result }
    {
        self.refused += 1;
        put_refused(out, &mut self.page, &mut self.line, topology, number, shown)?;
        Ok(())
    }

    /// Notes what became of a line that was played.
    pub fn note<O: Sink>(
        &mut self,
        out: &mut O,
        topology: &Topology,
        line: &Line,
        played: Played,
    ) -> Result<(), Fault>
        requires { self.old.refused < 2 ^ 32 - 1 }
        ensures noted { OnOk result (Notes topology.now line.now played self.old self.new (O.written out.old) (O.written out.new)) }
        ensures part { OnErr result (PutsPart (line_text topology.now line.now.number played) self.old.page (O.written out.old) (O.written out.new)) }
        ensures cause { SinkBlamed (O.faults out.old) (O.faults out.new) result }
    {
        match played {
            Played::All => {
                self.send(line)?;
                Ok(())
            }
            Played::Refused(why) => self.refuse(out, topology, line.number, Shown::Step(why)),
            Played::NoRecord => self.refuse(out, topology, line.number, Shown::NoRecord),
        }
    }

    /// Puts a table, with the packet of the record that it names.
    pub fn show<O: Sink>(
        &mut self,
        out: &mut O,
        net: &Net,
        table: Show,
        packet: Option<&[u8]>,
    ) -> Result<(), Fault>
        requires fits { command_fits net.now.topology (Command.Show table) ≡ true }
        ensures put { OnOk result ((inputs : List (List ℕ)) → StandsFor net.now inputs →
            Puts (table_text net.now.topology net.now.journal inputs (packet_of packet.entry) table) self.old.page self.new.page (O.written out.old) (O.written out.new)) }
        ensures part { OnErr result ((inputs : List (List ℕ)) → StandsFor net.now inputs →
            PutsPart (table_text net.now.topology net.now.journal inputs (packet_of packet.entry) table) self.old.page (O.written out.old) (O.written out.new)) }
        ensures sendings { self.new.sendings ≡ self.old.sendings }
        ensures refused { self.new.refused ≡ self.old.refused }
        ensures cause { SinkBlamed (O.faults out.old) (O.faults out.new) result }
        ensures wants { net.now.failed ≡ true →
            (result ≡ Err NoMemory) × (self.new.page ≡ self.old.page) × (out.new ≡ out.old) }
    {
        let asked = AskedTable { table, packet };
        put_table(out, &mut self.page, &mut self.line, net, asked)?;
        Ok(())
    }

    /// Puts what became of each packet, and the total.
    fn tell<O: Sink>(&mut self, out: &mut O, net: &Net) -> Result<(), Fault>
        ensures put { OnOk result ((inputs : List (List ℕ)) → StandsFor net.now inputs →
            Puts (last_text net.now self.old Ended.All (packets_of net.now.topology net.now.journal inputs)) self.old.page self.new.page (O.written out.old) (O.written out.new)) }
        ensures part { OnErr result ((inputs : List (List ℕ)) → StandsFor net.now inputs →
            PutsPart (last_text net.now self.old Ended.All (packets_of net.now.topology net.now.journal inputs)) self.old.page (O.written out.old) (O.written out.new)) }
        ensures cause { SinkBlamed (O.faults out.old) (O.faults out.new) result }
        ensures wants { net.now.failed ≡ true →
            (result ≡ Err NoMemory) × (self.new.page ≡ self.old.page) × (out.new ≡ out.old) }
    {
        put_packets(out, &mut self.page, &mut self.line, net, &self.sendings)?;
        put_total(out, &mut self.page, &mut self.line, net, self.refused)?;
        Ok(())
    }

    /// Puts that the journal was full.
    fn tell_full<O: Sink>(&mut self, out: &mut O) -> Result<(), Fault>
        ensures put { OnOk result (Puts (codes "too large steps\n") self.old.page self.new.page (O.written out.old) (O.written out.new)) }
        ensures part { OnErr result (PutsPart (codes "too large steps\n") self.old.page (O.written out.old) (O.written out.new)) }
        ensures cause { SinkBlamed (O.faults out.old) (O.faults out.new) result }
    {
        self.page.put(out, b"too large steps\n")?;
        Ok(())
    }

    /// Puts the end of the report.
    fn tell_end<O: Sink>(&mut self, out: &mut O, net: &Net, how: Ended) -> Result<(), Fault>
        ensures put { OnOk result ((inputs : List (List ℕ)) → StandsFor net.now inputs →
            Puts (last_text net.now self.old how (packets_of net.now.topology net.now.journal inputs)) self.old.page self.new.page (O.written out.old) (O.written out.new)) }
        ensures part { OnErr result ((inputs : List (List ℕ)) → StandsFor net.now inputs →
            PutsPart (last_text net.now self.old how (packets_of net.now.topology net.now.journal inputs)) self.old.page (O.written out.old) (O.written out.new)) }
        ensures cause { SinkBlamed (O.faults out.old) (O.faults out.new) result }
    {
        match how {
            Ended::All => self.tell(out, net),
            Ended::TooManySteps => self.tell_full(out),
        }
    }

    /// Puts the end of the report, and all that waits.
    pub fn end<O: Sink>(&mut self, out: &mut O, net: &Net, how: Ended) -> Result<(), Fault>
        ensures put { OnOk result ((inputs : List (List ℕ)) (before notes : List ℕ) → StandsFor net.now inputs → PutOn before notes self.old.page (O.written out.old) →
            O.written out.new ≡ Some (before ++ (notes ++ last_text net.now self.old how (packets_of net.now.topology net.now.journal inputs)))) }
        ensures part { OnErr result ((inputs : List (List ℕ)) (before notes : List ℕ) → StandsFor net.now inputs → PutOn before notes self.old.page (O.written out.old) →
            PartPut (notes ++ last_text net.now self.old how (packets_of net.now.topology net.now.journal inputs)) before (O.written out.new)) }
        ensures cause { SinkBlamed (O.faults out.old) (O.faults out.new) result }
    {
        self.tell_end(out, net, how)?;
        self.page.end(out)?;
        Ok(())
    }
}
