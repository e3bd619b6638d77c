//! The lines of a script, one after another.
ghost use Rattle.std.specs.Prelude.{◌≡◌, true, All, None, Some, map};
ghost use Rattle.mn_join_run.specs.Prelude.{Framed, Lacking, told_packets, Blamed, sending_of, Pairing, network, PairCourse, net_of, line_fits};
ghost use Rattle.mn_join_run.specs.Course.{JoinRun, at_start, after_course, with_packet};
ghost use Rattle.mn_join_run.specs.Report.{refused_texts, exits_file};
ghost use Rattle.mn_join_run.specs.Outside.{Start, Stands};

use crate::desk::Desk;
use crate::exits::ExitsFile;
use crate::fetch::fetch;
use mn_capture::Capture;
use mn_edge::{DeviceBad, Shelf, Sink};
use mn_join::{Pair, PairBad, Played};
use mn_join_script::JoinLine;
use mn_perform::{Ended, Fault, Shown, put_refused};

/// A script to play: its lines, the capture whose records they name, and the folder for what comes out.
#[derive(Clone, Copy)]
pub(crate) struct Script<'s> {
    pub lines: &'s [JoinLine],
    pub capture: &'s Capture,
    pub folder: &'s str,
}

/// Two joined networks part way through a script, the file of what came out, and what is kept for the report.
#[derive(Drop)]
pub(crate) struct Run {
    pub pair: Pair,
    pub file: ExitsFile,
    pub desk: Desk,
}

ghost use Rattle.mn_join_run.specs.Playing.{outside_of, Keeps, Went, LineWent, AllWent, IsNoted, ending_of};

impl Run {
    /// Notes what became of a line that was played, and what came out in it.
    fn note<S: Shelf, O: Sink>(
        &mut self,
        line: &JoinLine,
        played: Played,
        shelf: &mut S,
        out: &mut O,
    ) -> Result<(), Fault>
        ensures pair { self.new.pair ≡ self.old.pair }
        ensures names { self.new.file.names ≡ self.old.file.names }
        ensures framed { Framed self.old.file.names (S.files shelf.old) (S.files shelf.new) }
        ensures noted { (pairing : Pairing) (start : Start) (run : JoinRun) (course : PairCourse) → start.names ≡ self.old.file.names →
            (net_of self.old.pair line.now.which).topology ≡ network pairing line.now.which → self.old.pair.exits ≡ course.exits →
            map sending_of self.old.desk.sent.items ≡ run.sendings →
            Stands start (refused_texts run) (exits_file run.exits) (outside_of self.old (O.written out.old) (S.files shelf.old)) →
            IsNoted start (after_course pairing run line.now course (ending_of played)) self.new.desk
            (outside_of self.new (O.written out.new) (S.files shelf.new)) result }
        ensures cause { Blamed ⊥ (Lacking self.old.file.names (S.files shelf.old))
            (S.read_faults shelf.old, S.write_faults shelf.old, O.faults out.old)
            (S.read_faults shelf.new, S.write_faults shelf.new, O.faults out.new) result }
    {
        self.file.put_exits(shelf, &self.pair)?;
        match played {
            Played::All => self.desk.send(line)?,
            Played::Refused(why) => {
                let topology = self.pair.net(line.which).topology();
                let shown = Shown::Step(why);
                put_refused(
                    out,
                    &mut self.desk.page,
                    &mut self.desk.line,
                    topology,
                    line.number,
                    shown,
                )?;
            }
        }
        Ok(())
    }

    /// Plays a line on the network that it names, and notes what became of it.
    fn play_line<S: Shelf, O: Sink>(
        &mut self,
        line: &JoinLine,
        packet: &[u8],
        shelf: &mut S,
        out: &mut O,
    ) -> Result<Ended, Fault>
        requires fits { line_fits self.old.pair.first.net.topology self.old.pair.second.net.topology line.now ≡ true }
        ensures names { self.new.file.names ≡ self.old.file.names }
        ensures framed { Framed self.old.file.names (S.files shelf.old) (S.files shelf.new) }
        ensures first { self.new.pair.first.net.topology ≡ self.old.pair.first.net.topology }
        ensures second { self.new.pair.second.net.topology ≡ self.old.pair.second.net.topology }
        ensures went { (pairing : Pairing) (start : Start) (run : JoinRun) → start.names ≡ self.old.file.names →
            Keeps pairing start run self.old.pair self.old.desk (outside_of self.old (O.written out.old) (S.files shelf.old)) →
            Went pairing start (with_packet pairing run line.now (Some packet.now)) self.new.pair self.new.desk
            (outside_of self.new (O.written out.new) (S.files shelf.new)) result }
        ensures cause { Blamed ⊥ (Lacking self.old.file.names (S.files shelf.old))
            (S.read_faults shelf.old, S.write_faults shelf.old, O.faults out.old)
            (S.read_faults shelf.new, S.write_faults shelf.new, O.faults out.new) result }
    {
        match self.pair.play(line.which, &line.command, packet) {
            Ok(played) => {
                self.note(line, played, shelf, out)?;
                Ok(Ended::All)
            }
            Err(PairBad::TooManySteps) => {
                self.file.put_exits(shelf, &self.pair)?;
                Ok(Ended::TooManySteps)
            }
            Err(PairBad::NoMemory) => Err(Fault::NoMemory),
        }
    }

    /// Does a line: that the capture hasn't its record refuses it before anything else.
    fn do_line<S: Shelf, O: Sink>(
        &mut self,
        line: &JoinLine,
        capture: &Capture,
        buffer: &mut Vec<u8>,
        shelf: &mut S,
        out: &mut O,
    ) -> Result<Ended, Fault>
        requires fits { line_fits self.old.pair.first.net.topology self.old.pair.second.net.topology line.now ≡ true }
        ensures names { self.new.file.names ≡ self.old.file.names }
        ensures framed { Framed self.old.file.names (S.files shelf.old) (S.files shelf.new) }
        ensures first { self.new.pair.first.net.topology ≡ self.old.pair.first.net.topology }
        ensures second { self.new.pair.second.net.topology ≡ self.old.pair.second.net.topology }
        ensures went { (pairing : Pairing) (start : Start) (run : JoinRun) → start.names ≡ self.old.file.names →
            Keeps pairing start run self.old.pair self.old.desk (outside_of self.old (O.written out.old) (S.files shelf.old)) →
            LineWent pairing start run line.now (S.files shelf.old) capture.now self.new.pair self.new.desk
            (outside_of self.new (O.written out.new) (S.files shelf.new)) result }
        ensures cause { Blamed (told_packets (S.files shelf.old) self.old.file.names capture.now ≡ None) (Lacking self.old.file.names (S.files shelf.old))
            (S.read_faults shelf.old, S.write_faults shelf.old, O.faults out.old)
            (S.read_faults shelf.new, S.write_faults shelf.new, O.faults out.new) result }
    {
        match fetch(shelf, capture, &line.command, buffer) {
            Ok(Some(packet)) => self.play_line(line, packet, shelf, out),
            Ok(None) => {
                let topology = self.pair.net(line.which).topology();
                put_refused(
                    out,
                    &mut self.desk.page,
                    &mut self.desk.line,
                    topology,
                    line.number,
                    Shown::NoRecord,
                )?;
                Ok(Ended::All)
            }
            Err(DeviceBad::Failed) => Err(Fault::Read),
            Err(DeviceBad::NoMemory) => Err(Fault::NoMemory),
        }
    }

    /// Does the lines of a script, until one meets a full journal.
    pub fn do_lines<S: Shelf, O: Sink>(
        &mut self,
        script: &Script<'_>,
        buffer: &mut Vec<u8>,
        shelf: &mut S,
        out: &mut O,
    ) -> Result<Ended, Fault>
        requires fit { All (λ line. line_fits self.old.pair.first.net.topology self.old.pair.second.net.topology line ≡ true) script.now.lines.now }
        ensures names { self.new.file.names ≡ self.old.file.names }
        ensures framed { Framed self.old.file.names (S.files shelf.old) (S.files shelf.new) }
        ensures went { (pairing : Pairing) (start : Start) → start.names ≡ self.old.file.names →
            Keeps pairing start at_start self.old.pair self.old.desk (outside_of self.old (O.written out.old) (S.files shelf.old)) →
            AllWent pairing start (S.files shelf.old) script.now.capture.now script.now.lines.now self.new.pair self.new.desk
            (outside_of self.new (O.written out.new) (S.files shelf.new)) result }
        ensures cause { Blamed (told_packets (S.files shelf.old) self.old.file.names script.now.capture.now ≡ None)
            (Lacking self.old.file.names (S.files shelf.old))
            (S.read_faults shelf.old, S.write_faults shelf.old, O.faults out.old)
            (S.read_faults shelf.new, S.write_faults shelf.new, O.faults out.new) result }
    {
        for line in script.lines {
            match self.do_line(line, script.capture, buffer, shelf, out)? {
                Ended::All => {}
                Ended::TooManySteps => return Ok(Ended::TooManySteps),
            }
        }
        Ok(Ended::All)
    }
}
