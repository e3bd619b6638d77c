//! The script of a file.
ghost use Rattle.std.specs.Prelude.{◌≡◌, ◌≤◌, ◌+◌, [], length, IfOk, OnOk};
ghost use Rattle.std.specs.Str.Lines.{lines};
ghost use Rattle.mn_script.specs.Words.{texts};
ghost use Rattle.mn_reflect_run.specs.Language.{reflector_line, reflector_said, command_said, with_line, script_of, no_lines};
ghost use Rattle.mn_reflect_run.specs.Reading.{IsRead, ReadsScript, IsNew, IsLawfulScript};

use crate::command::ReflectLine;
use crate::language::{command_line, is_reflector};
use mn_base::NodeNo;
use mn_script::{ScriptBad, ScriptRule, counted, is_word, line_words, node_in, word_at};
use mn_text::first_line;
use mn_topo::Topology;
use std::alloc::Global;
use std::marker::Model;

/// The reflectors that a script names, in the order in which it does, and the lines that it has besides.
#[derive(Debug, Drop)]
pub struct Script {
    reflectors: Vec<NodeNo>,
    lines: Vec<ReflectLine>,
}

impl Model for Script {
    ghost use Rattle.mn_reflect_run.specs.Language.{Script as ScriptOf};

    ghost Value = { ScriptOf };

    ghost view = { λ s. record { reflectors = s.reflectors.items; lines = s.lines.items } };
}

impl Script {
    /// No line.
    fn new(alloc: Global) -> Script
        ensures { result ≡ no_lines }
    {
        Script {
            reflectors: Vec::new(alloc),
            lines: Vec::new(alloc),
        }
    }

    /// The reflectors: nodes that aren't edges, each once.
    pub fn reflectors(&self) -> &[NodeNo]
        ensures { result.now ≡ self.now.reflectors }
    {
        &self.reflectors
    }

    /// The other lines.
    pub fn lines(&self) -> &[ReflectLine]
        ensures { result.now ≡ self.now.lines }
    {
        &self.lines
    }

    /// `reflector N`, behind the lines that are read.
    #[tactic(auto, unfolding(crate::specs::Language::reflector_line))]
    fn reflector_line(&self, topology: &Topology, words: &[&[u8]]) -> Result<NodeNo, ScriptRule>
        ensures value { result ≡ reflector_line topology.now self.now (texts words.now) }
        ensures new { IfOk result (IsNew topology.now self.now.reflectors) }
        ensures early { OnOk result (self.now.lines ≡ []) }
    {
        counted(words, 2)?;
        let node = node_in(topology, word_at(words, 1))?;
        if topology.is_edge(node)
            || is_reflector(&self.reflectors, node)
            || !self.lines.is_empty()
        {
            Err(ScriptRule::NotEdge)
        } else {
            Ok(node)
        }
    }

    /// Reads `reflector N`, the line of the number, behind the lines that are read.
    #[tactic(auto, using(crate::proofs::Scripts::reflector_lawful))]
    fn read_reflector(
        &mut self,
        topology: &Topology,
        number: u32,
        words: &[&[u8]],
    ) -> Result<(), ScriptBad>
        ensures value { IsRead number (reflector_said topology.now (texts words.now) self.old) self.new result }
        ensures lawful { OnOk result (IsLawfulScript topology.now self.old → IsLawfulScript topology.now self.new) }
        ensures same { OnOk result (self.new.lines ≡ self.old.lines) }
    {
        match self.reflector_line(topology, words) {
            Ok(node) => {
                self.reflectors.push(node)?;
                Ok(())
            }
            Err(rule) => Err(ScriptBad::Refused { rule, line: number }),
        }
    }

    /// Reads a line of the number that asks for something, behind the lines that are read.
    #[tactic(auto, using(crate::proofs::Scripts::command_lawful))]
    fn read_command(
        &mut self,
        topology: &Topology,
        number: u32,
        words: &[&[u8]],
    ) -> Result<(), ScriptBad>
        ensures value { IsRead number (command_said topology.now number (texts words.now) self.old) self.new result }
        ensures lawful { OnOk result (IsLawfulScript topology.now self.old → IsLawfulScript topology.now self.new) }
        ensures more { OnOk result (length self.new.lines ≡ length self.old.lines + 1) }
    {
        match command_line(topology, &self.reflectors, words) {
            Ok(command) => {
                self.lines.push(ReflectLine { number, command })?;
                Ok(())
            }
            Err(rule) => Err(ScriptBad::Refused { rule, line: number }),
        }
    }

    /// Reads the line of the number behind those that are read, by its first six words.
    #[tactic(auto, unfolding(crate::specs::Language::with_line))]
    fn read_line(
        &mut self,
        topology: &Topology,
        number: u32,
        words: &[&[u8]],
    ) -> Result<(), ScriptBad>
        ensures value { IsRead number (with_line topology.now number (texts words.now) self.old) self.new result }
        ensures lawful { OnOk result (IsLawfulScript topology.now self.old → IsLawfulScript topology.now self.new) }
        ensures few { OnOk result (length self.new.lines ≤ length self.old.lines + 1) }
    {
        if words.is_empty() {
            return Ok(());
        }
        if is_word(words, 0, "reflector") {
            self.read_reflector(topology, number, words)
        } else {
            self.read_command(topology, number, words)
        }
    }
}

/// The script of a file.
///
/// The first refused line is answered, with the first rule by number that it breaks.
pub fn read_script(alloc: Global, topology: &Topology, bytes: &[u8]) -> Result<Script, ScriptBad>
    ensures value { ReadsScript result (script_of topology.now bytes.now) }
    ensures lawful { IfOk result (IsLawfulScript topology.now) }
    ensures few { IfOk result (λ script. length script.lines ≤ length (lines bytes.now)) }
{
    let mut script = Script::new(alloc);
    let mut rest = bytes;
    let mut number = 1;
    'lines: while let Some((line, next)) = first_line(rest) {
        let words = line_words(alloc, line)?;
        script.read_line(topology, number, &words)?;
        rest = next;
        number = number.saturating_add(1);
    }
    Ok(script)
}
