//! Laws of the definitions, each the contract of a function that does nothing.
ghost use Rattle.std.specs.Prelude.{◌≡◌, ◌≢◌, ◌<◌, ◌∷◌, ◌++◌, [], List, ℕ, length};
ghost use Rattle.std.specs.List.{flat_map};
ghost use Rattle.mn_ledger.specs.Prelude.{sender, Dir, IsLawful, Network, wiring_of, JournalEntry, IsLawfulJournal, packets_of};
ghost use Rattle.mn_journal.specs.Lines.{line_of};
ghost use Rattle.mn_script.specs.declared.command.Line.{Line};
ghost use Rattle.mn_course_laws.specs.Course.{inputs_of};
ghost use Rattle.mn_course_laws.specs.Expansion.{expanded};
ghost use Rattle.mn_output_laws.specs.Files.{OutputFile, Journal, Deliveries, Frames, Said, Told};
ghost use Rattle.mn_output_laws.specs.Contents.{contents, adds, whole};
ghost use Rattle.mn_output_laws.specs.Lists.{deliveries_file, said_file, frames_file, told_file};
ghost use Rattle.mn_output_laws.specs.Sendings.{AreSentBy, AreAllTold};
ghost use Rattle.mn_output_laws.specs.ShownFrames.{IsTold};

/// With one step more a file has what the step adds behind what it had: so it can be written as steps are done.
pub fn each_step_adds_its_part()
    ensures { (topology : Network) (capture : List (List ℕ)) (entries : List JournalEntry) (entry : JournalEntry) (out : OutputFile) →
        contents topology capture (entries ++ entry ∷ []) out
        ≡ contents topology capture entries out ++ adds topology capture out (record { before = entries; entry = entry }) }
{}

/// The packets of a script are the injections of its journal, one by one, and each has a line of its own that asks for it, of its
/// number, site and record. Each has a verdict and a path, so that the report has a line for each.
pub fn each_packet_has_its_line()
    ensures sent { (topology : Network) (capture : List (List ℕ)) (lines : List Line) → AreSentBy lines (expanded topology capture lines) }
    ensures told { (topology : Network) (capture : List (List ℕ)) (lines : List Line) →
        AreAllTold (expanded topology capture lines).sendings
        (packets_of topology (expanded topology capture lines).past.entries
        (inputs_of capture (expanded topology capture lines).past.entries)) }
{}

/// The whole of journal.txt is the line of each step that was done, in order. It holds of every journal, lawful or not.
pub fn steps_are_written()
    ensures { (topology : Network) (capture : List (List ℕ)) (entries : List JournalEntry) →
        whole topology capture entries Journal ≡ flat_map (line_of topology) entries }
{}

/// The whole of delivered.pcap is its header and a record of each packet that the journal delivered, in order, with its tick. It
/// holds of every journal, lawful or not.
pub fn deliveries_are_written()
    ensures { (topology : Network) (capture : List (List ℕ)) (entries : List JournalEntry) →
        whole topology capture entries Deliveries ≡ deliveries_file topology capture entries }
{}

/// After a lawful journal the whole of a .ldp file is the PDUs of all that its end sent over the link, in order, those of an
/// ended life too, each with its id, which in each life of the session starts with 1 (RFC 5036, section 3.5), and with the labels
/// of the moment at which it was sent: a FEC may get another one later.
pub fn all_lives_are_written()
    ensures { (topology : Network) (capture : List (List ℕ)) (entries : List JournalEntry) (l : ℕ) (dir : Dir) →
        IsLawful topology → IsLawfulJournal topology entries (inputs_of capture entries) → l < length topology.links →
        whole topology capture entries (Said l dir) ≡ said_file topology capture entries l (sender (wiring_of topology) l dir) }
{}

/// The whole of a link's .pcap is its header and a record of each frame that was sent over the link, in either direction, in
/// order, with the tick at which it was sent and the labels of that moment. It holds of every journal, lawful or not.
pub fn frames_are_written()
    ensures { (topology : Network) (capture : List (List ℕ)) (entries : List JournalEntry) (l : ℕ) →
        whole topology capture entries (Frames l) ≡ frames_file topology capture entries l }
{}

/// After a lawful journal the whole of a .bgp file is the messages of all that its edge sent the peer, in order, those of an
/// ended life of the session too (RFC 4271, section 4). Their labels are those of the whole journal: an attachment's stays.
pub fn tellings_are_written()
    ensures { (topology : Network) (capture : List (List ℕ)) (entries : List JournalEntry) (edge peer : ℕ) →
        IsLawful topology → IsLawfulJournal topology entries (inputs_of capture entries) → edge ≢ peer →
        whole topology capture entries (Told edge peer) ≡ told_file topology capture entries edge peer }
{}

/// A node's table that stands for the world after a journal uses each label as it leads there, and so forwards every frame as is
/// shown.
pub fn a_table_is_told()
    ensures { IsTold }
{}
