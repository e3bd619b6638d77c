ghost use Rattle.mn_stack.specs.Entry.{EntriesDiffer};
ghost use Rattle.mn_stack.specs.Reading.{WrittenIsRead};

/// Law: of bytes that are a stack of at least one entry and a good packet, reading gives just these.
///
/// So no bytes are two frames, and what a frame's `bytes` gives is read again as the same entries and packet.
pub fn written_is_read()
    ensures { WrittenIsRead }
{}

/// Law: no two entries have the same bytes. So `read_entry` of what `write_entry` gave is the entry.
pub fn entries_differ_in_bytes()
    ensures { EntriesDiffer }
{}
