ghost use Rattle.entries.specs.Written.{EntriesReadAreProper, WrittenEntriesAreOneLine, WrittenEntriesReadBack};

// Any entry with figures of 32 bits, names that are words and a label that is a text, written as a line and read, is that entry again.
pub fn written_entries_read_back()
    ensures { WrittenEntriesReadBack }
{}

// What is written of such an entry is one line: it has no LF.
pub fn written_entries_are_one_line()
    ensures { WrittenEntriesAreOneLine }
{}

// An entry that is read of a line is such an entry: written again and read, it stays the same.
pub fn entries_read_are_proper()
    ensures { EntriesReadAreProper }
{}
