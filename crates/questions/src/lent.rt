// The table directory as a lent slice of entries.
ghost use Rattle.std.specs.Prelude.{◌≡◌};
ghost use Rattle.questions.specs.Directories.{entry_at};

use super::directory::TableEntry;

// The entry at a place; past the directory's end, the entry of no table.
pub fn entry_at(entries: &[TableEntry], i: usize) -> TableEntry
    ensures { result ≡ entry_at entries.now i }
{
    if i < entries.len() {
        entries[i]
    } else {
        TableEntry::none()
    }
}
