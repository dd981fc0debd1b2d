// The table directory by value: one entry a table.
ghost use Rattle.std.specs.Prelude.{◌≡◌, ◌<◌, ◌^◌, take};
ghost use Rattle.questions.specs.Orders.{is_in};
ghost use Rattle.questions.specs.Directories.{no_entry, kind_restricts, attributes_of, entry_restricts, entries_restrict, entries_cover, entry_end};

use super::MAX_TABLES;
use boxes::MAX_ATTRIBUTES;

// What a table has: so many rows, nothing yet (an open table), or so many pairs (a range table).
#[derive(Clone, Copy, Debug, PartialEq, Eq)]
pub enum TableKind {
    Rows(usize),
    Open,
    Pairs(usize),
}

// Where a table's rows or pairs begin (the place of the first word), how many attributes it has, and
// which; and what the table has: how many rows, nothing yet, or how many pairs.
#[derive(Clone, Copy, Debug, PartialEq, Eq)]
pub struct TableEntry {
    pub begin: usize,
    pub arity: usize,
    pub schema: [usize; MAX_ATTRIBUTES],
    pub kind: TableKind,
}

// A question as it was read: the number of attributes, their widths, the number of tables and their
// entries. What is beyond these numbers is 0.
#[derive(Clone, Copy, Debug, PartialEq, Eq)]
pub struct Directory {
    pub dimension: usize,
    pub widths: [u16; MAX_ATTRIBUTES],
    pub tables: usize,
    pub entries: [TableEntry; MAX_TABLES],
}

impl TableKind {
    // Whether the table restricts anything: an open one does not.
    pub(crate) fn restricts(self) -> bool
        ensures { result ≡ kind_restricts self }
    {
        match self {
            Self::Rows(_) => true,
            Self::Open => false,
            Self::Pairs(_) => true,
        }
    }
}

impl TableEntry {
    // The entry of no table.
    pub(crate) fn none() -> Self
        ensures { result ≡ no_entry }
    {
        Self {
            begin: 0,
            arity: 0,
            schema: [0; MAX_ATTRIBUTES],
            kind: TableKind::Rows(0),
        }
    }

    // The place after the table's last word.
    pub(crate) fn end(self) -> usize
        requires { entry_end self < 2 ^ 64 }
        ensures { result ≡ entry_end self }
    {
        match self.kind {
            TableKind::Rows(count) => self.begin + count * self.arity,
            TableKind::Open => self.begin,
            TableKind::Pairs(count) => self.begin + count * 2,
        }
    }

    // Whether the table has an attribute.
    pub(crate) fn has(self, attribute: usize) -> bool
        ensures { result ≡ is_in attribute (attributes_of self) }
    {
        self.schema
            .iter()
            .take(self.arity)
            .any(|named| attribute == *named)
    }

    // Whether the table restricts an attribute: it has it, and is not open.
    pub(crate) fn restricts(self, attribute: usize) -> bool
        ensures { result ≡ entry_restricts attribute self }
    {
        self.kind.restricts() && self.has(attribute)
    }
}

// Whether one of the tables restricts an attribute.
fn some_restricts(entries: &[TableEntry], attribute: usize) -> bool
    ensures { result ≡ entries_restrict attribute entries.now }
{
    entries.iter().any(|entry| entry.restricts(attribute))
}

// Whether each attribute number below a number is restricted by one of the tables.
pub(crate) fn cover_all(entries: &[TableEntry], count: usize) -> bool
    ensures { result ≡ entries_cover count entries.now }
{
    (0..count).all(|attribute| some_restricts(entries, attribute))
}
