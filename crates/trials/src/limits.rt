// The limits of document 01 and of requests W3, W11 and W14, written from the papers: the trials are an outside opinion, so that they
// take none of the crates' own.

// The most attributes of a question, bits of a width, tables, rows or pairs of a table, and words.
pub(crate) const MOST_ATTRIBUTES: usize = 12;

pub(crate) const MOST_WIDTH: u16 = 16;

pub(crate) const MOST_TABLES: usize = 16;

pub(crate) const MOST_ROWS: usize = 4096;

pub(crate) const MOST_WORDS: usize = 32000;

// The number of rows that marks an open table, and the arity that marks a range table.
pub(crate) const OPEN_MARK: u16 = 65535;

pub(crate) const RANGE_MARK: u16 = 65535;

// How many words a record has.
pub(crate) const RECORD: usize = MOST_ATTRIBUTES + 3;

// The most bytes of a text, and letters of a name.
pub(crate) const MOST_BYTES: usize = 60000;

pub(crate) const MOST_LETTERS: usize = 12;

// The listing program's room: boxes, and words of its listing.
pub(crate) const PROGRAM_BOXES: usize = 1000;

pub(crate) const PROGRAM_LISTING: usize = 30000;
