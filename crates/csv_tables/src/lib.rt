// Comma-separated files, by RFC 4180: a table's file is imported into a question's table words, and a
// listing is exported as such a file, every word and byte of it proved. Assumes nothing.
#![tactic(auto)]

mod columns;
mod export;
mod field;
mod import;
mod record;
mod refusal;
mod rows;

pub use export::{Export, export_csv};
pub use import::{Import, import_csv, read_file};
pub use refusal::{FileRefusal, Refused, read_names};

// The byte that parts two fields.
pub(crate) const COMMA: u8 = 44;

// The two bytes that end a record.
pub(crate) const CARRIAGE: u8 = 13;

pub(crate) const FEED: u8 = 10;

// No line of names that passes is as long: each name has a byte behind it, but the last one.
pub const MAX_NAMES: usize = boxes::MAX_ATTRIBUTES * (fields::MAX_NAME + 1);

// How many words the rows of a file take: those of a table, and one row more.
pub(crate) const ROWS_WORDS: usize = (questions::MAX_ROWS + 1) * boxes::MAX_ATTRIBUTES;
