// The join of comma-separated files: each is imported as a table, the widths that the tables need are
// found, their question is run, and the join is exported. Every word and byte of it is proved. Assumes
// nothing.
#![tactic(auto)]

mod gather;
mod join;
mod refusal;
mod widths;

pub use join::{CsvJoin, join_csv};

// How many words stand before the first table of a question beside the widths: the number of attributes
// and that of tables.
pub(crate) const FRONT_WORDS: usize = 2;
