// The listing's text: a text of tables is read into the words of a question, and what is printed
// for it is written into a lent slice, every byte of it proved. Assumes nothing.
#![tactic(auto)]

mod listing;
mod printer;
mod reader;
mod refusal;
mod run;

pub use fields::MAX_BYTES;
pub use listing::{list_text, put_run, put_top};
pub use reader::read_text;
pub use refusal::TextRefusal;
pub use run::{TextRun, run_text};

// For how many boxes the listing program has room.
pub(crate) const LISTING_BOXES: usize = 1000;

// How many words its listing has.
pub const LISTING_WORDS: usize = 30000;

// By how many words a buffer that a text is read into is longer than the text.
pub const SPARE_WORDS: usize = 64;

// No print is longer than this.
pub const PAGE_BYTES: usize = boxes::MAX_ATTRIBUTES * (fields::MAX_NAME + 1)
    + LISTING_WORDS * 6
    + 64;
