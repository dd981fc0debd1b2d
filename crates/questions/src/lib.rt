// Questions: the words of a question are read once, from front to back, into a refusal or a table
// directory. Every slice of words gets an answer. Assumes nothing.
#![tactic(auto)]

ghost use Rattle.questions.specs.Refusals.{checked_number};
ghost use Rattle.questions.specs.Says.{CheckSays};

mod directory;
mod lent;
mod reader;
mod refusal;
mod widths;

pub use directory::{Directory, TableEntry, TableKind};
pub use lent::entry_at;
pub use reader::read_question;
pub use refusal::Refusal;

// The most tables of a question.
pub const MAX_TABLES: usize = 16;

// The most rows of a table, and the most pairs.
pub const MAX_ROWS: usize = 4096;

// The number of rows or pairs that marks an open table.
pub const OPEN_MARK: usize = 65535;

// The arity that marks a range table.
pub const RANGE_MARK: usize = 65535;

// The most words of a question.
pub const MAX_WORDS: usize = 32000;

// Whether a question is accepted; else the refusal of the first question that is answered no.
pub fn check_question(question: &[u16]) -> Result<(), Refusal>
    ensures { CheckSays question.now (checked_number result) }
{
    read_question(question)?;
    Ok(())
}
