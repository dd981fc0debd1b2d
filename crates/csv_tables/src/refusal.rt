// The refusals of a file, and the line of names.
ghost use Rattle.std.specs.Prelude.{◌≡◌};
ghost use Rattle.fields.specs.Names.{top_of};
ghost use Rattle.csv_tables.specs.Refusals.{refusal_number, at_none};
ghost use Rattle.csv_tables.specs.declared.refusal.FileRefusal.TheVariants.{Names};

use super::MAX_NAMES;
use fields::{NamesRefusal, read_top};

// Why a file is refused: its line of names is; it is too long; a record is outside the grammar, or has
// another number of fields than the header; a header's name is unknown, or stands twice; a field is no
// value; it has too many rows.
#[derive(Clone, Copy, Debug, PartialEq, Eq)]
pub enum FileRefusal {
    Names(NamesRefusal),
    Long,
    Grammar,
    Header,
    Value,
    Rows,
}

impl FileRefusal {
    // Its number.
    pub fn number(self) -> u8
        ensures { result ≡ refusal_number self }
    {
        match self {
            FileRefusal::Names(refusal) => refusal.number(),
            FileRefusal::Long => 17,
            FileRefusal::Grammar => 18,
            FileRefusal::Header => 16,
            FileRefusal::Value => 19,
            FileRefusal::Rows => 8,
        }
    }
}

// A refused file: why, and the place of the refused record in it, from 1, if it is one's.
#[derive(Clone, Copy, Debug, PartialEq, Eq)]
pub struct Refused {
    pub why: FileRefusal,
    pub place: Option<u32>,
}

impl From<NamesRefusal> for Refused {
    // The line of names is no record.
    ghost from_gives = { λ names refused. refused ≡ at_none (Names names) };

    fn from(why: NamesRefusal) -> Refused {
        Refused {
            why: FileRefusal::Names(why),
            place: None,
        }
    }
}

// How many names a line has, or why it is refused. A line that is too long is not looked at: to find names
// that stand twice takes time that grows with the square of the line.
pub fn read_names(line: &[u8]) -> Result<usize, NamesRefusal>
    ensures { result ≡ top_of line.now }
{
    if MAX_NAMES <= line.len() {
        return Err(NamesRefusal::Malformed);
    }
    match read_top(line) {
        Ok(count) => Ok(count),
        Err(refused) => Err(refused.why),
    }
}
