// The refusals of a join of files before its run.
ghost use Rattle.std.specs.Prelude.{◌≡◌};
ghost use Rattle.files.specs.Refusals.{refusal_number, at_none, in_file};
ghost use Rattle.files.specs.declared.refusal.JoinRefusal.TheVariants.{Names};

use csv_tables::{FileRefusal, Refused};
use fields::NamesRefusal;

// Why a join is refused: its line of names is; there are too few or too many files; a file's end is not
// within the bytes, or is below the one before; a file is refused; the question has too many words.
#[derive(Clone, Copy, Debug, PartialEq, Eq)]
pub enum JoinRefusal {
    Names(NamesRefusal),
    Tables,
    End,
    File(FileRefusal),
    Words,
}

impl JoinRefusal {
    // Its number.
    pub(crate) fn number(self) -> u8
        ensures { result ≡ refusal_number self }
    {
        match self {
            JoinRefusal::Names(refusal) => refusal.number(),
            JoinRefusal::Tables => 5,
            JoinRefusal::End => 3,
            JoinRefusal::File(refusal) => refusal.number(),
            JoinRefusal::Words => 1,
        }
    }
}

// A refused join: why, and the file that it is of and the record in it, from 1, where there is one.
#[derive(Clone, Copy, Debug, PartialEq, Eq)]
pub struct JoinRefused {
    pub why: JoinRefusal,
    pub file: Option<u32>,
    pub place: Option<u32>,
}

impl JoinRefused {
    // A refusal of no file.
    pub(crate) fn at_none(why: JoinRefusal) -> JoinRefused
        ensures { result ≡ at_none why }
    {
        JoinRefused {
            why: why,
            file: None,
            place: None,
        }
    }

    // That of a file by its number, from 1.
    pub(crate) fn in_file(file: u32, refused: Refused) -> JoinRefused
        ensures { result ≡ in_file file refused }
    {
        JoinRefused {
            why: JoinRefusal::File(refused.why),
            file: Some(file),
            place: refused.place,
        }
    }
}

impl From<NamesRefusal> for JoinRefused {
    // The line of names is no file.
    ghost from_gives = { λ names refused. refused ≡ at_none (Names names) };

    fn from(why: NamesRefusal) -> JoinRefused {
        JoinRefused::at_none(JoinRefusal::Names(why))
    }
}
