// What a record says of its box, by its kind and its two origins.
ghost use Rattle.std.specs.Prelude.{◌≡◌};
ghost use Rattle.search.specs.Records.{stored_of};
ghost use Rattle.checker.specs.Kinds.{kind_of};

use boxes::MAX_ATTRIBUTES;
use search::RECORD_WORDS;

// A gap box holds no row of a table; a listed tuple's box is that of the tuple at a place; a resolvent is
// that of two earlier records.
#[derive(Clone, Copy, Debug, PartialEq, Eq)]
pub(crate) enum Kind {
    Gap { table: usize },
    Tuple { place: usize },
    Resolvent { first: usize, second: usize },
}

impl Kind {
    // That of a record: none where the number of its kind is none, or an origin that has to be 0 is not.
    pub(crate) fn of(words: &[u32; RECORD_WORDS]) -> Option<Self>
        ensures { result ≡ kind_of (stored_of words.now) }
    {
        let first = words[MAX_ATTRIBUTES + 1] as usize;
        let second = words[MAX_ATTRIBUTES + 2] as usize;
        match (words[MAX_ATTRIBUTES], second) {
            (0, 0) => Some(Self::Gap { table: first }),
            (1, 0) => Some(Self::Tuple { place: first }),
            (2, _) => Some(Self::Resolvent { first, second }),
            _ => None,
        }
    }
}
