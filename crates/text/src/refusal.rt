// Why a text is refused, or has no answer.
ghost use Rattle.std.specs.Prelude.{◌≡◌};
ghost use Rattle.text.specs.declared.refusal.TextRefusal.TheVariants.{Question};
ghost use Rattle.text.specs.Refusals.{refusal_number, of_names};

use fields::NamesRefusal;
use questions::Refusal;

// The words lack room; a line has not its form; names are not distinct or not known from the top;
// the text is too long; or its question is refused.
#[derive(Clone, Copy, Debug, PartialEq, Eq)]
pub enum TextRefusal {
    NoRoom,
    Malformed,
    Names,
    TooLong,
    Question(Refusal),
}

impl TextRefusal {
    // Its number.
    pub fn number(self) -> u8
        ensures { result ≡ refusal_number self }
    {
        match self {
            Self::NoRoom => 13,
            Self::Malformed => 15,
            Self::Names => 16,
            Self::TooLong => 17,
            Self::Question(refusal) => refusal.number(),
        }
    }
}

impl From<NamesRefusal> for TextRefusal {
    ghost from_gives = { λ names refusal. refusal ≡ of_names names };

    fn from(names: NamesRefusal) -> Self {
        match names {
            NamesRefusal::Malformed => Self::Malformed,
            NamesRefusal::Repeated => Self::Names,
        }
    }
}

impl From<Refusal> for TextRefusal {
    ghost from_gives = { λ question refusal. refusal ≡ Question question };

    fn from(question: Refusal) -> Self {
        Self::Question(question)
    }
}
