// Why a listing and records are not accepted.
ghost use Rattle.std.specs.Prelude.{◌≡◌};
ghost use Rattle.checker.specs.Refusals.{check_refusal_number};
ghost use Rattle.checker.specs.declared.refusal.CheckRefusal.TheVariants.{Question};

use questions::Refusal;

// The question is refused, or a check fails.
#[derive(Clone, Copy, Debug, PartialEq, Eq)]
pub enum CheckRefusal {
    Question(Refusal),
    Failed,
}

impl CheckRefusal {
    // The refusal's number: the question's, or 22.
    pub fn number(self) -> u8
        ensures { result ≡ check_refusal_number self }
    {
        match self {
            Self::Question(refusal) => refusal.number(),
            Self::Failed => 22,
        }
    }
}

impl From<Refusal> for CheckRefusal {
    ghost from_gives = { λ r e. e ≡ Question r };

    fn from(refusal: Refusal) -> CheckRefusal {
        CheckRefusal::Question(refusal)
    }
}
