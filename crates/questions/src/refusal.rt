// The refusals of a question: one for each question that its words can be answered no.
ghost use Rattle.std.specs.Prelude.{◌≡◌};
ghost use Rattle.questions.specs.Refusals.{refusal_number};

// By number: 1 to 12, and 28.
#[derive(Clone, Copy, Debug, PartialEq, Eq)]
pub enum Refusal {
    // No words, or too many.
    WordCount = 1,
    // The number of attributes is out of range.
    AttributeCount = 2,
    // The words end too early.
    MissingWord = 3,
    // A width is out of range.
    WidthRange = 4,
    // The number of tables is out of range.
    TableCount = 5,
    // A table's arity is out of range.
    ArityRange = 6,
    // An attribute number is too high, or not above the one before.
    AttributeNumber = 7,
    // A table has too many rows or pairs.
    RowCount = 8,
    // A value is too high for its width.
    HighValue = 9,
    // A row or a pair is not above the one before.
    OutOfOrder = 10,
    // Words follow the last table.
    WordsLeft = 11,
    // An attribute stands in no table, or in open ones alone.
    BareAttribute = 12,
    // A pair's lowest value is above its highest.
    ReversedPair = 28,
}

impl Refusal {
    // The number of the question that was answered no.
    pub fn number(self) -> u8
        ensures { result ≡ refusal_number self }
    {
        self as u8
    }
}
