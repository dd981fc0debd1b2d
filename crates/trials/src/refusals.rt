// The questions that are asked of words and of texts, by the numbers that the papers give them.

// The question that is answered no.
#[derive(Clone, Copy)]
pub(crate) enum Refusal {
    WordCount = 1,
    AttributeCount = 2,
    MissingWord = 3,
    WidthRange = 4,
    TableCount = 5,
    ArityRange = 6,
    AttributeNumber = 7,
    RowCount = 8,
    HighValue = 9,
    OutOfOrder = 10,
    WordsLeft = 11,
    BareAttribute = 12,
    Form = 15,
    Name = 16,
    ByteCount = 17,
    ReversedPair = 28,
}
