// A second, plain reader of questions: it finds the first question answered no, or where everything stands.
use super::limits::{
    MOST_ATTRIBUTES, MOST_ROWS, MOST_TABLES, MOST_WIDTH, MOST_WORDS, OPEN_MARK, RANGE_MARK,
};
use super::refusals::Refusal;

// What a table has: nothing yet, rows one after the other, or pairs of a lowest and a highest value.
#[derive(Clone, Copy)]
pub(crate) enum Body<'a> {
    Open,
    Rows(&'a [u16]),
    Pairs(&'a [u16]),
}

#[derive(Clone, Copy)]
pub(crate) struct Table<'a> {
    pub attributes: &'a [u16],
    pub body: Body<'a>,
}

// An accepted question: the attributes' widths, and the tables.
#[derive(Clone, Copy)]
pub(crate) struct Layout<'a> {
    pub widths: &'a [u16],
    tables: [Table<'a>; MOST_TABLES],
    count: usize,
}

impl<'a> Table<'a> {
    pub(crate) fn is_open(&self) -> bool {
        matches!(self.body, Body::Open)
    }
}

impl<'a> Layout<'a> {
    pub(crate) fn tables(&self) -> &[Table<'a>] {
        &self.tables[..self.count.min(MOST_TABLES)]
    }

    // The bits of all attributes.
    pub(crate) fn all_bits(&self) -> usize {
        self.widths.iter().fold(0, |bits: usize, width| bits.saturating_add(*width as usize))
    }

    // Whether each attribute stands in some table that is not open.
    fn is_covered(&self) -> bool {
        (0..self.widths.len()).all(|a| {
            self.tables().iter().any(|table| !table.is_open()
                && table.attributes.iter().any(|b| *b as usize == a))
        })
    }
}

// An attribute's width.
pub(crate) fn width_of(widths: &[u16], a: u16) -> u16 {
    widths.get(a as usize).copied().unwrap_or(0)
}

// Whether a value lies within a width.
fn is_within(value: u16, width: u16) -> bool {
    (value as u32) < 1u32 << (width % 32)
}

// The reading of a question: the words that are left, and the widths once they are read.
#[derive(Clone, Copy)]
struct Reader<'a> {
    rest: &'a [u16],
    widths: &'a [u16],
}

impl<'a> Reader<'a> {
    // The next word.
    fn word(&mut self) -> Result<u16, Refusal> {
        let (word, rest) = self.rest.split_first().ok_or(Refusal::MissingWord)?;
        self.rest = rest;
        Ok(*word)
    }

    // The next words, so many, or all that are left where these are fewer.
    fn words(&mut self, count: usize) -> &'a [u16] {
        let (words, rest) = self.rest.split_at(count.min(self.rest.len()));
        self.rest = rest;
        words
    }

    // The widths.
    fn read_widths(&mut self, count: usize) -> Result<(), Refusal> {
        let widths = self.words(count);
        if widths.iter().any(|width| !(1..=MOST_WIDTH).contains(width)) {
            return Err(Refusal::WidthRange);
        }
        if widths.len() < count {
            return Err(Refusal::MissingWord);
        }
        self.widths = widths;
        Ok(())
    }

    // A table's attributes.
    fn read_attributes(&mut self, count: usize) -> Result<&'a [u16], Refusal> {
        let n = self.widths.len();
        let attributes = self.words(count);
        if attributes.iter().any(|a| n <= *a as usize) || !attributes.is_sorted_by(|a, b| a < b) {
            return Err(Refusal::AttributeNumber);
        }
        if attributes.len() < count {
            return Err(Refusal::MissingWord);
        }
        Ok(attributes)
    }

    // Rows, each above the one before.
    fn read_rows(&mut self, count: usize, attributes: &[u16]) -> Result<&'a [u16], Refusal> {
        let widths = self.widths;
        let arity = attributes.len().max(1);
        let all = count.saturating_mul(arity);
        let rows = self.words(all);
        let mut before: &[u16] = &[];
        for row in rows.chunks(arity) {
            if row
                .iter()
                .zip(attributes)
                .any(|(value, a)| !is_within(*value, width_of(widths, *a)))
            {
                return Err(Refusal::HighValue);
            }
            if row.len() == arity && row <= before {
                return Err(Refusal::OutOfOrder);
            }
            before = row;
        }
        if rows.len() < all {
            return Err(Refusal::MissingWord);
        }
        Ok(rows)
    }

    // Pairs of values of a width.
    fn read_pairs(&mut self, count: usize, width: u16) -> Result<&'a [u16], Refusal> {
        let all = count.saturating_mul(2);
        let pairs = self.words(all);
        let mut before = None;
        for pair in pairs.chunks(2) {
            if pair.iter().any(|value| !is_within(*value, width)) {
                return Err(Refusal::HighValue);
            }
            if let [lowest, highest] = pair {
                if highest < lowest {
                    return Err(Refusal::ReversedPair);
                }
                if before.is_some_and(|before| *lowest <= before) {
                    return Err(Refusal::OutOfOrder);
                }
                before = Some(*highest);
            }
        }
        if pairs.len() < all {
            return Err(Refusal::MissingWord);
        }
        Ok(pairs)
    }

    // How many rows or pairs a table has, and these; none follow the mark of an open table.
    fn read_body(&mut self, ranged: bool, attributes: &[u16]) -> Result<Body<'a>, Refusal> {
        let count = self.word()?;
        if count == OPEN_MARK {
            return Ok(Body::Open);
        }
        let count = count as usize;
        if MOST_ROWS < count {
            return Err(Refusal::RowCount);
        }
        if ranged {
            let width = attributes.first().map_or(0, |a| width_of(self.widths, *a));
            Ok(Body::Pairs(self.read_pairs(count, width)?))
        } else {
            Ok(Body::Rows(self.read_rows(count, attributes)?))
        }
    }

    // A table: its arity, which a range table's mark stands for, its attributes, and its rows or pairs.
    fn read_table(&mut self) -> Result<Table<'a>, Refusal> {
        let mark = self.word()?;
        let ranged = mark == RANGE_MARK;
        let arity = if ranged { 1 } else { mark as usize };
        if arity == 0 || self.widths.len() < arity {
            return Err(Refusal::ArityRange);
        }
        let attributes = self.read_attributes(arity)?;
        let body = self.read_body(ranged, attributes)?;
        Ok(Table { attributes, body })
    }
}

// The layout of a question, but for whether each attribute stands in a table that is not open.
pub(crate) fn read_layout(words: &[u16]) -> Result<Layout<'_>, Refusal> {
    if words.is_empty() || MOST_WORDS < words.len() {
        return Err(Refusal::WordCount);
    }
    let mut reader = Reader {
        rest: words,
        widths: &[],
    };
    let n = reader.word()? as usize;
    if n == 0 || MOST_ATTRIBUTES < n {
        return Err(Refusal::AttributeCount);
    }
    reader.read_widths(n)?;
    let count = reader.word()? as usize;
    if count == 0 || MOST_TABLES < count {
        return Err(Refusal::TableCount);
    }
    let none = Table {
        attributes: &[],
        body: Body::Open,
    };
    let mut layout = Layout {
        widths: reader.widths,
        tables: [none; MOST_TABLES],
        count,
    };
    for table in layout.tables.iter_mut().take(count) {
        *table = reader.read_table()?;
    }
    if !reader.rest.is_empty() {
        return Err(Refusal::WordsLeft);
    }
    Ok(layout)
}

// The layout of an accepted question, or the first question that is answered no.
pub(crate) fn read_plain(words: &[u16]) -> Result<Layout<'_>, Refusal> {
    let layout = read_layout(words)?;
    if !layout.is_covered() {
        return Err(Refusal::BareAttribute);
    }
    Ok(layout)
}
