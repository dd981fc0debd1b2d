// The reader: one walk over the words, each of which is looked at once. Every part answers what it read,
// or the first refusal.
ghost use Rattle.std.specs.Prelude.{◌≡◌, ◌&&◌, ◌||◌, not, ◌≤◌, length, replicate, eqb, ltb};
ghost use Rattle.boxes.specs.Limits.{max_attributes, max_width};
ghost use Rattle.questions.specs.Limits.{max_tables, max_rows, open_mark, range_mark};
ghost use Rattle.questions.specs.Orders.{before};
ghost use Rattle.questions.specs.Directories.{no_entry};
ghost use Rattle.questions.specs.Questions.{out_of_range, arity_of, read_question};
ghost use Rattle.questions.specs.Says.{DirectorySays};
ghost use Rattle.questions.specs.Reads.{Arity, Few, WordSays, WidthsSay, AttributesSay, RowSays, RowsSay, PairSays, PairsSay, ContentsSay, TableSays, TablesSay, RestAsks, RestSays, with_entries};

use super::directory::{Directory, TableEntry, TableKind, cover_all};
use super::refusal::Refusal;
use super::widths::Widths;
use super::{MAX_ROWS, MAX_TABLES, MAX_WORDS, OPEN_MARK, RANGE_MARK};
use boxes::{MAX_ATTRIBUTES, MAX_WIDTH, interval};

// The word at a place.
fn word_at(question: &[u16], at: usize) -> Result<u16, Refusal>
    ensures { WordSays question.now at result }
{
    question.get(at).copied().ok_or(Refusal::MissingWord)
}

// Whether a word is not from 1 up to a limit.
fn out_of_range(word: u16, limit: usize) -> bool
    ensures { result ≡ out_of_range limit word }
{
    word == 0 || limit < word as usize
}

// The widths of n attributes, from a place on.
fn read_widths(question: &[u16], from: usize, n: usize) -> Result<Widths, Refusal>
    requires { n ≤ max_attributes }
    ensures { WidthsSay question.now from n result }
{
    let mut values = [0u16; MAX_ATTRIBUTES];
    for i in 0..n {
        let width = word_at(question, from + i)?;
        if out_of_range(width, MAX_WIDTH as usize) {
            return Err(Refusal::WidthRange);
        }
        values[i] = width;
    }
    Ok(Widths { values: values })
}

// The attribute numbers of a table, as many as its arity.
fn read_attributes(
    question: &[u16],
    from: usize,
    n: usize,
    arity: usize,
) -> Result<[usize; MAX_ATTRIBUTES], Refusal>
    requires { arity ≤ max_attributes }
    ensures { AttributesSay question.now from n arity result }
{
    let mut schema = [0usize; MAX_ATTRIBUTES];
    let mut next = 0usize;
    for i in 0..arity {
        let attribute = word_at(question, from + i)? as usize;
        if n <= attribute || attribute < next {
            return Err(Refusal::AttributeNumber);
        }
        schema[i] = attribute;
        next = attribute + 1;
    }
    Ok(schema)
}

// Whether a row comes before another of the same attributes.
fn comes_before(row: &[u16], other: &[u16]) -> bool
    requires { length row.now ≡ length other.now }
    ensures { result ≡ before row.now other.now }
{
    row < other
}

// A row. It has to be above the row before it, where there is one.
fn read_row(
    question: &[u16],
    from: usize,
    widths: Widths,
    schema: &[usize],
    above: Option<[u16; MAX_ATTRIBUTES]>,
) -> Result<[u16; MAX_ATTRIBUTES], Refusal>
    requires { Arity (length schema.now) }
    ensures { RowSays question.now from widths.values schema.now (length schema.now) above result }
{
    let arity = schema.len();
    let mut row = [0u16; MAX_ATTRIBUTES];
    for i in 0..arity {
        let value = word_at(question, from + i)?;
        if widths.limit(schema[i]) <= value as u32 {
            return Err(Refusal::HighValue);
        }
        row[i] = value;
    }
    if let Some(above) = above {
        if !comes_before(&above[..arity], &row[..arity]) {
            return Err(Refusal::OutOfOrder);
        }
    }
    Ok(row)
}

// The rows of a table.
fn read_rows(
    question: &[u16],
    from: usize,
    rows: usize,
    widths: Widths,
    schema: &[usize],
) -> Result<(), Refusal>
    requires { Arity (length schema.now) }
    ensures { RowsSay question.now from rows widths.values schema.now (length schema.now) result }
{
    let mut above = None;
    let mut at = from;
    for _ in 0..rows {
        let row = read_row(question, at, widths, schema, above)?;
        above = Some(row);
        at += schema.len();
    }
    Ok(())
}

// A pair of values of a width, answered by the least number above it. Its lowest value has to be at
// least the least number above the pair before it, and not above its highest.
fn read_pair(question: &[u16], at: usize, width: u16, least: u32) -> Result<u32, Refusal>
    requires { width ≤ max_width }
    ensures { PairSays question.now at width least result }
{
    let limit = interval::unit(width, 0);
    let lowest = word_at(question, at)? as u32;
    if limit <= lowest {
        return Err(Refusal::HighValue);
    }
    let highest = word_at(question, at + 1)? as u32;
    if limit <= highest {
        return Err(Refusal::HighValue);
    }
    if highest < lowest {
        return Err(Refusal::ReversedPair);
    }
    if lowest < least {
        Err(Refusal::OutOfOrder)
    } else {
        Ok(highest + 1)
    }
}

// The pairs of a range table.
fn read_pairs(question: &[u16], from: usize, pairs: usize, width: u16) -> Result<(), Refusal>
    requires { width ≤ max_width }
    ensures { PairsSay question.now from pairs width result }
{
    let mut least = 0u32;
    let mut at = from;
    for _ in 0..pairs {
        least = read_pair(question, at, width, least)?;
        at += 2;
    }
    Ok(())
}

// Whether the first word of a table is neither its arity, from 1 to n, nor the mark of a range table.
fn no_arity(word: u16, n: usize) -> bool
    ensures { result ≡ (not (eqb word range_mark) && out_of_range n word) }
{
    word as usize != RANGE_MARK && out_of_range(word, n)
}

// The arity of a table by its first word.
fn arity_of(word: u16) -> usize
    ensures { result ≡ arity_of word }
{
    if word as usize == RANGE_MARK {
        1
    } else {
        word as usize
    }
}

// Whether a number of rows or pairs is too high, and no mark of an open table.
fn too_many(number: usize) -> bool
    ensures { result ≡ (not (eqb number open_mark) && ltb max_rows number) }
{
    number != OPEN_MARK && MAX_ROWS < number
}

// What a table has: nothing after the mark of an open table; pairs after that of a range table, rows
// after an arity.
fn read_contents(
    question: &[u16],
    from: usize,
    first: u16,
    count: usize,
    widths: Widths,
    schema: [usize; MAX_ATTRIBUTES],
) -> Result<TableKind, Refusal>
    requires { Arity (arity_of first) × Few count × (from ≤ length question.now) }
    ensures { ContentsSay question.now from first count widths.values schema result }
{
    if count == OPEN_MARK {
        return Ok(TableKind::Open);
    }
    if first as usize == RANGE_MARK {
        read_pairs(question, from, count, widths.at(schema[0]))?;
        return Ok(TableKind::Pairs(count));
    }
    read_rows(question, from, count, widths, &schema[..first as usize])?;
    Ok(TableKind::Rows(count))
}

// A table: its arity, its attribute numbers, the number of its rows, its rows; or the mark of a range
// table, its attribute number, the number of its pairs, its pairs; or, after the attribute numbers,
// the mark of an open table.
fn read_table(
    question: &[u16],
    from: usize,
    n: usize,
    widths: Widths,
) -> Result<TableEntry, Refusal>
    requires { n ≤ max_attributes }
    ensures { TableSays question.now from n widths.values result }
{
    let first = word_at(question, from)?;
    if no_arity(first, n) {
        return Err(Refusal::ArityRange);
    }
    let arity = arity_of(first);
    let schema = read_attributes(question, from + 1, n, arity)?;
    let at = from + 1 + arity;
    let count = word_at(question, at)? as usize;
    if too_many(count) {
        return Err(Refusal::RowCount);
    }
    let begin = at + 1;
    let kind = read_contents(question, begin, first, count, widths, schema)?;
    Ok(TableEntry {
        begin: begin,
        arity: arity,
        schema: schema,
        kind: kind,
    })
}

// The tables, one after the other, into an array without entries; answers the place after the last. Lent, since
// a Result that carries the array is cleared and copied on its way.
fn read_tables(
    question: &[u16],
    from: usize,
    n: usize,
    widths: Widths,
    tables: usize,
    entries: &mut [TableEntry; MAX_TABLES],
) -> Result<usize, Refusal>
    requires { (tables ≤ max_tables) × (n ≤ max_attributes) × (entries.old ≡ replicate max_tables no_entry) }
    ensures { TablesSay question.now from n widths.values tables (with_entries entries.new result) }
{
    let mut at = from;
    for i in 0..tables {
        let entry = read_table(question, at, n, widths)?;
        entries[i] = entry;
        at = entry.end();
    }
    Ok(at)
}

// What follows the widths: the number of tables, the tables, and nothing more.
fn read_rest(question: &[u16], n: usize, widths: Widths) -> Result<Directory, Refusal>
    requires { RestAsks n widths.values }
    ensures { RestSays question.now n widths.values result }
{
    let at = 1 + n;
    let count = word_at(question, at)?;
    if out_of_range(count, MAX_TABLES) {
        return Err(Refusal::TableCount);
    }
    let tables = count as usize;
    let mut entries = [TableEntry::none(); MAX_TABLES];
    let end = read_tables(question, at + 1, n, widths, tables, &mut entries)?;
    if end < question.len() {
        return Err(Refusal::WordsLeft);
    }
    if !cover_all(&entries[..tables], n) {
        return Err(Refusal::BareAttribute);
    }
    let values = widths.values;
    Ok(Directory {
        dimension: n,
        widths: values,
        tables: tables,
        entries: entries,
    })
}

// The directory of a question, or its refusal.
pub fn read_question(question: &[u16]) -> Result<Directory, Refusal>
    ensures { DirectorySays question.now (read_question question.now) result }
{
    if MAX_WORDS < question.len() {
        return Err(Refusal::WordCount);
    }
    let Some(&count) = question.first() else {
        return Err(Refusal::WordCount);
    };
    if out_of_range(count, MAX_ATTRIBUTES) {
        return Err(Refusal::AttributeCount);
    }
    let n = count as usize;
    let widths = read_widths(question, 1, n)?;
    read_rest(question, n, widths)
}
