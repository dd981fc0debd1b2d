// The reader: a text of tables, line by line, into the words of a question.
ghost use Rattle.std.specs.Prelude.{◌≡◌, ◌+◌, ◌≤◌, ◌<◌, length, set};
ghost use Rattle.std.proofs.Math.Seq.{paste};
ghost use Rattle.fields.specs.Limits.{max_bytes};
ghost use Rattle.questions.specs.Limits.{open_mark};
ghost use Rattle.text.specs.declared.reader.Next.TheVariants.{Widths, Empty, Names, Row};
ghost use Rattle.text.specs.Texts.{may_end};
ghost use Rattle.text.specs.Says.{ReadSays};
ghost use Rattle.text.specs.Progressing.{Safe, start_of, waiting};
ghost use Rattle.text.specs.Reads.{TakeSays, TakesSay, LinesAsk, LinesSay, BeginSays, text_end};

use super::SPARE_WORDS;
use super::refusal::TextRefusal;
use fields::{
    LINE_END, MAX_BYTES, count_names, part_end, read_numbers, read_top, take_numbers, take_places,
};
use questions::{MAX_TABLES, OPEN_MARK};

// Which line comes next: the widths, the empty line before a table, a table's names, or a row, `open`
// right after the names, or the empty line before the next table.
#[derive(Clone, Copy, Debug, Default, PartialEq, Eq)]
pub enum Next {
    #[default]
    Widths,
    Empty,
    Names,
    Row,
}

impl Next {
    // Whether a text may end here: no line is missing.
    fn may_end(self) -> bool
        ensures { result ≡ may_end self }
    {
        matches!(self, Self::Empty | Self::Row)
    }
}

// What was read so far: which line comes next; how many attributes, tables and words there are; of
// the last table, how many attributes and rows, and the place of the word that counts its rows.
#[derive(Clone, Copy, Debug, Default, PartialEq, Eq)]
pub struct Progress {
    pub next: Next,
    pub dimension: usize,
    pub tables: usize,
    pub words: usize,
    pub arity: usize,
    pub rows: usize,
    pub counter: usize,
}

impl Progress {
    // After the top line.
    fn new(count: usize) -> Self
        ensures { result ≡ start_of count }
    {
        Self {
            dimension: count,
            ..Default::default()
        }
    }

    // With another line to come next.
    fn waiting(self, next: Next) -> Self
        ensures { result ≡ waiting next self }
    {
        Self { next, ..self }
    }
}

// Writes values from a word on. They are few, so that one by one takes less time than a call that copies them.
fn put_words(words: &mut [u16], at: usize, values: &[u16])
    requires { at + length values.now ≤ length words.old }
    ensures { words.new ≡ paste words.old at values.now (length values.now) }
{
    for (i, value) in values.iter().enumerate() {
        words[at + i] = *value;
    }
}

// The line of widths: the question's words begin with the number of attributes, the widths and the
// number of tables, which is 0 so far.
fn take_widths(line: &[u8], words: &mut [u16], progress: Progress) -> Result<Progress, TextRefusal>
    requires { Safe progress line.now words.old }
    ensures { TakesSay Widths line.now words.old words.new progress result }
{
    let count = progress.dimension;
    let values = take_numbers(line, count).ok_or(TextRefusal::Malformed)?;
    words[0] = count as u16;
    put_words(words, 1, &values[..count]);
    words[count + 1] = 0;
    Ok(Progress {
        next: Next::Empty,
        words: count + 2,
        ..Progress::new(count)
    })
}

// An empty line before a table.
fn begin_table(line: &[u8], progress: Progress) -> Result<Progress, TextRefusal>
    ensures { BeginSays line.now progress result }
{
    if line.len() != 0 || MAX_TABLES <= progress.tables {
        return Err(TextRefusal::Malformed);
    }
    Ok(progress.waiting(Next::Names))
}

// A table's line of names: its words begin with the number of its attributes, these, and the number
// of its rows, which is 0 so far.
fn take_names(
    top: &[u8],
    line: &[u8],
    words: &mut [u16],
    progress: Progress,
) -> Result<Progress, TextRefusal>
    requires top_len_bound { length top.now ≤ max_bytes }
    requires safe { Safe progress line.now words.old }
    ensures { progress.next ≡ Names → TakeSays top.now line.now words.old words.new progress result }
{
    let count = progress.dimension;
    let arity = count_names(line, count)?;
    let places = take_places(top, line).ok_or(TextRefusal::Names)?;
    let tables = progress.tables + 1;
    words[count + 1] = tables as u16;
    let at = progress.words;
    words[at] = arity as u16;
    put_words(words, at + 1, &places[..arity]);
    let counter = at + 1 + arity;
    words[counter] = 0;
    Ok(Progress {
        next: Next::Row,
        tables,
        words: counter + 1,
        arity,
        rows: 0,
        counter,
        ..progress
    })
}

// The line `open` of the last table, which has no rows: the word that counts them is the mark of an
// open table, and only an empty line or the end may follow.
fn leave_open(words: &mut [u16], progress: Progress) -> Progress
    requires { progress.counter < length words.old }
    ensures is { result ≡ waiting Empty progress }
    ensures words_after { words.new ≡ set words.old progress.counter open_mark }
{
    words[progress.counter] = OPEN_MARK as u16;
    progress.waiting(Next::Empty)
}

// A row of the last table, its line `open`, or the empty line before the next one.
fn take_row(line: &[u8], words: &mut [u16], progress: Progress) -> Result<Progress, TextRefusal>
    requires { Safe progress line.now words.old }
    ensures { TakesSay Row line.now words.old words.new progress result }
{
    if line.len() == 0 {
        return begin_table(line, progress);
    }
    if progress.rows == 0 && line == b"open".as_slice() {
        return Ok(leave_open(words, progress));
    }
    let arity = progress.arity;
    // not by `take_numbers`: most lines are rows, and the array is not copied here
    let numbers = read_numbers(line);
    if numbers.count != arity || !numbers.right {
        return Err(TextRefusal::Malformed);
    }
    let rows = progress.rows + 1;
    words[progress.counter] = rows as u16;
    let at = progress.words;
    put_words(words, at, &numbers.values[..arity]);
    Ok(Progress {
        words: at + arity,
        rows,
        ..progress
    })
}

// The next line.
fn take_line(
    top: &[u8],
    line: &[u8],
    words: &mut [u16],
    progress: Progress,
) -> Result<Progress, TextRefusal>
    requires top_len_bound { length top.now ≤ max_bytes }
    requires safe { Safe progress line.now words.old }
    ensures { TakeSays top.now line.now words.old words.new progress result }
{
    match progress.next {
        Next::Widths => take_widths(line, words, progress),
        Next::Empty => begin_table(line, progress),
        Next::Names => take_names(top, line, words, progress),
        Next::Row => take_row(line, words, progress),
    }
}

// What follows the last line's end: nothing may, and no line may be missing.
fn end_lines(left: usize, progress: Progress) -> Result<Progress, TextRefusal>
    ensures { result ≡ text_end left progress }
{
    if left != 0 || !progress.next.may_end() {
        return Err(TextRefusal::Malformed);
    }
    Ok(progress)
}

// The lines after the top line, which ends at a place.
fn read_lines(
    text: &[u8],
    top: usize,
    count: usize,
    words: &mut [u16],
) -> Result<Progress, TextRefusal>
    requires { LinesAsk text.now top count words.old }
    ensures { LinesSay text.now top words.old words.new result }
{
    let mut progress = Progress::new(count);
    let mut at = top + 1;
    loop {
        let end = part_end(text, at, LINE_END);
        if end == text.len() {
            return end_lines(end - at, progress);
        }
        progress = take_line(&text[..top], &text[at..end], words, progress)?;
        at = end + 1;
    }
}

// Reads a text of tables into the words of a question: how many words these are, or the refusal. A refused text
// leaves the words of the lines before the refused one. The words have to be longer than the text by
// `SPARE_WORDS`, or nothing is read.
pub fn read_text(text: &[u8], words: &mut [u16]) -> Result<usize, TextRefusal>
    ensures { ReadSays text.now words.old words.new result }
{
    if MAX_BYTES < text.len() {
        return Err(TextRefusal::TooLong);
    }
    if words.len() < text.len() + SPARE_WORDS {
        return Err(TextRefusal::NoRoom);
    }
    let end = part_end(text, 0, LINE_END);
    if end == text.len() {
        return Err(TextRefusal::Malformed);
    }
    let count = match read_top(&text[..end]) {
        Ok(count) => count,
        Err(refused) => return Err(TextRefusal::from(refused.why)),
    };
    let progress = read_lines(text, end, count, words)?;
    Ok(progress.words)
}
