// A second, plain reader of texts: it takes one line after the other, and writes the words of the question.
use super::buffers::word;
use super::limits::{MOST_ATTRIBUTES, MOST_BYTES, MOST_LETTERS, MOST_TABLES, OPEN_MARK};
use super::refusals::Refusal;
use super::writer::Writer;

// The fields of a line, one space between two.
#[derive(Clone, Copy)]
struct Fields<'a> {
    fields: [&'a [u8]; MOST_ATTRIBUTES],
    count: usize,
}

impl<'a> Fields<'a> {
    // A line of more fields than there are attributes has no form.
    fn of(line: &'a [u8]) -> Result<Self, Refusal> {
        let none: &[u8] = &[];
        let mut fields = [none; MOST_ATTRIBUTES];
        let mut count = 0;
        for field in line.split(|byte| *byte == b' ') {
            if MOST_ATTRIBUTES <= count {
                return Err(Refusal::Form);
            }
            fields[count] = field;
            count += 1;
        }
        Ok(Fields { fields, count })
    }

    fn all(&self) -> &[&'a [u8]] {
        &self.fields[..self.count.min(MOST_ATTRIBUTES)]
    }
}

fn is_name(field: &[u8]) -> bool {
    !field.is_empty()
        && field.len() <= MOST_LETTERS
        && field.iter().all(|byte| byte.is_ascii_lowercase())
}

// The number that a field is: digits, without leading zeros.
fn number_of(field: &[u8]) -> Option<u16> {
    if field.is_empty() || (field.starts_with(b"0") && field.len() != 1) {
        return None;
    }
    let mut number = 0u16;
    for byte in field {
        let digit = byte.checked_sub(b'0').filter(|digit| *digit < 10)?;
        number = number.checked_mul(10)?.checked_add(u16::from(digit))?;
    }
    Some(number)
}

// The place of a name among others.
fn place_of(names: &[&[u8]], name: &[u8]) -> Option<usize> {
    names.iter().position(|other| *other == name)
}

fn are_names(fields: &[&[u8]]) -> bool {
    fields.iter().all(|field| is_name(field))
}

fn are_distinct(names: &[&[u8]]) -> bool {
    names
        .iter()
        .enumerate()
        .all(|(place, name)| place_of(names, name) == Some(place))
}

// What a line may be: an empty one, before a table or at the end; a table's names; or a row. The line `open` stands for all rows.
#[derive(Clone, Copy)]
enum Stage {
    Between,
    Names,
    Rows {
        arity: usize,
        mark: usize,
        rows: u16,
    },
}

// The reading of tables: the names at the top, the words so far and how many tables these have, and which line may come.
#[derive(Drop)]
struct Reader<'t, 'w> {
    top: &'t [&'t [u8]],
    words: Writer<'w, u16>,
    tables: u16,
    stage: Stage,
}

impl<'t, 'w> Reader<'t, 'w> {
    // Writes the numbers of a line.
    fn put_numbers(&mut self, fields: &[&[u8]]) -> Result<(), Refusal> {
        for field in fields {
            self.words.put(number_of(field).ok_or(Refusal::Form)?);
        }
        Ok(())
    }

    // A number of attributes or of tables, or a place among them, as a word.
    fn put(&mut self, count: usize) {
        self.words.put(word(count));
    }

    // The second line, which has the widths; their number is written before them, and that of the tables after them.
    fn take_widths(&mut self, line: &[u8]) -> Result<(), Refusal> {
        let fields = Fields::of(line)?;
        let widths = fields.all();
        let n = self.top.len();
        if widths.len() != n {
            return Err(Refusal::Form);
        }
        self.put(n);
        self.put_numbers(widths)?;
        self.put(0);
        Ok(())
    }

    // A table's names.
    fn take_names(&mut self, names: &[&[u8]]) -> Result<(), Refusal> {
        let arity = names.len();
        if self.top.len() < arity || !are_names(names) {
            return Err(Refusal::Form);
        }
        if !are_distinct(names) {
            return Err(Refusal::Name);
        }
        self.tables = self.tables.saturating_add(1);
        self.words
            .set(self.top.len().saturating_add(1), self.tables);
        self.put(arity);
        for name in names {
            let place = place_of(self.top, name).ok_or(Refusal::Name)?;
            self.put(place);
        }
        let mark = self.words.count();
        self.put(0);
        self.stage = Stage::Rows {
            arity,
            mark,
            rows: 0,
        };
        Ok(())
    }

    // A line after the widths. A table that has a row cannot be left open.
    fn take_line(&mut self, line: &[u8]) -> Result<(), Refusal> {
        if line.is_empty() && !matches!(self.stage, Stage::Names) {
            if MOST_TABLES <= self.tables as usize {
                return Err(Refusal::Form);
            }
            self.stage = Stage::Names;
            return Ok(());
        }
        let fields = Fields::of(line)?;
        match self.stage {
            Stage::Between => Err(Refusal::Form),
            Stage::Names => self.take_names(fields.all()),
            Stage::Rows { mark, rows: 0, .. } if line == b"open".as_slice() => {
                self.words.set(mark, OPEN_MARK);
                self.stage = Stage::Between;
                Ok(())
            }
            Stage::Rows { arity, mark, rows } => {
                if fields.count != arity {
                    return Err(Refusal::Form);
                }
                self.put_numbers(fields.all())?;
                let rows = rows.saturating_add(1);
                self.words.set(mark, rows);
                self.stage = Stage::Rows { arity, mark, rows };
                Ok(())
            }
        }
    }
}

// The words of the text's question, or why it is refused.
pub(crate) fn read_text_plain<'w>(
    text: &[u8],
    buffer: &'w mut [u16],
) -> Result<&'w [u16], Refusal> {
    if MOST_BYTES < text.len() {
        return Err(Refusal::ByteCount);
    }
    let mut lines = text.split(|byte| *byte == b'\n');
    // What stands after the last line's end.
    let rest = lines.next_back().unwrap_or(&[]);
    let fields = Fields::of(lines.next().ok_or(Refusal::Form)?)?;
    let top = fields.all();
    if !are_names(top) {
        return Err(Refusal::Form);
    }
    if !are_distinct(top) {
        return Err(Refusal::Name);
    }
    let mut reader = Reader {
        top,
        words: Writer::new(buffer),
        tables: 0,
        stage: Stage::Between,
    };
    reader.take_widths(lines.next().ok_or(Refusal::Form)?)?;
    for line in lines {
        reader.take_line(line)?;
    }
    if matches!(reader.stage, Stage::Names) || !rest.is_empty() {
        return Err(Refusal::Form);
    }
    Ok(reader.words.written())
}
