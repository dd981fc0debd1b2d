// The import: a table's file, record by record, into a question's table words.
ghost use Rattle.std.specs.Prelude.{◌≡◌, ◌∷◌, ◌++◌, suc, ◌+◌, ◌*◌, ◌≤◌, length};
ghost use Rattle.boxes.specs.Limits.{max_attributes};
ghost use Rattle.boxes.specs.Fits.{Each};
ghost use Rattle.questions.specs.Limits.{max_rows};
ghost use Rattle.questions.specs.Questions.{table_with};
ghost use Rattle.questions.specs.Words.{flat, over};
ghost use Rattle.fields.specs.Fields.{fields_of};
ghost use Rattle.fields.specs.Lines.{number_in, place_in};
ghost use Rattle.fields.specs.Names.{top_check};
ghost use Rattle.csv_tables.specs.Records.{records_of};
ghost use Rattle.csv_tables.specs.Columns.{sourced};
ghost use Rattle.csv_tables.specs.Keeping.{rows_in};
ghost use Rattle.csv_tables.specs.Imports.{imported, import_csv, read_header};
ghost use Rattle.csv_tables.specs.Says.{ImportedSays, ImportSays};
ghost use Rattle.csv_tables.specs.Claims.{ImportDelivered};
ghost use Rattle.csv_tables.specs.Importing.{record_number, header_number, Checked, placed_at, HeaderOf, RowsAsk, BodySays, TableAsk, FileAsk, TableRead};

use super::ROWS_WORDS;
use super::columns::{are_distinct, put_columns};
use super::record::{Record, read_record};
use super::refusal::{FileRefusal, Refused, read_names};
use super::rows::{add_row, put_row};
use boxes::MAX_ATTRIBUTES;
use fields::{MAX_BYTES, number_in, place_of};
use questions::MAX_ROWS;

// What became of an import: its number; how many words the table has, 0 for a refusal; the place of the
// refused record in the file, from 1, and 0 where there is none.
#[derive(Clone, Copy, Debug, PartialEq, Eq)]
pub struct Import {
    pub number: u8,
    pub count: u32,
    pub place: u32,
}

// A record whose fields all stand for values.
#[derive(Clone, Copy, Debug, PartialEq, Eq)]
pub struct Row {
    pub count: usize,
    pub values: [u16; MAX_ATTRIBUTES],
    pub next: usize,
}

// A record after the header, which has so many names, or why it is refused.
fn check_record(line: Option<Record>, arity: usize) -> Result<Row, FileRefusal>
    ensures { Checked line (record_number line arity) result }
{
    let Record {
        count,
        values,
        next,
    } = line.ok_or(FileRefusal::Grammar)?;
    if count != arity {
        return Err(FileRefusal::Grammar);
    }
    let values = values.ok_or(FileRefusal::Value)?;
    Ok(Row {
        count,
        values,
        next,
    })
}

// What was asked of a record, with its place.
fn at_record(checked: Result<Row, FileRefusal>, place: u32) -> Result<Row, Refused>
    ensures { result ≡ placed_at place checked }
{
    checked.map_err(|why| Refused {
        why,
        place: Some(place),
    })
}

// The records from a place on, each into its row: how many different rows there are, or why and where the
// file is refused.
fn read_rows(
    file: &[u8],
    from: usize,
    columns: &[u16],
    rows: &mut [u16],
    order: &mut [u16],
) -> Result<usize, Refused>
    requires { RowsAsk file.now from columns.now rows.old order.old }
    ensures { (a : RowsAsk file.now from columns.now rows.old order.old) → BodySays (fields_of a.names) a.header.texts (length columns.now) file.now from rows.new order.new result }
{
    let mut kept = Some(0);
    let mut place = 2;
    let mut at = from;
    while at < file.len() {
        let line = read_record(
            file,
            at,
            |field: &[u8]|
                ensures { result ≡ number_in field.now }
            { number_in(field) },
        );
        let row = at_record(check_record(line, columns.len()), place)?;
        kept = add_row(rows, order, kept, columns, row.values);
        at = row.next;
        place += 1;
    }
    kept.ok_or(Refused {
        why: FileRefusal::Rows,
        place: None,
    })
}

// Writes the words of a table: how many attributes it has, these, how many rows, and the rows in their
// order. The attributes are the header's own row.
fn put_table(
    words: &mut [u16],
    columns: &[u16],
    header: [u16; MAX_ATTRIBUTES],
    rows: &[u16],
    order: &[u16],
)
    requires few { length columns.now ≤ max_attributes }
    requires few_rows { length order.now ≤ max_rows }
    requires room { 2 + length columns.now + length order.now * length columns.now ≤ length words.old }
    requires each { Each (λ i. suc i * length columns.now ≤ length rows.now) order.now }
    ensures { words.new ≡ over (length columns.now ∷ (sourced columns.now header ++ (length order.now ∷ flat (rows_in (length columns.now) rows.now order.now)))) words.old }
{
    let arity = columns.len();
    words[0] = arity as u16;
    put_row(&mut words[1..arity + 1], columns, header);
    words[arity + 1] = order.len() as u16;
    let mut at = arity + 2;
    for number in order {
        let from = *number as usize * arity;
        words[at..at + arity].copy_from_slice(&rows[from..from + arity]);
        at += arity;
    }
}

// Writes a table if there is room for it.
fn write_table(
    words: &mut [u16],
    columns: &[u16],
    header: [u16; MAX_ATTRIBUTES],
    rows: &[u16],
    order: &[u16],
) -> Import
    requires { TableAsk columns.now rows.now order.now }
    ensures { ImportedSays (imported (table_with (sourced columns.now header) (rows_in (length columns.now) rows.now order.now))) words.old words.new result }
{
    let arity = columns.len();
    let size = 2 + arity + order.len() * arity;
    if words.len() < size {
        return Import {
            number: 13,
            count: size as u32,
            place: 0,
        };
    }
    put_table(words, columns, header, rows, order);
    Import {
        number: 0,
        count: size as u32,
        place: 0,
    }
}

// The header, or why it is refused.
fn check_header(line: Option<Record>) -> Result<Row, FileRefusal>
    ensures { Checked line (header_number line) result }
{
    let Record {
        count,
        values,
        next,
    } = line.ok_or(FileRefusal::Grammar)?;
    let values = values.ok_or(FileRefusal::Header)?;
    if count <= MAX_ATTRIBUTES && are_distinct(&values[..count]) {
        return Ok(Row {
            count,
            values,
            next,
        });
    }
    Err(FileRefusal::Header)
}

// The place of a name of the header among the attributes' names.
fn place_in(names: &[u8], field: &[u8]) -> Option<u16>
    requires { top_check names.now ≡ 0 }
    ensures { result ≡ place_in (fields_of names.now) field.now }
{
    let place = place_of(names, field).ok()?;
    Some(place as u16)
}

// The table of a file that is not too long, below a line of names that passed. Rows and order are
// scratch.
fn read_table(
    names: &[u8],
    dimension: usize,
    file: &[u8],
    words: &mut [u16],
    rows: &mut [u16],
    order: &mut [u16],
) -> Result<Import, Refused>
    requires { FileAsk names.now dimension file.now rows.old order.old }
    ensures { TableRead (read_header (fields_of names.now) (records_of file.now)) words.old words.new result }
{
    let line = read_record(
        file,
        0,
        |field: &[u8]|
            requires { top_check names.now ≡ 0 }
            ensures { result ≡ place_in (fields_of names.entry.now) field.now }
        { place_in(names, field) },
    );
    let header = at_record(check_header(line), 1)?;
    let mut sources = [0u16; MAX_ATTRIBUTES];
    let arity = put_columns(&header.values[..header.count], dimension, &mut sources);
    let columns = &sources[..arity];
    let count = read_rows(file, header.next, columns, rows, order)?;
    Ok(write_table(words, columns, header.values, rows, &order[..count]))
}

// Imports a table's file under the names of the attributes: its words at the front of words, if there is
// room for them, and nothing otherwise; or why and where the file is refused.
pub fn read_file(names: &[u8], file: &[u8], words: &mut [u16]) -> Result<Import, Refused>
    ensures { TableRead (import_csv names.now file.now) words.old words.new result }
{
    let dimension = read_names(names)?;
    if MAX_BYTES < file.len() {
        return Err(Refused {
            why: FileRefusal::Long,
            place: None,
        });
    }
    let mut rows = [0u16; ROWS_WORDS];
    let mut order = [0u16; MAX_ROWS];
    read_table(names, dimension, file, words, &mut rows, &mut order)
}

// The same, with a number for what became of it.
pub fn import_csv(names: &[u8], file: &[u8], words: &mut [u16]) -> Import
    ensures import_says { ImportSays names.now file.now words.old words.new result }
    ensures delivered { ImportDelivered names.now file.now words.old words.new result }
{
    match read_file(names, file, words) {
        Ok(import) => import,
        Err(refused) => Import {
            number: refused.why.number(),
            count: 0,
            place: refused.place.unwrap_or(0),
        },
    }
}
