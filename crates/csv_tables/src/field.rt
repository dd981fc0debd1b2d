// A field of a record: where it stands, its quotes taken off, and what follows it.
ghost use Rattle.std.specs.Prelude.{◌≡◌, false, ◌≤◌, ◌<◌, length};
ghost use Rattle.std.specs.List.{take_while};
ghost use Rattle.csv_tables.specs.Records.{start, quoted, is_text, kind_of};
ghost use Rattle.csv_tables.specs.Reading.{stands_at, is_quote_at, TextEnd, AfterSays, FieldSays};

use super::{CARRIAGE, COMMA, FEED};

// The byte around a field in quotes.
const QUOTE: u8 = 34;

// What a byte is: text, which a field may hold without quotes, or one of those that part and end
// fields and lines; any other is outside the grammar.
#[derive(Clone, Copy, Debug, PartialEq, Eq)]
pub enum Kind {
    Text,
    Comma,
    Quote,
    Return,
    Feed,
    Other,
}

// What follows a field: a comma, and where the next field begins; or the record's end, and where what
// follows it begins.
#[derive(Clone, Copy, Debug, PartialEq, Eq)]
pub enum After {
    Comma(usize),
    Line(usize),
}

// A field: its bytes, unless a quote is doubled in them, and what follows.
#[derive(Clone, Copy)]
pub struct Field<'a> {
    pub text: Option<&'a [u8]>,
    pub after: After,
}

// The kind of a byte.
pub(crate) fn kind_of(byte: u8) -> Kind
    ensures { result ≡ kind_of byte }
{
    match byte {
        32..=33 => Kind::Text,
        34 => Kind::Quote,
        35..=43 => Kind::Text,
        44 => Kind::Comma,
        45..=126 => Kind::Text,
        13 => Kind::Return,
        10 => Kind::Feed,
        _ => Kind::Other,
    }
}

// Whether a byte stands at a place.
fn stands_at(file: &[u8], at: usize, byte: u8) -> bool
    requires { 0 < byte }
    ensures { result ≡ stands_at byte file.now at }
{
    file.get(at) == Some(&byte)
}

// Whether a byte is text.
fn is_text(byte: u8) -> bool
    ensures { result ≡ is_text byte }
{
    matches!(kind_of(byte), Kind::Text)
}

// How many of some bytes are text, from the first one on.
fn text_length(bytes: &[u8]) -> usize
    ensures { result ≡ length (take_while is_text bytes.now) }
{
    bytes.iter().take_while(|byte| is_text(**byte)).count()
}

// Where the text ends that begins at a place, at which no quote stands.
fn text_end(file: &[u8], from: usize) -> usize
    requires from_in_bounds { from ≤ length file.now }
    requires from_value { is_quote_at file.now from ≡ false }
    ensures { TextEnd file.now from result }
{
    from + text_length(&file[from..])
}

// What follows a field that has ended at a place, if it is within the grammar.
fn after_field(file: &[u8], at: usize) -> Option<After>
    requires { at ≤ length file.now }
    ensures { AfterSays file.now at result }
{
    if at == file.len() {
        return Some(After::Line(at));
    }
    match file[at] {
        COMMA => Some(After::Comma(at + 1)),
        CARRIAGE if stands_at(file, at + 1, FEED) => Some(After::Line(at + 1 + 1)),
        _ => None,
    }
}

// A field in quotes, whose first byte after the opening quote stands at a place, if it is within the
// grammar.
fn read_quoted(file: &[u8], from: usize) -> Option<Field<'_>>
    requires { from ≤ length file.now }
    ensures { FieldSays quoted file.now from result }
{
    let mut doubled = false;
    let mut at = from;
    while at < file.len() {
        match kind_of(file[at]) {
            Kind::Other => {
                return None;
            }
            Kind::Quote => {
                let next = at + 1;
                if stands_at(file, next, QUOTE) {
                    doubled = true;
                    at = next;
                } else {
                    let text = if doubled { None } else { Some(&file[from..at]) };
                    return Some(Field {
                        text: text,
                        after: after_field(file, next)?,
                    });
                }
            }
            _ => {}
        }
        at += 1;
    }
    None
}

// The field that begins at a place, if it is within the grammar.
pub(crate) fn read_field(file: &[u8], at: usize) -> Option<Field<'_>>
    requires { at ≤ length file.now }
    ensures { FieldSays start file.now at result }
{
    if stands_at(file, at, QUOTE) {
        return read_quoted(file, at + 1);
    }
    let to = text_end(file, at);
    Some(Field {
        text: Some(&file[at..to]),
        after: after_field(file, to)?,
    })
}
