// Bytes and fields: what a byte is, where a part of a text ends, whether a field is a name or a
// number.
ghost use Rattle.std.specs.Prelude.{◌≡◌, eqb};
ghost use Rattle.std.specs.Result.{result_ok};
ghost use Rattle.questions.specs.Orders.{same};
ghost use Rattle.fields.specs.Fields.{space, is_letter, class_of, is_name, fields_of, place};
ghost use Rattle.fields.specs.Parts.{part_end};
ghost use Rattle.fields.specs.Lines.{number_in, place_in, place_told};

use super::MAX_NAME;

// The byte between two fields.
pub const SPACE: u8 = 32;

// The byte that ends a line.
pub const LINE_END: u8 = 10;

// What a byte is.
#[derive(Clone, Copy, Debug, PartialEq, Eq)]
pub enum Class {
    Letter,
    Digit,
    Space,
    LineEnd,
    Other,
}

// The class of a byte.
fn class_of(byte: u8) -> Class
    ensures { result ≡ class_of byte }
{
    match byte {
        97..=122 => Class::Letter,
        48..=57 => Class::Digit,
        32 => Class::Space,
        10 => Class::LineEnd,
        _ => Class::Other,
    }
}

// The end of the part that begins at a place: where the next separator stands, or the end of all;
// beyond that the place itself.
pub fn part_end(bytes: &[u8], at: usize, separator: u8) -> usize
    ensures { result ≡ part_end separator bytes.now at }
{
    let Some(rest) = bytes.get(at..) else {
        return at;
    };
    let length = rest.iter().position(|byte| *byte == separator);
    at + length.unwrap_or(rest.len())
}

// Whether a byte is a small letter.
fn is_letter(byte: &u8) -> bool
    ensures { result ≡ is_letter byte.now }
{
    matches!(class_of(*byte), Class::Letter)
}

// Whether a field is a name.
pub(crate) fn is_name(field: &[u8]) -> bool
    ensures { result ≡ is_name field.now }
{
    if field.is_empty() {
        return false;
    }
    field.len() <= MAX_NAME && field.iter().all(is_letter)
}

// The number that a field is.
pub fn number_in(field: &[u8]) -> Option<u16>
    ensures { result ≡ number_in field.now }
{
    if field.is_empty() {
        return None;
    }
    if 1 < field.len() && field[0] == 48 {
        return None;
    }
    let mut value = 0u16;
    for byte in field {
        let Class::Digit = class_of(*byte) else {
            return None;
        };
        value = value.checked_mul(10)?.checked_add((*byte - 48) as u16)?;
    }
    Some(value)
}

// Whether a byte parts two fields.
pub(crate) fn is_space(byte: &u8) -> bool
    ensures { result ≡ eqb byte.now space }
{
    *byte == SPACE
}

// Whether two fields are the same. Fields are short: going through their bytes takes less time than `==`, which
// takes them by groups.
fn is_same(field: &[u8], other: &[u8]) -> bool
    ensures { result ≡ same field.now other.now }
{
    if field.len() != other.len() {
        return false;
    }
    field.iter().zip(other).all(|(byte, of)| *byte == *of)
}

// The first place of a field among those of a line; how many these are, where it is none of them.
pub fn place_of(line: &[u8], field: &[u8]) -> Result<usize, usize>
    ensures is { result_ok result ≡ place_in (fields_of line.now) field.now }
    ensures place { place_told result ≡ place field.now (fields_of line.now) }
{
    match line.split(is_space).position(|other| is_same(field, other)) {
        Some(place) => Ok(place),
        None => Err(line.split(is_space).count()),
    }
}

// The first place of a field among those of a line, or how many these are, as one number.
pub(crate) fn place_or_count(line: &[u8], field: &[u8]) -> usize
    ensures { result ≡ place field.now (fields_of line.now) }
{
    match place_of(line, field) {
        Ok(place) => place,
        Err(count) => count,
    }
}
