// Lines: the names or the numbers of a line, field by field.
ghost use Rattle.std.specs.Prelude.{◌≡◌, ◌&&◌, set, eqb};
ghost use Rattle.fields.specs.Fields.{fields_of, is_name, place};
ghost use Rattle.fields.specs.Limits.{onward};
ghost use Rattle.fields.specs.Lines.{name_line, low_place, number_line, place_line, numbers_in, places_in};
ghost use Rattle.fields.specs.Names.{refusal_number, names_in, names_by};

use super::MAX_VALUE;
use super::count::next_place;
use super::field::{is_name, is_space, number_in, place_or_count};
use boxes::MAX_ATTRIBUTES;

// Why a line of names is refused: it has not the form of one, or a name stands in it twice.
#[derive(Clone, Copy, Debug, PartialEq, Eq)]
pub enum NamesRefusal {
    Malformed,
    Repeated,
}

impl NamesRefusal {
    // Its number.
    pub fn number(self) -> u8
        ensures { result ≡ refusal_number self }
    {
        match self {
            Self::Malformed => 15,
            Self::Repeated => 16,
        }
    }
}

// A line of names: how many fields it has, whether all are names, and whether no two are the same.
#[derive(Clone, Copy, Debug, PartialEq, Eq)]
pub struct NameLine {
    pub count: usize,
    pub named: bool,
    pub distinct: bool,
}

// What the fields of a line stand for: how many they are, whether each is right, and the values of
// the first ones.
#[derive(Clone, Copy, Debug, PartialEq, Eq)]
pub struct ValueLine {
    pub count: usize,
    pub right: bool,
    pub values: [u16; MAX_ATTRIBUTES],
}

// Puts the next field's value behind those of the first so many fields, if there is a place for it, and answers
// how many fields there are then.
pub fn put_value(values: &mut [u16], count: usize, value: u16) -> usize
    ensures values_after { values.new ≡ set values.old count value }
    ensures next { result ≡ onward count 1 }
{
    if count < values.len() {
        values[count] = value;
    }
    next_place(count)
}

impl NameLine {
    // How many names a line has, of which this is to be said, if it may have up to `most`.
    pub(crate) fn up_to(self, most: usize) -> Result<usize, NamesRefusal>
        ensures { result ≡ names_by most self }
    {
        if most < self.count || !self.named {
            return Err(NamesRefusal::Malformed);
        }
        if !self.distinct {
            return Err(NamesRefusal::Repeated);
        }
        Ok(self.count)
    }
}

// Whether a field more of a line is a name, if those before it are.
fn still_named(named: bool, field: &[u8]) -> bool
    ensures { result ≡ (named && is_name field.now) }
{
    named && is_name(field)
}

// Whether a field more of a line is none of those before it, which are so many, if no two of these are the same.
fn still_distinct(distinct: bool, line: &[u8], field: &[u8], count: usize) -> bool
    ensures { result ≡ (distinct && eqb (place field.now (fields_of line.now)) count) }
{
    distinct && place_or_count(line, field) == count
}

// What there is to say of a line of names.
pub fn read_names(line: &[u8]) -> NameLine
    ensures { result ≡ name_line line.now }
{
    let mut count = 0;
    let mut named = true;
    let mut distinct = true;
    for field in line.split(is_space) {
        named = still_named(named, field);
        distinct = still_distinct(distinct, line, field, count);
        count = next_place(count);
    }
    NameLine {
        count,
        named,
        distinct,
    }
}

// How many names a line of up to `most` names has.
pub fn count_names(line: &[u8], most: usize) -> Result<usize, NamesRefusal>
    ensures { result ≡ names_in most line.now }
{
    read_names(line).up_to(most)
}

// A place as a value: the highest one for a place that is none.
fn as_value(place: usize) -> u16
    ensures { result ≡ low_place place }
{
    place.min(MAX_VALUE) as u16
}

// The places of a line's names among those at the top, right where they are below `names`.
pub fn read_places(top: &[u8], names: usize, line: &[u8]) -> ValueLine
    ensures { result ≡ place_line top.now names line.now }
{
    let mut count = 0;
    let mut right = true;
    let mut values = [0u16; MAX_ATTRIBUTES];
    for field in line.split(is_space) {
        let place = place_or_count(top, field);
        count = put_value(&mut values, count, as_value(place));
        right &= place < names;
    }
    ValueLine {
        count,
        right,
        values,
    }
}

// The places of a line's names, if all stand at the top.
pub fn take_places(top: &[u8], line: &[u8]) -> Option<[u16; MAX_ATTRIBUTES]>
    ensures { result ≡ places_in top.now line.now }
{
    let places = read_places(top, top.split(is_space).count(), line);
    places.right.then_some(places.values)
}

// The numbers of a line.
pub fn read_numbers(line: &[u8]) -> ValueLine
    ensures { result ≡ number_line line.now }
{
    let mut count = 0;
    let mut right = true;
    let mut values = [0u16; MAX_ATTRIBUTES];
    for field in line.split(is_space) {
        let number = number_in(field);
        count = put_value(&mut values, count, number.unwrap_or(0));
        right &= number.is_some();
    }
    ValueLine {
        count,
        right,
        values,
    }
}

// The numbers of a line of just so many.
pub fn take_numbers(line: &[u8], most: usize) -> Option<[u16; MAX_ATTRIBUTES]>
    ensures { result ≡ numbers_in most line.now }
{
    let numbers = read_numbers(line);
    let is_right = numbers.count == most && numbers.right;
    is_right.then_some(numbers.values)
}
