// A record: what its fields stand for, and where the next one begins.
ghost use Rattle.std.specs.Prelude.{◌≡◌, ◌≤◌, List, ℕ, Option, length};
ghost use Rattle.csv_tables.specs.Judging.{Judges, NoQuotes, RecordSays};

use super::field::{After, read_field};
use boxes::MAX_ATTRIBUTES;
use fields::put_value;

// A record: how many fields it has, their values if each stands for one, and where what follows it
// begins.
#[derive(Clone, Copy, Debug, PartialEq, Eq)]
pub struct Record {
    pub count: usize,
    pub values: Option<[u16; MAX_ATTRIBUTES]>,
    pub next: usize,
}

// The record that begins at a place, if it is within the grammar. What a field stands for is judged by its
// bytes; one with a doubled quote stands for nothing.
pub(crate) fn read_record<F>(file: &[u8], from: usize, judge: F) -> Option<Record>
where
    F: Fn(&[u8]) -> Option<u16>,
    requires callable { F.IsAlwaysCallable judge }
    requires from_in_bounds { from ≤ length file.now }
    ensures { (j : List ℕ → Option ℕ) → Judges F.Fn judge j → NoQuotes j → RecordSays j file.now from result }
{
    let mut count = 0;
    let mut right = true;
    let mut values = [0u16; MAX_ATTRIBUTES];
    let mut at = from;
    'fields: loop {
        let field = read_field(file, at)?;
        let value = match field.text {
            Some(text) => judge(text),
            None => None,
        };
        count = put_value(&mut values, count, value.unwrap_or(0));
        right = right && value.is_some();
        match field.after {
            After::Comma(next) => {
                at = next;
            }
            After::Line(next) => {
                return Some(Record {
                    count: count,
                    values: right.then_some(values),
                    next: next,
                });
            }
        }
    }
}
