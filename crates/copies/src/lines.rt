// The lines of a copy, put into a lent slice by the printer of `fields`.
ghost use Rattle.std.specs.Prelude.{[], ◌∷◌, ◌++◌};
ghost use Rattle.fields.specs.Puts.{Puts};
ghost use Rattle.copies.specs.Puts.{field_bytes, LineAsks, marked_line, end_of};

use boxes::MAX_ATTRIBUTES;
use fields::{LINE_END, SPACE, put_bytes, put_number};
use search::Counts;

// The byte in place of a hidden value.
const HIDDEN_FIELD: u8 = 45;

// Puts a field, the value or, where it is hidden, `-`, and the byte that follows it.
fn put_field(out: &mut [u8], at: usize, value: Option<u16>, after: u8) -> usize
    ensures { Puts (field_bytes value ++ (after ∷ [])) at out.old out.new result }
{
    match value {
        Some(value) => put_number(out, at, value as u32, after),
        None => put_bytes(out, at, &[HIDDEN_FIELD, after]),
    }
}

// Puts the line of a tuple, with each marked field hidden.
pub(crate) fn put_line(
    out: &mut [u8],
    at: usize,
    tuple: &[u16],
    marks: [bool; MAX_ATTRIBUTES],
) -> usize
    requires { LineAsks tuple.now }
    ensures { Puts (marked_line marks tuple.now) at out.old out.new result }
{
    let last = tuple.len() - 1;
    let mut end = at;
    for i in 0..last {
        let value = (!marks[i]).then_some(tuple[i]);
        end = put_field(out, end, value, SPACE);
    }
    let value = (!marks[last]).then_some(tuple[last]);
    put_field(out, end, value, LINE_END)
}

// Puts the last line: the word that a run with these counts ends in, and how many tuples there are.
pub(crate) fn put_end(out: &mut [u8], at: usize, counts: Counts) -> usize
    ensures { Puts (end_of counts) at out.old out.new result }
{
    let tuples = counts.tuples;
    if counts.number == 0 {
        let end = put_bytes(out, at, b"complete ");
        return put_number(out, end, tuples, LINE_END);
    }
    let end = put_bytes(out, at, b"stopped ");
    put_number(out, end, tuples, LINE_END)
}
