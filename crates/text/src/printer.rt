// The printer: the last line of a print into a lent slice, by the printer of `fields`.
ghost use Rattle.fields.specs.Puts.{Puts};
ghost use Rattle.text.specs.Prints.{refusal};
ghost use Rattle.text.specs.Puts.{counts_line, last_of};

use fields::{LINE_END, SPACE, put_bytes, put_number};
use search::Counts;

// Puts the three counts of a run and the line's end.
fn put_counts(out: &mut [u8], at: usize, counts: Counts) -> usize
    ensures { Puts (counts_line counts) at out.old out.new result }
{
    let tuples = put_number(out, at, counts.tuples, SPACE);
    let boxes = put_number(out, tuples, counts.boxes, SPACE);
    put_number(out, boxes, counts.resolutions, LINE_END)
}

// Puts the last line of a run.
pub(crate) fn put_last(out: &mut [u8], at: usize, counts: Counts) -> usize
    ensures { Puts (last_of counts) at out.old out.new result }
{
    let number = counts.number;
    if number == 0 {
        let end = put_bytes(out, at, b"complete ");
        return put_counts(out, end, counts);
    }
    let word = put_bytes(out, at, b"stopped ");
    let end = put_number(out, word, number as u32, SPACE);
    put_counts(out, end, counts)
}

// Puts all that a refusal prints.
pub(crate) fn put_refusal(out: &mut [u8], number: u8) -> usize
    ensures { Puts (refusal number) 0 out.old out.new result }
{
    let end = put_bytes(out, 0, b"refused ");
    put_number(out, end, number as u32, LINE_END)
}
