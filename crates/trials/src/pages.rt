// What has to be printed for a text, made from a plain reader's layout and plain nested loops; and whether it is.
use super::layout::Layout;
use super::limits::PROGRAM_LISTING;
use super::nested::list_plain;
use super::refusals::Refusal;
use super::writer::Writer;
use search::Counts;
use text::list_text;

// Room for what is printed.
const PAGE: usize = 30000;

// The byte that stands in a page before.
const BEFORE: u8 = 7;

// The digits of a number below 100,000.
pub(crate) fn put_number(out: &mut Writer<u8>, number: usize) {
    for unit in [10000, 1000, 100, 10, 1] {
        if unit <= number || unit == 1 {
            out.put(b'0' + (number / unit % 10) as u8);
        }
    }
}

// A line of fields, one space between two.
pub(crate) fn put_fields<T, F: FnMut(&mut Writer<u8>, &T)>(
    out: &mut Writer<u8>,
    fields: &[T],
    mut put: F,
)
    requires { F.IsAlwaysCallable put }
{
    for (place, field) in fields.iter().enumerate() {
        if place != 0 {
            out.put(b' ');
        }
        put(out, field);
    }
    out.put(b'\n');
}

// A line of numbers.
pub(crate) fn put_line(out: &mut Writer<u8>, numbers: &[u16]) {
    put_fields(
        out,
        numbers,
        |out, number| put_number(out, *number as usize),
    );
}

// Lines of so many numbers.
pub(crate) fn put_lines(out: &mut Writer<u8>, numbers: &[u16], size: usize) {
    for line in numbers.chunks(size.max(1)) {
        put_line(out, line);
    }
}

// Where the line of a place ends; where it has no end, the text's.
pub(crate) fn line_end(text: &[u8], place: usize) -> usize {
    text.iter()
        .enumerate()
        .skip(place)
        .find(|(_, byte)| **byte == b'\n')
        .map_or(text.len(), |(end, _)| end.saturating_add(1))
}

// The page of a run: the text's top line, the tuples, as far as it came, and how it ended.
fn put_run(out: &mut Writer<u8>, text: &[u8], layout: &Layout, counts: Counts) {
    let mut plain = [0u16; PROGRAM_LISTING];
    let listed = list_plain(layout, &mut plain);
    let n = layout.widths.len();
    let came = if counts.number == 0 {
        listed.len()
    } else {
        (counts.tuples as usize).saturating_mul(n).min(listed.len())
    };
    out.put_all(&text[..line_end(text, 0).min(text.len())]);
    put_lines(out, &listed[..came], n);
    if counts.number == 0 {
        out.put_all(b"complete");
    } else {
        out.put_all(b"stopped ");
        put_number(out, counts.number as usize);
    }
    for count in [counts.tuples, counts.boxes, counts.resolutions] {
        out.put(b' ');
        put_number(out, count as usize);
    }
    out.put(b'\n');
}

// Whether what is printed for a text is a page, and nothing is written where one byte lacks room.
pub(crate) fn prints(text: &[u8], wanted: &[u8]) -> bool {
    let mut page = [BEFORE; PAGE];
    let short = wanted.len().saturating_sub(1).min(PAGE);
    if list_text(text, &mut page[..short]) != wanted.len()
        || page.iter().any(|byte| *byte != BEFORE)
    {
        return false;
    }
    list_text(text, &mut page) == wanted.len()
        && page.starts_with(wanted)
        && page.iter().skip(wanted.len()).all(|byte| *byte == BEFORE)
}

// Whether a refusal is printed, and nothing else.
pub(crate) fn prints_refusal(text: &[u8], refusal: Refusal) -> bool {
    let mut buffer = [0u8; PAGE];
    let mut out = Writer::new(&mut buffer);
    out.put_all(b"refused ");
    put_number(&mut out, refusal as usize);
    out.put(b'\n');
    prints(text, out.written())
}

// Whether a run's page is printed: the tuples are those of plain nested loops, as far as it came.
pub(crate) fn prints_run(text: &[u8], layout: &Layout, counts: Counts) -> bool {
    let mut buffer = [0u8; PAGE];
    let mut out = Writer::new(&mut buffer);
    put_run(&mut out, text, layout, counts);
    out.count() <= PAGE && prints(text, out.written())
}
