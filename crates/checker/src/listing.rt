// The listing: tuples strictly ascending, each within the widths and with its row in every table.
ghost use Rattle.std.specs.Prelude.{◌≡◌, ◌^◌, ◌≤◌, ltb, length};
ghost use Rattle.boxes.specs.Limits.{max_attributes};
ghost use Rattle.boxes.specs.Every.{every};
ghost use Rattle.questions.specs.Directories.{filled_to};
ghost use Rattle.checker.specs.Checks.{is_point, ascending, read_tuples};
ghost use Rattle.checker.specs.Parts.{entry_has_row, entries_have_rows};

use super::widths::each_fits;
use boxes::{MAX_ATTRIBUTES, MAX_WIDTH};
use questions::TableEntry;
use tables::is_row;

// Whether each of the tuples, of n values each, comes before the next.
pub(crate) fn is_ascending(listing: &[u16], n: usize) -> bool
    requires { 1 ≤ n }
    ensures { result ≡ ascending (read_tuples n listing.now) }
{
    listing
        .chunks_exact(n)
        .is_sorted_by(|tuple, next| tuple < next)
}

// Whether a value is within a width.
fn is_within(width: u16, value: u16) -> bool
    ensures { result ≡ ltb value (2 ^ width) }
{
    if MAX_WIDTH <= width {
        return true;
    }
    value >> width == 0
}

// Whether each value is within its width.
fn is_point(widths: &[u16], tuple: &[u16]) -> bool
    ensures { result ≡ is_point widths.now tuple.now }
{
    each_fits(widths, tuple, is_within)
}

// Whether so is each of the tuples.
pub(crate) fn are_points(widths: &[u16], listing: &[u16]) -> bool
    requires { 1 ≤ length widths.now }
    ensures { result ≡ every (is_point widths.now) (read_tuples (length widths.now) listing.now) }
{
    listing
        .chunks_exact(widths.len())
        .all(|tuple| is_point(widths, tuple))
}

// A tuple as a point, with 0 at the attributes that it has not.
fn point_of(tuple: &[u16]) -> [u16; MAX_ATTRIBUTES]
    requires { length tuple.now ≤ max_attributes }
    ensures { result ≡ filled_to max_attributes 0 tuple.now }
{
    let mut point = [0; MAX_ATTRIBUTES];
    point[..tuple.len()].copy_from_slice(tuple);
    point
}

// Whether each of the tuples has its row in a table.
fn have_rows(question: &[u16], entry: TableEntry, listing: &[u16], n: usize) -> bool
    requires some { 1 ≤ n }
    requires few { n ≤ max_attributes }
    ensures { result ≡ every (entry_has_row question.now entry) (read_tuples n listing.now) }
{
    listing
        .chunks_exact(n)
        .all(|tuple| is_row(question, entry, point_of(tuple)))
}

// Whether each of the tuples has its row in each table.
pub(crate) fn have_all_rows(
    question: &[u16],
    entries: &[TableEntry],
    listing: &[u16],
    n: usize,
) -> bool
    requires some { 1 ≤ n }
    requires few { n ≤ max_attributes }
    ensures { result ≡ entries_have_rows question.now entries.now (read_tuples n listing.now) }
{
    entries
        .iter()
        .all(|entry| have_rows(question, *entry, listing, n))
}
