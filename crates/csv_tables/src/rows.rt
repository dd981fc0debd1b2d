// Rows, ascending, each once. The rows stand one after the other as they came, and beside them their
// order: their numbers, so that the rows ascend in that order. A new row's place is found by halves,
// and only numbers are moved to make room for it.
ghost use Rattle.std.specs.Prelude.{◌≡◌, List, map, ℕ, suc, ◌+◌, ◌*◌, ◌≤◌, ◌<◌, length, take};
ghost use Rattle.std.specs.Ordering.{nat_cmp};
ghost use Rattle.std.specs.Cmp.Lexicographic.{slice_cmp};
ghost use Rattle.boxes.specs.Limits.{max_attributes};
ghost use Rattle.boxes.specs.Fits.{Each};
ghost use Rattle.questions.specs.Good.{Sorted};
ghost use Rattle.csv_tables.specs.Columns.{sourced};
ghost use Rattle.csv_tables.specs.Keeping.{row_at, rows_in, PlaceSays, put_in, RowsKept, AddSays};

use boxes::{MAX_ATTRIBUTES, value_at};
use questions::MAX_ROWS;
use std::cmp::Ordering;

// How two rows compare: the first value that differs decides. Rows are short: going through their values takes less
// time than the slices' `cmp`, which goes by groups.
fn compare(left: &[u16], right: &[u16]) -> Ordering
    requires { length left.now ≡ length right.now }
    ensures { result ≡ slice_cmp nat_cmp left.now right.now }
{
    for i in 0..left.len() {
        if left[i] < right[i] {
            return Ordering::Less;
        }
        if right[i] < left[i] {
            return Ordering::Greater;
        }
    }
    Ordering::Equal
}

// Where a row stands among ascending rows, or an error with the place where it belongs.
fn find_place(rows: &[u16], order: &[u16], row: &[u16]) -> Result<usize, usize>
    requires few { length row.now ≤ max_attributes }
    requires each { Each (λ i. suc i * length row.now ≤ length rows.now) order.now }
    requires sorted { Sorted (rows_in (length row.now) rows.now order.now) }
    ensures { PlaceSays (rows_in (length row.now) rows.now order.now) row.now result }
{
    let arity = row.len();
    let mut low = 0;
    let mut high = order.len();
    while low < high {
        let middle = low + (high - low) / 2;
        let from = order[middle] as usize * arity;
        let order = compare(&rows[from..from + arity], row);
        match order {
            Ordering::Less => {
                low = middle + 1;
            }
            Ordering::Equal => {
                return Ok(middle);
            }
            Ordering::Greater => {
                high = middle;
            }
        }
    }
    Err(low)
}

// Puts a number into the first `count` numbers at a place; those behind it move up.
fn insert_at(order: &mut [u16], count: usize, at: usize, number: u16)
    requires count_in_bounds { count < length order.old }
    requires at_le_count { at ≤ count }
    ensures { take (suc count) order.new ≡ put_in at number (take count order.old) }
{
    order.copy_within(at..count, at + 1);
    order[at] = number;
}

// Writes a row: of each column, in attribute order, the value of its field.
pub(crate) fn put_row(row: &mut [u16], columns: &[u16], values: [u16; MAX_ATTRIBUTES])
    requires { length row.old ≡ length columns.now }
    ensures { row.new ≡ sourced columns.now values }
{
    for (i, source) in columns.iter().enumerate() {
        row[i] = value_at(values, *source as usize);
    }
}

// Keeps one row more, unless it is there already; a table has at most 4,096 different rows.
pub(crate) fn add_row(
    rows: &mut [u16],
    order: &mut [u16],
    kept: Option<usize>,
    columns: &[u16],
    values: [u16; MAX_ATTRIBUTES],
) -> Option<usize>
    requires { (rs : List (List ℕ)) × RowsKept (length columns.now) rows.old order.old kept rs }
    ensures { AddSays (length columns.now) (sourced columns.now values) rows.old rows.new order.old order.new kept result }
{
    let count = kept?;
    let from = count * columns.len();
    let to = from + columns.len();
    put_row(&mut rows[from..to], columns, values);
    let written = &rows[..];
    let Err(at) = find_place(written, &order[..count], &written[from..to]) else {
        return kept;
    };
    if count == MAX_ROWS {
        return None;
    }
    insert_at(order, count, at, count as u16);
    Some(count + 1)
}
