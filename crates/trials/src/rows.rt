// Trials of the tables: of each table and each point, whether the point's values are a row, and whether
// there is a gap box, is what a plain look at all rows finds.
use super::layout::Layout;
use super::nested::Point;
use questions::{Directory, read_question};
use tables::{gap_box_in, is_row_in};

// Whether a table has, or has not, a row and no gap box at a point.
fn is_so(words: &[u16], directory: &Directory, table: usize, point: Point, wanted: bool) -> bool {
    let widths = directory.widths;
    let entries = directory.entries;
    let gap = gap_box_in(words, widths, entries, table, point.values);
    let row = is_row_in(words, entries, table, point.values);
    row == wanted && gap.is_none() == wanted
}

// Whether every table answers so at every point.
pub(crate) fn rows_are(words: &[u16], layout: &Layout) -> bool {
    let Ok(directory) = read_question(words) else {
        return false;
    };
    (0..layout.points()).all(|number| {
        let point = layout.point(number);
        layout.tables().iter().enumerate().all(|(k, table)| {
            is_so(words, &directory, k, point, table.admits(&point))
        })
    })
}
