// The columns of a file in attribute order. A header is given by its attribute numbers: for each of its
// names the place of this name among the attributes' names. A column is given by the field of a record
// that it comes from.
ghost use Rattle.std.specs.Prelude.{◌≡◌, ◌≤◌, length, take};
ghost use Rattle.boxes.specs.Limits.{max_attributes};
ghost use Rattle.csv_tables.specs.Columns.{column_in, are_distinct, sources_from};

use boxes::MAX_ATTRIBUTES;

// The first place of an attribute in a header.
fn column_of(header: &[u16], attribute: u16) -> Option<usize>
    ensures { result ≡ column_in attribute header.now }
{
    header.iter().position(|name| *name == attribute)
}

// Whether no attribute stands twice in a header.
pub(crate) fn are_distinct(header: &[u16]) -> bool
    ensures { result ≡ are_distinct header.now }
{
    header
        .iter()
        .enumerate()
        .all(|(i, name)| column_of(header, *name) == Some(i))
}

// Puts the columns of a header, where there are so many attributes, and answers how many they are.
pub(crate) fn put_columns(
    header: &[u16],
    dimension: usize,
    columns: &mut [u16; MAX_ATTRIBUTES],
) -> usize
    requires few { length header.now ≤ max_attributes }
    requires few_attributes { dimension ≤ max_attributes }
    ensures count { result ≡ length (sources_from 0 dimension header.now) }
    ensures columns { take result columns.new ≡ sources_from 0 dimension header.now }
{
    let mut count = 0;
    for attribute in 0..dimension {
        if let Some(column) = column_of(header, attribute as u16) {
            columns[count] = column as u16;
            count += 1;
        }
    }
    count
}
