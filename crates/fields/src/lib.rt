// Fields of byte files, for every reader and writer of one: names, numbers and places in a line, the
// line of names at the top, and bytes, numbers and tuples put into a lent slice. Every slice and every place
// gets an answer. Assumes nothing.
#![tactic(auto)]

mod count;
mod field;
mod lines;
mod printer;
mod top;

pub use field::{LINE_END, SPACE, number_in, part_end, place_of};
pub use lines::{
    NameLine, NamesRefusal, ValueLine, count_names, put_value, read_names, read_numbers,
    read_places, take_numbers, take_places,
};
pub use printer::{
    print_whole, put_bytes, put_fields, put_lines, put_number, put_tuple, put_tuples,
};
pub use top::{RefusedTop, read_top};

// The most bytes of a text or of a comma-separated file.
pub const MAX_BYTES: usize = 60000;

// The most letters of a name.
pub const MAX_NAME: usize = 12;

// The highest number.
pub(crate) const MAX_VALUE: usize = 65535;
