// The line of names at the top of a text.
ghost use Rattle.std.specs.Prelude.{◌≡◌, length};
ghost use Rattle.fields.specs.Fields.{fields_of};
ghost use Rattle.fields.specs.Names.{names_number, top_check, top_of, why_told, count_told};

use super::lines::{NamesRefusal, read_names};
use boxes::MAX_ATTRIBUTES;

// Why the top line is refused, and how many fields it has.
#[derive(Clone, Copy, Debug, PartialEq, Eq)]
pub struct RefusedTop {
    pub why: NamesRefusal,
    pub count: usize,
}

// How many attributes the top line names.
pub fn read_top(line: &[u8]) -> Result<usize, RefusedTop>
    ensures is { why_told result ≡ top_of line.now }
    ensures number { names_number (why_told result) ≡ top_check line.now }
    ensures count { count_told result ≡ length (fields_of line.now) }
{
    let names = read_names(line);
    match names.up_to(MAX_ATTRIBUTES) {
        Ok(count) => Ok(count),
        Err(why) => Err(RefusedTop {
            why,
            count: names.count,
        }),
    }
}
