// The copy of a text: the text is read and its question run, and what the lift firm may see of it is
// put into a lent slice.
ghost use Rattle.std.specs.Prelude.{◌≡◌};
ghost use Rattle.fields.specs.Puts.{Puts};
ghost use Rattle.copies.specs.Puts.{LineAsks, marked_line, CopyAsks, copy_bytes};
ghost use Rattle.copies.specs.Says.{CopySays};

use super::lines::{put_end, put_line};
use super::marks::marks_of;
use boxes::MAX_ATTRIBUTES;
use fields::{print_whole, put_bytes};
use text::{LISTING_WORDS, TextRefusal, TextRun, put_run, run_text};

// The lent slice lacks room for a copy; how many bytes this has.
#[derive(Clone, Copy, Debug, PartialEq, Eq)]
pub struct NoRoom {
    pub bytes: u32,
}

// Puts the copy for an answer: for a run the names, the tuples of the listing with the marked fields hidden, and
// the last line.
fn put_copy(
    out: &mut [u8],
    text: &[u8],
    listing: &[u16],
    marks: [bool; MAX_ATTRIBUTES],
    answer: Result<TextRun, TextRefusal>,
) -> usize
    requires { CopyAsks listing.now answer }
    ensures { Puts (copy_bytes marks text.now listing.now answer) 0 out.old out.new result }
{
    match answer {
        Err(_) => put_bytes(out, 0, b"refused\n"),
        Ok(run) => put_run(
            out,
            text,
            listing,
            run,
            |place: &mut [u8], end: usize, tuple: &[u16]|
                requires { LineAsks tuple.now }
                ensures { Puts (marked_line marks tuple.now) end place.old place.new result }
            { put_line(place, end, tuple, marks) },
            put_end,
        ),
    }
}

// The copy of what the listing program prints for a text, with the attributes of the given numbers hidden:
// all of it at the front of out, or nothing where it does not fit; answers its length also then.
pub fn lift_copy(text: &[u8], hidden: &[u16], out: &mut [u8]) -> Result<u32, NoRoom>
    ensures { CopySays text.now hidden.now out.old out.new result }
{
    let mut listing = [0u16; LISTING_WORDS];
    let answer = run_text(text, &mut listing);
    let marks = marks_of(hidden);
    let count = print_whole(
        out,
        |place: &mut [u8]|
            requires { CopyAsks listing answer }
            ensures { Puts (copy_bytes marks text.entry.now listing answer) 0 place.old place.new result }
        { put_copy(place, text, &listing, marks, answer) },
    );
    let bytes = count as u32;
    if out.len() < count {
        return Err(NoRoom { bytes });
    }
    Ok(bytes)
}
