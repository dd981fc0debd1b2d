// The printer: bytes, numbers, fields and tuples into a lent slice. A byte that has no place there is counted and not
// written, so that one run finds out how long a print is and the next one writes it.
ghost use Rattle.std.specs.Prelude.{◌≡◌, [], ◌∷◌, ◌++◌};
ghost use Rattle.fields.specs.Fields.{space, fields_of};
ghost use Rattle.fields.specs.Decimals.{decimal};
ghost use Rattle.std.specs.Prelude.{List, ℕ};
ghost use Rattle.fields.specs.Puts.{Puts, PrintsWith, PutsWhole, PutsLine, TakesTuples};
ghost use Rattle.fields.specs.Writing.{joined, swapped, tuple_by, tuples_by, lines_by, tuples_of};

use super::count::next_place;
use super::field::SPACE;

// Puts a byte at a place, and answers the next place.
fn put_byte(out: &mut [u8], at: usize, byte: u8) -> usize
    ensures { Puts (byte ∷ []) at out.old out.new result }
{
    if at < out.len() {
        out[at] = byte;
    }
    next_place(at)
}

// Puts bytes.
pub fn put_bytes(out: &mut [u8], at: usize, bytes: &[u8]) -> usize
    ensures { Puts bytes.now at out.old out.new result }
{
    let mut end = at;
    for byte in bytes {
        end = put_byte(out, end, *byte);
    }
    end
}

// Puts the decimal digits of a number.
fn put_digits(out: &mut [u8], at: usize, value: u32) -> usize
    ensures { Puts (decimal value) at out.old out.new result }
{
    let mut end = at;
    if 10 <= value {
        end = put_digits(out, at, value / 10);
    }
    put_byte(out, end, 48 + (value % 10) as u8)
}

// Puts a number and the byte that follows it.
pub fn put_number(out: &mut [u8], at: usize, value: u32, after: u8) -> usize
    ensures { Puts (decimal value ++ (after ∷ [])) at out.old out.new result }
{
    let end = put_digits(out, at, value);
    put_byte(out, end, after)
}

// Puts the values of a tuple with a byte between two, and then the bytes that end the line.
pub fn put_tuple(out: &mut [u8], at: usize, tuple: &[u16], between: u8, ends: &[u8]) -> usize
    ensures { Puts (tuple_by between ends.now tuple.now) at out.old out.new result }
{
    let mut end = at;
    for (i, value) in tuple.iter().enumerate() {
        if 0 < i {
            end = put_byte(out, end, between);
        }
        end = put_digits(out, end, *value as u32);
    }
    put_bytes(out, end, ends)
}

// Puts a line for each whole tuple of a listing, as the closure puts one; none where a tuple has no value.
pub fn put_lines<F>(out: &mut [u8], at: usize, listing: &[u16], arity: usize, put: F) -> usize
where
    F: Fn(&mut [u8], usize, &[u16]) -> usize,
    requires { TakesTuples F.Fn put arity }
    ensures { (line : List ℕ → List ℕ) → PutsLine F.Fn put line → Puts (lines_by line (tuples_of arity listing.now)) at out.old out.new result }
{
    if arity == 0 {
        return at;
    }
    let mut end = at;
    for tuple in listing.chunks_exact(arity) {
        end = put(out, end, tuple);
    }
    end
}

// Puts a line of its values for each whole tuple of a listing; none where a tuple has no value.
pub fn put_tuples(
    out: &mut [u8],
    at: usize,
    listing: &[u16],
    arity: usize,
    between: u8,
    ends: &[u8],
) -> usize
    ensures { Puts (tuples_by between ends.now (tuples_of arity listing.now)) at out.old out.new result }
{
    put_lines(
        out,
        at,
        listing,
        arity,
        |place: &mut [u8], end: usize, tuple: &[u16]|
            ensures { Puts (tuple_by between ends.entry.now tuple.now) end place.old place.new result }
        { put_tuple(place, end, tuple, between, ends) },
    )
}

// A byte, but another one for a space.
fn unspaced(byte: u8, between: u8) -> u8
    ensures { result ≡ swapped space between byte }
{
    if byte == SPACE {
        return between;
    }
    byte
}

// Puts the fields of a line with a byte between two that is not the line's own.
pub fn put_fields(out: &mut [u8], at: usize, line: &[u8], between: u8) -> usize
    ensures { Puts (joined between (fields_of line.now)) at out.old out.new result }
{
    let mut end = at;
    for byte in line {
        end = put_byte(out, end, unspaced(*byte, between));
    }
    end
}

// Puts a print if there is room for all of it, and nothing otherwise; answers how many bytes it has. What puts it
// runs once over no place at all, which counts the bytes.
pub fn print_whole<F>(out: &mut [u8], put: F) -> usize
where
    F: Fn(&mut [u8]) -> usize,
    requires { F.IsAlwaysCallable put }
    ensures { (bytes : List ℕ) → PutsWhole F.Fn put bytes → PrintsWith bytes out.old out.new result }
{
    let count = put(&mut out[..0]);
    if count <= out.len() {
        put(out);
    }
    count
}
