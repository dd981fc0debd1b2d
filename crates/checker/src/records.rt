// The records: within the widths, and each what its kind and its origins say.
ghost use Rattle.std.specs.Prelude.{◌≡◌, map, ◌≤◌, length};
ghost use Rattle.boxes.specs.Limits.{max_attributes};
ghost use Rattle.boxes.specs.Every.{every};
ghost use Rattle.boxes.specs.Boxes.{whole_space};
ghost use Rattle.questions.specs.Orders.{same};
ghost use Rattle.search.specs.Records.{stored_of, cut_s};
ghost use Rattle.checker.specs.Checks.{fits_in, read_tuples};
ghost use Rattle.checker.specs.Parts.{units_of, fits_whole, resolves_at, resolves_to, tuple_checked, resolvent_checked};

use super::widths::each_fits;
use boxes::{MAX_ATTRIBUTES, interval};
use search::RECORD_WORDS;

// Whether each interval is one of its attribute's width.
fn fits(widths: &[u16], intervals: &[u32]) -> bool
    ensures { result ≡ fits_in widths.now intervals.now }
{
    each_fits(widths, intervals, interval::is_interval)
}

// Whether each interval is 1.
fn is_whole(intervals: &[u32]) -> bool
    ensures { result ≡ same intervals.now (whole_space (length intervals.now)) }
{
    intervals.iter().all(|interval| *interval == 1)
}

// Whether a record's box is the whole space of n attributes.
pub(crate) fn is_whole_space(n: usize, words: &[u32; RECORD_WORDS]) -> bool
    requires { n ≤ max_attributes }
    ensures { result ≡ same (cut_s n (stored_of words.now)).box (whole_space n) }
{
    is_whole(&words[..n])
}

// Whether a record is within the widths, and 1 at the attributes beyond.
fn record_fits(widths: &[u16], words: &[u32; RECORD_WORDS]) -> bool
    requires { length widths.now ≤ max_attributes }
    ensures { result ≡ fits_whole (length widths.now) widths.now (stored_of words.now) }
{
    let n = widths.len();
    is_whole(&words[n..MAX_ATTRIBUTES]) && fits(widths, &words[..n])
}

// Whether so is each of the records.
pub(crate) fn records_fit(widths: &[u16], records: &[[u32; RECORD_WORDS]]) -> bool
    requires { length widths.now ≤ max_attributes }
    ensures { result ≡ every (fits_whole (length widths.now) widths.now) (map stored_of records.now) }
{
    records.iter().all(|words| record_fits(widths, words))
}

// Whether a box is that of a tuple: its values as units.
fn is_box_of(widths: &[u16], tuple: &[u16], intervals: &[u32]) -> bool
    requires tuple { length tuple.now ≡ length widths.now }
    requires intervals { length intervals.now ≡ length widths.now }
    ensures { result ≡ same intervals.now (units_of widths.now tuple.now) }
{
    widths
        .iter()
        .zip(tuple)
        .zip(intervals)
        .all(|((width, value), u)| *u == interval::unit(*width, *value))
}

// Whether three boxes may be two that resolve, the lower half's first, and their resolvent, as far as their
// intervals at one attribute tell.
fn resolve_there(u: u32, v: u32, made: u32) -> bool
    ensures { result ≡ resolves_at u v made }
{
    if made != interval::resolvent(u, v) {
        return false;
    }
    if interval::are_halves(u, v) {
        return u < v;
    }
    interval::comparable(u, v)
}

// Whether two boxes resolve, the lower half's first, into a third.
fn is_resolvent(first: &[u32], second: &[u32], made: &[u32]) -> bool
    requires second { length second.now ≡ length first.now }
    requires made { length made.now ≡ length first.now }
    ensures { result ≡ resolves_to first.now second.now made.now }
{
    let halved = first
        .iter()
        .zip(second)
        .filter(|(u, v)| interval::are_halves(**u, **v))
        .count();
    halved == 1
        && first
            .iter()
            .zip(second)
            .zip(made)
            .all(|((u, v), made)| resolve_there(*u, *v, *made))
}

// Whether a box is that of the listed tuple of a number.
pub(crate) fn tuple_stands(widths: &[u16], listing: &[u16], place: usize, intervals: &[u32]) -> bool
    requires some { 1 ≤ length widths.now }
    requires long { length intervals.now ≡ length widths.now }
    ensures { result ≡ tuple_checked widths.now (read_tuples (length widths.now) listing.now) place intervals.now }
{
    let n = widths.len();
    if listing.len() / n <= place {
        return false;
    }
    let at = place * n;
    is_box_of(widths, &listing[at..at + n], intervals)
}

// Whether a box is the resolvent of two of the earlier records.
pub(crate) fn resolvent_stands(
    earlier: &[[u32; RECORD_WORDS]],
    first: usize,
    second: usize,
    intervals: &[u32],
) -> bool
    requires { length intervals.now ≤ max_attributes }
    ensures { result ≡ resolvent_checked (map (cut_s (length intervals.now)) (map stored_of earlier.now)) first second intervals.now }
{
    let n = intervals.len();
    match (earlier.get(first), earlier.get(second)) {
        (Some(lower), Some(upper)) => is_resolvent(&lower[..n], &upper[..n], intervals),
        _ => false,
    }
}
