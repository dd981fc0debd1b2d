// Whether each record of a complete run is what its kind says, found again by plain loops from the
// question and the listing.
use super::buffers::{front, word};
use super::layout::{Body, Layout, Table, width_of};
use super::limits::{MOST_ATTRIBUTES, MOST_WIDTH, RECORD};
use super::nested::{Point, has_near, shifted};

// What a box is, and its origins.
#[derive(Clone, Copy, PartialEq, Eq)]
pub(crate) enum Kind {
    Gap { table: usize },
    Tuple { place: usize },
    Resolvent { lower: usize, upper: usize },
}

#[derive(Clone, Copy)]
pub(crate) struct Record<'a> {
    intervals: &'a [u32],
    pub kind: Kind,
}

// The record of a number, if there is one.
pub(crate) fn record_at(store: &[u32], number: usize) -> Option<Record<'_>> {
    Record::read(store.chunks_exact(RECORD).nth(number)?)
}

// Whether an interval is another one's, shifted right by some count.
fn holds(u: u32, v: u32) -> bool {
    0 < u && (0..=MOST_WIDTH).any(|count| v >> (count % 32) == u)
}

// The interval of a value alone.
fn unit(width: u16, value: u16) -> u32 {
    1u32 << (width % 32) | value as u32
}

// The lowest value of an interval.
fn lowest(width: u16, interval: u32) -> u16 {
    let bits = interval.checked_ilog2().unwrap_or(0);
    let rest = (width as u32).saturating_sub(bits);
    let value = interval << (rest % 32) & !(1u32 << (width % 32));
    word(value as usize)
}

// The shorter of two intervals one of which holds the other.
fn shorter(u: u32, v: u32) -> Option<u32> {
    if holds(u, v) {
        Some(v)
    } else if holds(v, u) {
        Some(u)
    } else {
        None
    }
}

// Whether two intervals are the lower and the upper half of one.
fn are_halves(u: u32, v: u32) -> bool {
    1 < u && u % 2 == 0 && v.checked_sub(1) == Some(u)
}

impl<'a> Record<'a> {
    // A record's words; none where they have no kind.
    pub(crate) fn read(words: &'a [u32]) -> Option<Self> {
        let [intervals @ .., kind, first, second] = words else {
            return None;
        };
        let first = *first as usize;
        let second = *second as usize;
        let kind = match (*kind, second) {
            (0, 0) => Kind::Gap { table: first },
            (1, 0) => Kind::Tuple { place: first },
            (2, _) => Kind::Resolvent {
                lower: first,
                upper: second,
            },
            _ => return None,
        };
        Some(Record { intervals, kind })
    }

    // Whether the box holds another's.
    fn holds(&self, other: &Record) -> bool {
        self.intervals
            .iter()
            .zip(other.intervals)
            .all(|(u, v)| holds(*u, *v))
    }

    // Whether an earlier record holds this one.
    fn is_held(&self, earlier: &[u32]) -> bool {
        earlier.chunks_exact(RECORD).any(|words| Record::read(words).is_some_and(
            |other| other.holds(self),
        ))
    }

    // The lowest point of the box.
    fn lowest(&self, layout: &Layout) -> Point {
        let mut values = [0u16; MOST_ATTRIBUTES];
        for (value, (width, interval)) in values
            .iter_mut()
            .zip(layout.widths.iter().zip(self.intervals))
        {
            *value = lowest(*width, *interval);
        }
        Point { values }
    }

    // Whether the box is the gap box of a table at its own lowest point; an open table has a row there, so that no
    // record may name it.
    fn is_gap(&self, layout: &Layout, table: usize) -> bool {
        let point = self.lowest(layout);
        let Some(table) = layout.tables().get(table) else {
            return false;
        };
        !table.admits(&point)
            && self.intervals.iter().enumerate().all(|(a, interval)| *interval
                == gap_interval(table, layout.widths, &point, a))
    }

    // Whether the box is that of the listed tuple of a place.
    fn is_tuple(&self, layout: &Layout, listing: &[u16], place: usize) -> bool {
        let widths = layout.widths;
        let Some(tuple) = listing.chunks_exact(widths.len().max(1)).nth(place) else {
            return false;
        };
        self.intervals.iter().enumerate().all(|(a, interval)| {
            match (widths.get(a), tuple.get(a)) {
                (Some(width), Some(value)) => *interval == unit(*width, *value),
                _ => *interval == 1,
            }
        })
    }

    // Whether the box is the resolvent of two, the lower half's first.
    fn is_resolvent(&self, lower: &Record, upper: &Record) -> bool {
        let halves = lower
            .intervals
            .iter()
            .zip(upper.intervals)
            .filter(|(u, v)| are_halves(**u, **v))
            .count();
        halves == 1
            && lower
                .intervals
                .iter()
                .zip(upper.intervals)
                .zip(self.intervals)
                .all(|((u, v), mine)| {
                    if are_halves(*u, *v) {
                        *mine == *u / 2
                    } else {
                        shorter(*u, *v) == Some(*mine)
                    }
                })
    }

    // Whether the record is what its kind says.
    fn is_right(&self, layout: &Layout, listing: &[u16], earlier: &[u32]) -> bool {
        match self.kind {
            Kind::Gap { table } => self.is_gap(layout, table),
            Kind::Tuple { place } => self.is_tuple(layout, listing, place),
            Kind::Resolvent { lower, upper } => {
                match (record_at(earlier, lower), record_at(earlier, upper)) {
                    (Some(lower), Some(upper)) => self.is_resolvent(&lower, &upper),
                    _ => false,
                }
            }
        }
    }

    // Whether the box is the whole space.
    fn is_whole(&self) -> bool {
        self.intervals.iter().all(|interval| *interval == 1)
    }
}

// Whether no row that begins with the point's values, and no pair, has its next value in the interval around the point's
// that is made by shifting so often.
fn is_free(table: &Table, point: &Point, place: usize, value: u16, count: u16) -> bool {
    let attributes = table.attributes;
    match table.body {
        Body::Open => true,
        Body::Pairs(pairs) => !has_near(pairs, value, count),
        Body::Rows(rows) => !rows.chunks(attributes.len().max(1)).any(|row| {
            row.get(place)
                .is_some_and(|other| shifted(*other, count) == shifted(value, count))
                && point.agrees(row, attributes, place)
        }),
    }
}

// The longest such interval.
fn longest(table: &Table, point: &Point, place: usize, width: u16, value: u16) -> u32 {
    let alone = unit(width, value);
    (1..=width)
        .rev()
        .find(|count| is_free(table, point, place, value, *count))
        .map_or(alone, |count| alone >> (count % 32))
}

// The interval of the gap box of a table at a point, at an attribute.
fn gap_interval(table: &Table, widths: &[u16], point: &Point, a: usize) -> u32 {
    for (place, attribute) in table.attributes.iter().enumerate() {
        let begins = table.begins(point, place.saturating_add(1));
        if *attribute as usize == a {
            let width = width_of(widths, *attribute);
            let value = point.at(*attribute);
            return if begins {
                unit(width, value)
            } else {
                longest(table, point, place, width, value)
            };
        }
        if !begins {
            return 1;
        }
    }
    1
}

// Whether all records are right, none lies in an earlier one, and the last is the whole space; and how many
// of them are resolvents.
pub(crate) fn are_right(
    layout: &Layout,
    listing: &[u16],
    store: &[u32],
    resolutions: usize,
) -> bool {
    let mut resolvents = 0usize;
    let mut whole = false;
    for (number, words) in store.chunks_exact(RECORD).enumerate() {
        let Some(record) = Record::read(words) else {
            return false;
        };
        let earlier = front(store, RECORD, number);
        if !record.is_right(layout, listing, earlier) || record.is_held(earlier) {
            return false;
        }
        if matches!(record.kind, Kind::Resolvent { .. }) {
            resolvents = resolvents.saturating_add(1);
        }
        whole = record.is_whole();
    }
    whole && resolvents == resolutions
}
