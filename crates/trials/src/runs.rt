// Trials of `run_join` and `run_join_with`: a question with room for everything, and again with less room and
// a scratch of some length.
use super::buffers::{fill, front, has_only};
use super::dice::Dice;
use super::layout::{Layout, read_plain};
use super::limits::RECORD;
use super::nested::list_plain;
use super::records::{Kind, Record, are_right};
use super::refusals::Refusal;
use super::rows::rows_are;
use search::{Counts, run_join, run_join_with};

// Room for every question that is tried.
const LISTING: usize = 5000;

const STORE: usize = 2000 * RECORD;

const SCRATCH: usize = 600;

// The most bits of a question whose points are all tried.
const MOST_BITS: usize = 9;

// Something is not as it should be.
#[derive(Clone, Copy, Debug)]
pub(crate) struct Disagreement;

// How a run ended: complete, or stopped for room at a tuple or at a box.
#[derive(Clone, Copy)]
pub(crate) enum End {
    Complete = 0,
    AtTuple = 13,
    AtBox = 14,
}

// What became of a question: it was refused, it is too wide for nested loops, or its run was complete, with so many
// boxes, and the run with less room ended in some way.
#[derive(Clone, Copy)]
pub(crate) enum Trial {
    Refused,
    Wide,
    Complete { boxes: usize, less: End },
}

// Goes on only if something is so.
pub(crate) fn agree(so: bool) -> Result<(), Disagreement> {
    if so { Ok(()) } else { Err(Disagreement) }
}

// The counts of a run that ended with a number.
pub(crate) fn counts_of(number: u8, tuples: usize, boxes: usize, resolutions: usize) -> Counts {
    Counts {
        number,
        tuples: count_of(tuples),
        boxes: count_of(boxes),
        resolutions: count_of(resolutions),
    }
}

fn count_of(count: usize) -> u32 {
    u32::try_from(count).unwrap_or(u32::MAX)
}

// Whether a run refused its question: its counts are 0, and both buffers have every word as before.
pub(crate) fn is_refused(counts: Counts, refusal: Refusal, listing: &[u16], store: &[u32]) -> bool {
    counts == counts_of(refusal as u8, 0, 0, 0) && has_only(listing, &[]) && has_only(store, &[])
}

// How a run with less room ends, and its counts, from the records of the complete run: a tuple's record follows it.
fn stopped(store: &[u32], lists: usize, stores: usize) -> (End, Counts) {
    let mut tuples = 0usize;
    let mut boxes = 0usize;
    let mut resolutions = 0usize;
    for words in store.chunks_exact(RECORD) {
        let kind = Record::read(words).map(|record| record.kind);
        if matches!(kind, Some(Kind::Tuple { .. })) {
            if tuples == lists {
                return ended(End::AtTuple, tuples, boxes, resolutions);
            }
            tuples = tuples.saturating_add(1);
        }
        if boxes == stores {
            return ended(End::AtBox, tuples, boxes, resolutions);
        }
        boxes = boxes.saturating_add(1);
        if matches!(kind, Some(Kind::Resolvent { .. })) {
            resolutions = resolutions.saturating_add(1);
        }
    }
    ended(End::Complete, tuples, boxes, resolutions)
}

fn ended(end: End, tuples: usize, boxes: usize, resolutions: usize) -> (End, Counts) {
    (end, counts_of(end as u8, tuples, boxes, resolutions))
}

// How many words have room for so many of a size: just as many, or almost enough for one more.
fn room_for(count: usize, size: usize) -> usize {
    let words = count.saturating_mul(size);
    if count % 2 == 0 {
        words.saturating_add(size).saturating_sub(1)
    } else {
        words
    }
}

// A question and its complete run: the words, the number of attributes, the tuples and the records.
#[derive(Clone, Copy)]
struct Run<'a> {
    words: &'a [u16],
    n: usize,
    listing: &'a [u16],
    store: &'a [u32],
}

impl<'a> Run<'a> {
    // A run with less room: it has to be the beginning of this one, and to keep every word beyond its counts.
    fn try_less(&self, lists: usize, stores: usize) -> Result<End, Disagreement> {
        let mut few = [0u16; LISTING];
        let mut less = [0u32; STORE];
        let mut scratch = [0u32; SCRATCH];
        fill(&mut few);
        fill(&mut less);
        fill(&mut scratch);
        let room = room_for(lists, self.n);
        let spare = room_for(stores, RECORD);
        let counts = run_join_with(
            self.words,
            &mut few[..room.min(LISTING)],
            &mut less[..spare.min(STORE)],
            &mut scratch[..room.saturating_add(spare) % SCRATCH],
        );
        let (end, wanted) = stopped(self.store, lists, stores);
        let tuples = front(self.listing, self.n, wanted.tuples as usize);
        let records = front(self.store, RECORD, wanted.boxes as usize);
        agree(counts == wanted && has_only(&few, tuples) && has_only(&less, records))?;
        Ok(end)
    }
}

// A question that is accepted, after its run.
fn try_accepted(
    words: &[u16],
    layout: &Layout,
    listing: &[u16],
    store: &[u32],
    counts: Counts,
    dice: Dice,
) -> Result<Trial, Disagreement> {
    let tuples = counts.tuples as usize;
    let boxes = counts.boxes as usize;
    let mut plain = [0u16; LISTING];
    let run = Run {
        words,
        n: layout.widths.len(),
        listing: list_plain(layout, &mut plain),
        store: front(store, RECORD, boxes),
    };
    agree(counts.number == End::Complete as u8)?;
    agree(tuples.saturating_mul(run.n) == run.listing.len())?;
    agree(has_only(listing, run.listing) && has_only(store, run.store))?;
    agree(rows_are(words, layout))?;
    agree(are_right(layout, run.listing, run.store, counts.resolutions as usize))?;
    let lists = dice.below(tuples.saturating_add(2));
    let stores = if dice.seed % 3 == 0 {
        boxes.saturating_add(1)
    } else {
        dice.rolled(1).below(boxes.saturating_add(2))
    };
    let less = run.try_less(lists, stores)?;
    Ok(Trial::Complete { boxes, less })
}

// One question: the run is compared with a plain reader and plain nested loops, each record with what its
// kind says, and a run with less room with the beginning of the full one.
pub(crate) fn try_question(words: &[u16], dice: Dice) -> Result<Trial, Disagreement> {
    let mut listing = [0u16; LISTING];
    let mut store = [0u32; STORE];
    fill(&mut listing);
    fill(&mut store);
    let counts = run_join(words, &mut listing, &mut store);
    let layout = match read_plain(words) {
        Ok(layout) => layout,
        Err(refusal) => {
            agree(is_refused(counts, refusal, &listing, &store))?;
            return Ok(Trial::Refused);
        }
    };
    if MOST_BITS < layout.all_bits() {
        let ends = [End::Complete, End::AtTuple, End::AtBox];
        agree(ends.iter().any(|end| counts.number == *end as u8))?;
        return Ok(Trial::Wide);
    }
    try_accepted(words, &layout, &listing, &store, counts, dice)
}
