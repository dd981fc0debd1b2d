// Trials of `list_text`: random texts, valid and damaged.
use super::buffers::front;
use super::dice::Dice;
use super::layout::{Body, Layout, Table, read_layout, read_plain};
use super::limits::{
    MOST_ATTRIBUTES, MOST_BYTES, MOST_LETTERS, MOST_WORDS, PROGRAM_BOXES, PROGRAM_LISTING, RECORD,
};
use super::pages::{line_end, prints_refusal, prints_run, put_fields, put_line, put_lines};
use super::plain_text::read_text_plain;
use super::runs::{Disagreement, agree};
use super::writer::Writer;
use search::run_join;

// The most bits of a text's question whose points are all tried.
const MOST_BITS: usize = 11;

// Room for a text.
pub(crate) const TEXT: usize = MOST_BYTES + 1000;

const STORE: usize = PROGRAM_BOXES * RECORD;

// All attributes that there may be.
const ATTRIBUTES: [u16; MOST_ATTRIBUTES] = [0, 1, 2, 3, 4, 5, 6, 7, 8, 9, 10, 11];

// What became of a text: it was refused by the reader or as a question, it is too wide for nested loops, or its
// run was complete or stopped.
#[derive(Clone, Copy)]
pub(crate) enum Outcome {
    BadText,
    BadQuestion,
    Wide,
    Complete,
    Stopped,
}

// The name of an attribute: its first letter is its own, and the first attribute is sometimes called
// `complete`, `refused` or `open`.
fn put_name(out: &mut Writer<u8>, dice: Dice, a: usize) {
    let seed = dice.seed as usize;
    match (a, seed % 9) {
        (0, 0) => out.put_all(b"complete"),
        (0, 1) => out.put_all(b"refused"),
        (0, 2) => out.put_all(b"open"),
        _ => {
            let count = seed.saturating_add(a.saturating_mul(5)) % MOST_LETTERS;
            for i in 0..=count {
                let letter = a.saturating_add(i.saturating_mul(7 + seed % 26)) % 26;
                out.put(b'a' + letter as u8);
            }
        }
    }
}

// A line of names of attributes.
fn put_names(out: &mut Writer<u8>, dice: Dice, attributes: &[u16]) {
    put_fields(out, attributes, |out, a| put_name(out, dice, *a as usize));
}

// A table's names, and `open` or its rows; range tables have no text.
fn put_table(out: &mut Writer<u8>, dice: Dice, table: &Table) {
    out.put(b'\n');
    put_names(out, dice, table.attributes);
    match table.body {
        Body::Open => out.put_all(b"open\n"),
        Body::Rows(numbers) | Body::Pairs(numbers) => {
            put_lines(out, numbers, table.attributes.len());
        }
    }
}

// The text of a question.
fn put_text(out: &mut Writer<u8>, dice: Dice, layout: &Layout) {
    put_names(out, dice, front(&ATTRIBUTES, 1, layout.widths.len()));
    put_line(out, layout.widths);
    for table in layout.tables() {
        put_table(out, dice, table);
    }
}

// Puts the line `open` in after the line of a place.
fn put_open(out: &mut Writer<u8>, place: usize) {
    let start = line_end(out.so_far(), place);
    for (i, byte) in b"open\n".iter().enumerate() {
        out.insert(start.saturating_add(i), *byte);
    }
}

// Damages a text: a byte changed, left out or put in, the end cut off, one more line end, or one more line `open`.
fn damage(out: &mut Writer<u8>, dice: Dice) {
    let odd = b"a0 \n9b1zA\t-6";
    let place = dice.rolled(1).below(out.count());
    let byte = odd[dice.rolled(2).below(odd.len()) % odd.len()];
    match dice.below(10) {
        0..=2 => out.set(place, byte),
        3 | 4 => out.remove(place),
        5 => out.insert(place, byte),
        6 => out.truncate(place),
        7 => out.put(b'\n'),
        _ => put_open(out, place),
    }
}

// Writes the text of a question, as it is.
pub(crate) fn whole_text(out: &mut Writer<u8>, words: &[u16], dice: Dice) {
    if let Ok(layout) = read_layout(words) {
        put_text(out, dice, &layout);
    }
}

// Writes a random text; the share of damaged ones is one in two.
pub(crate) fn random_text(out: &mut Writer<u8>, words: &[u16], dice: Dice) {
    whole_text(out, words, dice);
    let rolled = dice.rolled(1);
    if rolled.below(2) != 0 {
        damage(out, rolled.rolled(1));
        if rolled.below(3) == 0 {
            damage(out, rolled.rolled(2));
        }
    }
}

// One text.
pub(crate) fn try_text(text: &[u8]) -> Result<Outcome, Disagreement> {
    let mut buffer = [0u16; MOST_WORDS];
    let words = match read_text_plain(text, &mut buffer) {
        Ok(words) => words,
        Err(refusal) => {
            agree(prints_refusal(text, refusal))?;
            return Ok(Outcome::BadText);
        }
    };
    let layout = match read_plain(words) {
        Ok(layout) => layout,
        Err(refusal) => {
            agree(prints_refusal(text, refusal))?;
            return Ok(Outcome::BadQuestion);
        }
    };
    if MOST_BITS < layout.all_bits() {
        return Ok(Outcome::Wide);
    }
    let mut listing = [0u16; PROGRAM_LISTING];
    let mut store = [0u32; STORE];
    let counts = run_join(words, &mut listing, &mut store);
    agree(prints_run(text, &layout, counts))?;
    if counts.number == 0 {
        Ok(Outcome::Complete)
    } else {
        Ok(Outcome::Stopped)
    }
}
