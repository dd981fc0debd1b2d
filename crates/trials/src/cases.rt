// Cases of document 01, with the limits of request W11: K11 and K12, the sample text, and texts that its sentences name; and
// of requests W3, W8 and W14: questions and texts with open tables, questions and texts that show which box is a witness, and
// questions with range tables.
use super::buffers::{fill, has_only};
use super::limits::RECORD;
use super::pages::{prints, prints_refusal};
use super::records::{Kind, record_at};
use super::refusals::Refusal;
use super::report::{print_question, print_text};
use super::runs::{End, counts_of, is_refused};
use search::{Counts, run_join};

// Room for some tuples and boxes, of which a refused question has none.
const LISTING: usize = 16;

const STORE: usize = 13 * RECORD;

// What a complete run answers: so many tuples, boxes and resolutions.
fn complete(tuples: usize, boxes: usize, resolutions: usize) -> Counts {
    counts_of(End::Complete as u8, tuples, boxes, resolutions)
}

// The cases that are tried: how many are as they should be; the others are printed.
#[derive(Drop)]
struct Cases<'a, R> {
    rt: &'a R,
    good: usize,
}

impl<'a, R: Print> Cases<'a, R> {
    fn new(rt: &'a R) -> Self {
        Cases { rt, good: 0 }
    }

    // Counts a case that is as it should be, or prints it.
    fn note<F: FnOnce(&R)>(&mut self, is_good: bool, print: F)
        requires { F.IsAlwaysCallable print }
    {
        if is_good {
            self.good = self.good.saturating_add(1);
        } else {
            print(self.rt);
        }
    }

    fn note_question(&mut self, words: &[u16], is_good: bool) {
        self.note(is_good, |rt| print_question(rt, words));
    }

    fn note_text(&mut self, text: &[u8], is_good: bool) {
        self.note(is_good, |rt| print_text(rt, text));
    }

    // Questions that are refused, with counts of 0 and both buffers as before.
    fn refuse_words(&mut self, cases: &[(&[u16], Refusal)]) {
        for (words, refusal) in cases {
            let mut listing = [0u16; LISTING];
            let mut store = [0u32; STORE];
            fill(&mut listing);
            fill(&mut store);
            let counts = run_join(words, &mut listing, &mut store);
            self.note_question(words, is_refused(counts, *refusal, &listing, &store));
        }
    }

    // Questions whose runs are complete with a listing and counts.
    fn list_words(&mut self, cases: &[(&[u16], &[u16], Counts)]) {
        for (words, wanted, counts) in cases {
            let mut listing = [0u16; LISTING];
            let mut store = [0u32; STORE];
            fill(&mut listing);
            let found = run_join(words, &mut listing, &mut store);
            self.note_question(words, found == *counts && has_only(&listing, wanted));
        }
    }

    // Questions whose runs have such counts, and a record of a number that is such a resolvent.
    fn resolve_words(&mut self, cases: &[(&[u16], Counts, usize, Kind)]) {
        for (words, counts, number, kind) in cases {
            let mut listing = [0u16; LISTING];
            let mut store = [0u32; STORE];
            let found = run_join(words, &mut listing, &mut store);
            let is_so = record_at(&store, *number).is_some_and(|record| record.kind == *kind);
            self.note_question(words, found == *counts && is_so);
        }
    }

    // Texts that are refused.
    fn refuse(&mut self, cases: &[(&[u8], Refusal)]) {
        for (text, refusal) in cases {
            self.note_text(text, prints_refusal(text, *refusal));
        }
    }

    // Texts for which a page is printed.
    fn list(&mut self, cases: &[(&[u8], &[u8])]) {
        for (text, page) in cases {
            self.note_text(text, prints(text, page));
        }
    }
}

// K11 and K12: five.
pub(crate) fn try_words(rt: &impl Print) -> usize {
    let mut cases = Cases::new(rt);
    cases.refuse_words(&[
        (&[], Refusal::WordCount),
        (&[13], Refusal::AttributeCount),
        (&[12], Refusal::MissingWord),
        (&[1, 17], Refusal::WidthRange),
        (&[1, 1, 1, 1, 0, 2, 0, 1, 0], Refusal::WordsLeft),
    ]);
    cases.good
}

// Open tables beside one with rows: K1 and an open table, which is no other run; one over two attributes, that is
// first, and one that is between the others. An open one beside one without rows, K5's: four.
fn try_beside(cases: &mut Cases<impl Print>) {
    cases.list_words(&[
        (
            &[1, 2, 3, 1, 0, 2, 1, 3, 1, 0, 2, 1, 2, 1, 0, 65535],
            &[1],
            complete(1, 7, 3),
        ),
        (
            &[2, 1, 1, 2, 2, 0, 1, 65535, 2, 0, 1, 1, 0, 1],
            &[0, 1],
            complete(1, 5, 2),
        ),
        (
            &[1, 2, 3, 1, 0, 2, 1, 3, 1, 0, 65535, 1, 0, 2, 1, 2],
            &[1],
            complete(1, 7, 3),
        ),
        (&[1, 2, 2, 1, 0, 65535, 1, 0, 0], &[], complete(0, 1, 0)),
    ]);
}

// Only open tables, an attribute in open ones alone, the number below the mark, a row after the mark, and no word
// after a mark that is not the last table's: five.
fn try_marks(cases: &mut Cases<impl Print>) {
    cases.refuse_words(&[
        (&[1, 1, 1, 1, 0, 65535], Refusal::BareAttribute),
        (
            &[2, 1, 1, 2, 1, 0, 1, 0, 2, 0, 1, 65535],
            Refusal::BareAttribute,
        ),
        (&[1, 1, 1, 1, 0, 65534], Refusal::RowCount),
        (&[1, 1, 2, 1, 0, 1, 0, 1, 0, 65535, 0], Refusal::WordsLeft),
        (&[1, 1, 2, 1, 0, 65535], Refusal::MissingWord),
    ]);
}

// Questions with open tables: nine.
pub(crate) fn try_open(rt: &impl Print) -> usize {
    let mut cases = Cases::new(rt);
    try_beside(&mut cases);
    try_marks(&mut cases);
    cases.good
}

// A range table's words up to its pairs: no attribute number, one that is too high; no m, the number below the open mark,
// one that is just too high; and the number below the range mark: six.
fn try_range_heads(cases: &mut Cases<impl Print>) {
    cases.refuse_words(&[
        (&[1, 3, 1, 65535], Refusal::MissingWord),
        (&[1, 3, 1, 65535, 1], Refusal::AttributeNumber),
        (&[1, 3, 1, 65535, 0], Refusal::MissingWord),
        (&[1, 3, 1, 65535, 0, 65534], Refusal::RowCount),
        (&[1, 3, 1, 65535, 0, 4097], Refusal::RowCount),
        (&[1, 3, 1, 65534, 0, 0], Refusal::ArityRange),
    ]);
}

// A pair's questions in their order: no lowest, one that is too high, no highest, one that is too high, one below the
// lowest; two values in common with the pair before, and one; 28 before 10; and a word more: nine.
fn try_pairs(cases: &mut Cases<impl Print>) {
    cases.refuse_words(&[
        (&[1, 3, 1, 65535, 0, 1], Refusal::MissingWord),
        (&[1, 3, 1, 65535, 0, 1, 8], Refusal::HighValue),
        (&[1, 3, 1, 65535, 0, 1, 5], Refusal::MissingWord),
        (&[1, 3, 1, 65535, 0, 1, 5, 8], Refusal::HighValue),
        (&[1, 3, 1, 65535, 0, 1, 5, 4], Refusal::ReversedPair),
        (&[1, 3, 1, 65535, 0, 2, 3, 5, 4, 7], Refusal::OutOfOrder),
        (&[1, 3, 1, 65535, 0, 2, 3, 5, 5, 7], Refusal::OutOfOrder),
        (&[1, 3, 1, 65535, 0, 2, 3, 5, 4, 2], Refusal::ReversedPair),
        (&[1, 3, 1, 65535, 0, 1, 3, 5, 0], Refusal::WordsLeft),
    ]);
}

// Pairs that touch; K1 by pairs, which is no other run; K6 by one pair; K5 by none; an attribute that only a range
// table has; an open range table beside K1's tables, and one alone: seven.
fn try_ranged(cases: &mut Cases<impl Print>) {
    cases.list_words(&[
        (
            &[1, 3, 1, 65535, 0, 2, 1, 3, 4, 5],
            &[1, 2, 3, 4, 5],
            complete(5, 13, 6),
        ),
        (
            &[1, 2, 2, 65535, 0, 2, 1, 1, 3, 3, 65535, 0, 1, 1, 2],
            &[1],
            complete(1, 7, 3),
        ),
        (&[1, 1, 1, 65535, 0, 1, 0, 1], &[0, 1], complete(2, 3, 1)),
        (&[1, 2, 2, 65535, 0, 0, 1, 0, 1, 0], &[], complete(0, 1, 0)),
        (
            &[2, 1, 1, 2, 1, 0, 1, 0, 65535, 1, 1, 0, 0],
            &[0, 0],
            complete(1, 5, 2),
        ),
        (
            &[1, 2, 3, 1, 0, 2, 1, 3, 1, 0, 2, 1, 2, 65535, 0, 65535],
            &[1],
            complete(1, 7, 3),
        ),
    ]);
    cases.refuse_words(&[(&[1, 3, 1, 65535, 0, 65535], Refusal::BareAttribute)]);
}

// Questions with range tables: 22.
pub(crate) fn try_ranges(rt: &impl Print) -> usize {
    let mut cases = Cases::new(rt);
    try_range_heads(&mut cases);
    try_pairs(&mut cases);
    try_ranged(&mut cases);
    cases.good
}

// Which box is a witness, in three questions. In the sample text's, and with a row less, records 0 and 1 hold (2, 2), and 1
// has a bit less; in the third, records 4 and 5 hold (3, 3, 2) and have equally many bits.
pub(crate) fn try_witnesses(rt: &impl Print) -> usize {
    let mut cases = Cases::new(rt);
    cases.resolve_words(&[
        (
            &[2, 1, 1, 2, 2, 0, 1, 2, 0, 1, 1, 0, 1, 1, 1, 1],
            complete(1, 7, 3),
            3,
            Kind::Resolvent { lower: 1, upper: 2 },
        ),
        (
            &[2, 1, 1, 2, 2, 0, 1, 1, 0, 1, 1, 1, 1, 1],
            complete(1, 6, 2),
            3,
            Kind::Resolvent { lower: 1, upper: 2 },
        ),
        (
            &[3, 1, 1, 1, 2, 2, 1, 2, 2, 0, 1, 1, 1, 2, 0, 2, 1, 1, 1],
            complete(2, 10, 4),
            7,
            Kind::Resolvent { lower: 4, upper: 6 },
        ),
    ]);
    cases.good
}

// Texts that have a box less than if the earliest box were the witness, and one more: two.
pub(crate) fn try_witness_texts(rt: &impl Print) -> usize {
    let mut cases = Cases::new(rt);
    cases.list(&[
        (
            b"a b c\n1 1 1\n\na c\n0 1\n\nb c\n0 0\n1 1\n\nc\n0\n\na b\n0 0\n1 0\n",
            b"a b c\ncomplete 0 6 2\n",
        ),
        (
            b"a b c\n3 1 1\n\na c\n7 0\n\na c\n7 1\n\nb c\n0 0\n",
            b"a b c\ncomplete 0 11 5\n",
        ),
    ]);
    cases.good
}

// The sample text.
pub(crate) fn try_sample(rt: &impl Print) -> usize {
    let mut cases = Cases::new(rt);
    cases.list(&[(
        b"shaft line\n1 1\n\nshaft line\n0 1\n1 0\n\nline\n1\n",
        b"shaft line\n0 1\ncomplete 1 7 3\n",
    )]);
    cases.good
}

// Names: too many, just as many as there may be, too long, with two spaces, a space at the end, a tab, a capital;
// eight with the empty text.
fn try_names(cases: &mut Cases<impl Print>) {
    cases.refuse(&[
        (
            b"a b c d e f g h i j k l m\n1 1 1 1 1 1 1 1 1 1 1 1 1\n",
            Refusal::Form,
        ),
        (b"abcdefghijklm\n1\n", Refusal::Form),
        (b"a  b\n1 1\n", Refusal::Form),
        (b"a \n1\n", Refusal::Form),
        (b"a\tb\n1 1\n", Refusal::Form),
        (b"A\n1\n", Refusal::Form),
        (b"", Refusal::Form),
    ]);
    cases.list(&[(
        b"a b c d e f g h i j k l\n1 1 1 1 1 1 1 1 1 1 1 1\n\na b c d e f g h i j k l\n",
        b"a b c d e f g h i j k l\ncomplete 0 1 0\n",
    )]);
}

// Numbers with a zero in front or too high, a line without its end, an empty last line, no table: six with
// names out of order.
fn try_lines(cases: &mut Cases<impl Print>) {
    cases.refuse(&[
        (b"a\n007\n", Refusal::Form),
        (b"a\n65536\n", Refusal::Form),
        (b"a\n1\n\na\n0", Refusal::Form),
        (b"a\n1\n\na\n0\n\n", Refusal::Form),
        (b"a\n1\n", Refusal::TableCount),
        (b"a b\n1 1\n\nb a\n", Refusal::AttributeNumber),
    ]);
}

// Names twice at the top, in a table, and unknown ones; 16 before a later 15, and 15 before 16 in one line: five.
fn try_known(cases: &mut Cases<impl Print>) {
    cases.refuse(&[
        (b"a a\n1 1\n", Refusal::Name),
        (b"a b\n1 1\n\na a\n", Refusal::Name),
        (b"a\n1\n\nb\n", Refusal::Name),
        (b"a a\n007\n", Refusal::Name),
        (b"a a A\n1 1 1\n", Refusal::Form),
    ]);
}

// Sixteen tables and seventeen, and names that are words of a last line: four.
fn try_tables(cases: &mut Cases<impl Print>) {
    cases.list(&[
        (
            b"a\n1\n\na\n\na\n\na\n\na\n\na\n\na\n\na\n\na\n\na\n\na\n\na\n\na\n\na\n\na\n\na\n\na\n",
            b"a\ncomplete 0 1 0\n",
        ),
        (
            b"complete\n1\n\ncomplete\n1\n",
            b"complete\n1\ncomplete 1 3 1\n",
        ),
        (b"refused\n1\n\nrefused\n", b"refused\ncomplete 0 1 0\n"),
    ]);
    cases.refuse(&[(
        b"a\n1\n\na\n\na\n\na\n\na\n\na\n\na\n\na\n\na\n\na\n\na\n\na\n\na\n\na\n\na\n\na\n\na\n\na\n",
        Refusal::Form,
    )]);
}

// Texts: 23.
pub(crate) fn try_named(rt: &impl Print) -> usize {
    let mut cases = Cases::new(rt);
    try_names(&mut cases);
    try_lines(&mut cases);
    try_known(&mut cases);
    try_tables(&mut cases);
    cases.good
}

// Texts with the line `open`: the sample text and an open table, an open table beside one without rows, and open ones
// whose attribute is called `open`; only open tables: four.
fn try_left_open(cases: &mut Cases<impl Print>) {
    cases.list(&[
        (
            b"shaft line\n1 1\n\nshaft line\n0 1\n1 0\n\nline\nopen\n\nline\n1\n",
            b"shaft line\n0 1\ncomplete 1 7 3\n",
        ),
        (b"a\n1\n\na\nopen\n\na\n", b"a\ncomplete 0 1 0\n"),
        (
            b"open\n1\n\nopen\nopen\n\nopen\n1\n\nopen\nopen\n",
            b"open\n1\ncomplete 1 3 1\n",
        ),
    ]);
    cases.refuse(&[(b"a\n1\n\na\nopen\n", Refusal::BareAttribute)]);
}

// The line `open` after a row, before one, twice, with something beside it, and without its end: seven.
fn try_open_lines(cases: &mut Cases<impl Print>) {
    cases.refuse(&[
        (b"a\n1\n\na\n1\nopen\n", Refusal::Form),
        (b"a\n1\n\na\nopen\n1\n", Refusal::Form),
        (b"a\n1\n\na\nopen\nopen\n", Refusal::Form),
        (b"a b\n1 1\n\na b\nopen 1\n", Refusal::Form),
        (b"a\n1\n\na\nopen \n", Refusal::Form),
        (b"a\n1\n\na\nopens\n", Refusal::Form),
        (b"a\n1\n\na\n1\n\na\nopen", Refusal::Form),
    ]);
}

// The line `open` where another has to stand: the widths, the empty line, a table's names; after names that are not
// known; and a last empty line after it: five.
fn try_open_places(cases: &mut Cases<impl Print>) {
    cases.refuse(&[
        (b"a\nopen\n", Refusal::Form),
        (b"a\n1\nopen\n", Refusal::Form),
        (b"a\n1\n\nopen\n", Refusal::Name),
        (b"a\n1\n\nb\nopen 1\n", Refusal::Name),
        (b"a\n1\n\na\n1\n\na\nopen\n\n", Refusal::Form),
    ]);
}

// Texts with the line `open`: 16.
pub(crate) fn try_open_texts(rt: &impl Print) -> usize {
    let mut cases = Cases::new(rt);
    try_left_open(&mut cases);
    try_open_lines(&mut cases);
    try_open_places(&mut cases);
    cases.good
}
