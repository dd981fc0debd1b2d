// Random questions of several shapes, and damaged ones.
use super::buffers::word;
use super::dice::Dice;
use super::limits::{OPEN_MARK, RANGE_MARK};
use super::writer::Writer;

// The most attributes of a question that is made.
const MOST_MADE: usize = 4;

// The tables: over random attributes; one for each attribute, which share none; one over all; random ones, the
// first without rows.
#[derive(Clone, Copy, PartialEq, Eq)]
enum Kind {
    Random,
    Apart,
    One,
    Empty,
}

// What is put among the tables: nothing, open tables, or range tables. All of an attribute's tables may be open but one
// where the others share none.
#[derive(Clone, Copy, PartialEq, Eq)]
enum Among {
    Nothing,
    Open,
    Ranges,
}

// The shape of a question.
#[derive(Clone, Copy)]
pub(crate) struct Shape {
    kind: Kind,
    among: Among,
}

impl Shape {
    // The shapes in turn.
    pub(crate) fn of(number: usize) -> Self {
        let kind = match number % 4 {
            0 => Kind::Random,
            1 => Kind::Apart,
            2 => Kind::One,
            _ => Kind::Empty,
        };
        let among = match number / 4 % 3 {
            0 => Among::Nothing,
            1 => Among::Open,
            _ => Among::Ranges,
        };
        Shape { kind, among }
    }

    // The same in turn, but without range tables.
    pub(crate) fn without_ranges(number: usize) -> Self {
        Shape::of(number % 8)
    }
}

// Attributes, as the bits of a number.
#[derive(Clone, Copy)]
struct Chosen(usize);

impl Chosen {
    fn none() -> Self {
        Chosen(0)
    }

    fn only(a: usize) -> Self {
        Chosen(1 << (a % 64))
    }

    // All of so many.
    fn all(n: usize) -> Self {
        Chosen((1usize << (n % 64)).saturating_sub(1))
    }

    fn has(self, a: usize) -> bool {
        self.0 >> (a % 64) & 1 == 1
    }

    fn is_one(self) -> bool {
        self.0.count_ones() == 1
    }

    fn with(self, other: Chosen) -> Self {
        Chosen(self.0 | other.0)
    }

    fn without(self, other: Chosen) -> Self {
        Chosen(self.0 & !other.0)
    }
}

// A question that is being made: its words, the widths of its attributes, and the dice.
#[derive(Drop)]
pub(crate) struct Maker<'a> {
    words: Writer<'a, u16>,
    widths: [u16; MOST_MADE],
    n: usize,
    pub dice: Dice,
}

impl<'a> Maker<'a> {
    pub(crate) fn new(buffer: &'a mut [u16], dice: Dice) -> Self {
        Maker {
            words: Writer::new(buffer),
            widths: [0; MOST_MADE],
            n: 0,
            dice,
        }
    }

    // The words that were made.
    pub(crate) fn words(self) -> &'a [u16] {
        self.words.written()
    }

    fn put(&mut self, number: usize) {
        self.words.put(word(number));
    }

    // A width of an attribute that is chosen; else 0.
    fn width(&self, chosen: Chosen, a: usize) -> u16 {
        if chosen.has(a) {
            self.widths.get(a).copied().unwrap_or(0)
        } else {
            0
        }
    }

    // How many bits the values of the chosen attributes have together.
    fn bits_of(&self, chosen: Chosen) -> usize {
        (0..self.n).fold(
            0,
            |bits: usize, a| bits.saturating_add(self.width(chosen, a) as usize),
        )
    }

    // How many rows there may be over the chosen attributes.
    fn rows_of(&self, chosen: Chosen) -> usize {
        1 << (self.bits_of(chosen) % 64)
    }

    // Writes how many attributes are chosen and which; answers the place of the number of rows, which is to follow.
    fn make_head(&mut self, chosen: Chosen) -> usize {
        let start = self.words.count();
        self.put(0);
        for a in 0..self.n {
            if chosen.has(a) {
                self.put(a);
            }
        }
        let mark = self.words.count();
        self.words
            .set(start, word(mark.saturating_sub(start).saturating_sub(1)));
        self.put(0);
        mark
    }

    // Writes the row whose values have, together, the bits of a number.
    fn make_row(&mut self, chosen: Chosen, number: usize) {
        let mut after = self.bits_of(chosen);
        for a in 0..self.n {
            if chosen.has(a) {
                let width = self.width(chosen, a) as usize;
                after = after.saturating_sub(width);
                let value = number >> (after % 64) & Chosen::all(width).0;
                self.put(value);
            }
        }
    }

    // Writes an open table over the chosen attributes.
    fn make_open(&mut self, chosen: Chosen) {
        let mark = self.make_head(chosen);
        self.words.set(mark, OPEN_MARK);
    }

    // Writes a table over the chosen attributes, with about so many of four possible rows.
    fn make_table(&mut self, chosen: Chosen, share: usize) {
        let mark = self.make_head(chosen);
        let mut rows = 0u16;
        for number in 0..self.rows_of(chosen) {
            self.dice.roll();
            if self.dice.below(4) < share {
                self.make_row(chosen, number);
                rows = rows.saturating_add(1);
            }
        }
        self.words.set(mark, rows);
    }

    // Writes a range table over the attribute that is chosen, with about so many of four values in pairs. A value has a pair of
    // its own; or, where it follows the last pair's, it may be this one's highest instead; so some touch.
    fn make_pairs(&mut self, chosen: Chosen, share: usize) {
        let start = self.words.count();
        let mark = self.make_head(chosen);
        self.words.set(start, RANGE_MARK);
        let mut pairs = 0u16;
        let mut next = None;
        for value in 0..self.rows_of(chosen) {
            self.dice.roll();
            if self.dice.below(4) < share {
                if self.dice.below(3) != 0 && next == Some(value) {
                    let last = self.words.count().saturating_sub(1);
                    self.words.set(last, word(value));
                } else {
                    self.put(value);
                    self.put(value);
                    pairs = pairs.saturating_add(1);
                }
                next = value.checked_add(1);
            }
        }
        self.words.set(mark, pairs);
    }

    // Writes a range table over the attribute that is chosen; one in eight is open.
    fn make_range(&mut self, chosen: Chosen, share: usize) {
        if self.dice.below(8) == 0 {
            let start = self.words.count();
            self.make_open(chosen);
            self.words.set(start, RANGE_MARK);
        } else {
            self.make_pairs(chosen, share);
        }
    }

    // Writes a table; but where others are put among them, one in eight is left open, and where these are range tables,
    // one of two with one attribute is one as well.
    fn make_filled(&mut self, shape: Shape, is_first: bool, chosen: Chosen) {
        let share = if shape.kind == Kind::Empty && is_first {
            0
        } else {
            self.dice.up_to(3)
        };
        self.dice.roll();
        if shape.among == Among::Ranges && chosen.is_one() && self.dice.below(2) == 0 {
            self.make_range(chosen, share);
        } else if shape.among != Among::Nothing && self.dice.below(8) == 0 {
            self.make_open(chosen);
        } else {
            self.make_table(chosen, share);
        }
    }

    // Which attributes a table has; never none.
    fn choose(&self, dice: Dice, kind: Kind, table: usize) -> Chosen {
        let all = Chosen::all(self.n);
        match kind {
            Kind::Apart => Chosen::only(table),
            Kind::One => all,
            Kind::Random | Kind::Empty => Chosen(dice.up_to(all.0)),
        }
    }

    // Writes a table that is put among the others: an open one over random attributes, or a range table over one.
    fn make_more(&mut self, shape: Shape, dice: Dice) {
        if shape.among == Among::Ranges {
            let share = self.dice.up_to(3).saturating_add(1);
            self.make_range(Chosen::only(dice.below(self.n)), share);
        } else {
            self.make_open(self.choose(dice, Kind::Random, 0));
        }
    }

    // How many tables a question has beside those that are put among them.
    fn filled_count(&self, kind: Kind) -> usize {
        match kind {
            Kind::Apart => self.n,
            Kind::One => 1,
            Kind::Random | Kind::Empty => self.dice.up_to(4),
        }
    }

    // How many open or range tables are put among them.
    fn more_count(&self, among: Among) -> usize {
        match among {
            Among::Nothing => 0,
            Among::Open | Among::Ranges => self.dice.up_to(4),
        }
    }

    // Writes the tables; those that are put among the others stand at random places. The last of the others has the
    // attributes that none has.
    fn make_tables(&mut self, shape: Shape) {
        let filled = self.filled_count(shape.kind);
        self.dice.roll();
        let count = filled.saturating_add(self.more_count(shape.among));
        self.put(count);
        self.dice.roll();
        let mut covered = Chosen::none();
        let mut done = 0usize;
        for table in 0..count {
            let dice = self.dice;
            self.dice = dice.rolled(2);
            if dice.rolled(1).below(count - table) < filled.saturating_sub(done) {
                let mut chosen = self.choose(dice, shape.kind, done);
                let is_first = done == 0;
                done = done.saturating_add(1);
                if done == filled {
                    chosen = chosen.with(Chosen::all(self.n).without(covered));
                }
                self.make_filled(shape, is_first, chosen);
                covered = covered.with(chosen);
            } else {
                self.make_more(shape, dice);
            }
        }
    }

    // Writes how many attributes there are.
    fn make_count(&mut self, n: usize) {
        self.n = n.min(MOST_MADE);
        self.put(n);
    }

    // Writes an attribute's width.
    fn make_width(&mut self, a: usize, width: usize) {
        if a < MOST_MADE {
            self.widths[a] = word(width);
        }
        self.put(width);
    }

    // Writes a question of one to four attributes.
    pub(crate) fn make_question(&mut self, shape: Shape) {
        let n = self.dice.up_to(MOST_MADE);
        self.make_count(n);
        self.dice.roll();
        for a in 0..self.n {
            let width = self.dice.up_to(6usize.saturating_sub(n));
            self.make_width(a, width);
            self.dice.roll();
        }
        self.make_tables(shape);
    }

    // Writes a question of one table over two attributes of six and five bits, with about so many of four
    // possible rows.
    pub(crate) fn make_large(&mut self, share: usize) {
        self.make_count(2);
        self.make_width(0, 6);
        self.make_width(1, 5);
        self.put(1);
        self.make_table(Chosen::all(2), share);
    }

    // Damages a question: changes one word, a little or wholly, cuts words off, puts one more, puts the mark of an open or a
    // range table or the number below it in a word's place, or swaps two.
    pub(crate) fn damage(&mut self) {
        let count = self.words.count();
        let way = self.dice.rolled(1).below(6);
        let place = self.dice.rolled(2).below(count);
        let dice = self.dice.rolled(3);
        match way {
            0 => {
                let more = word(dice.below(3)).wrapping_add(1);
                let old = self.words.at(place).unwrap_or(0);
                self.words.set(place, old.wrapping_add(more));
            }
            1 => self.words.set(place, word(dice.below(65536))),
            2 => self.words.truncate(place),
            3 => self.put(place),
            4 => self
                .words
                .set(place, OPEN_MARK.wrapping_sub(word(dice.below(2)))),
            _ => self.words.swap(place, dice.below(count)),
        }
        self.dice = dice.rolled(1);
    }
}
