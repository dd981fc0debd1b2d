// What is checked: a listing, and records that are to show that it is the join.
ghost use Rattle.std.specs.Prelude.{◌≡◌, map, ◌≤◌, length, take};
ghost use Rattle.search.specs.Records.{stored_of, cut_s};
ghost use Rattle.checker.specs.Checks.{ends_whole, read_tuples};
ghost use Rattle.checker.specs.Parts.{gap_checked, record_checked, records_checked, tuples_checked, all_checked, Sized};

use super::kind::Kind;
use super::listing::{are_points, have_all_rows, is_ascending};
use super::records::{is_whole_space, records_fit, resolvent_stands, tuple_stands};
use questions::{Directory, TableEntry};
use search::RECORD_WORDS;
use tables::holds_row;

// A listing and records that are to show that it is the join of an accepted question, whose directory this is.
#[derive(Clone, Copy)]
pub(crate) struct Certificate<'a> {
    pub(crate) question: &'a [u16],
    pub(crate) directory: &'a Directory,
    pub(crate) listing: &'a [u16],
    pub(crate) records: &'a [[u32; RECORD_WORDS]],
    ghost sized: { Sized directory.now },
}

impl<'a> Certificate<'a> {
    // The widths of the question's attributes.
    fn widths(self) -> &'a [u16]
        ensures { result.now ≡ take self.entry.directory.now.dimension self.entry.directory.now.widths }
    {
        &self.directory.widths[..self.directory.dimension]
    }

    // The entries of its tables.
    fn entries(self) -> &'a [TableEntry]
        ensures { result.now ≡ take self.entry.directory.now.tables self.entry.directory.now.entries }
    {
        &self.directory.entries[..self.directory.tables]
    }

    // Whether there is a record, and the last one is the whole space.
    fn ends_whole(self) -> bool
        ensures { result ≡ ends_whole self.entry.directory.now.dimension (map (cut_s self.entry.directory.now.dimension) (map stored_of self.entry.records.now)) }
    {
        self.records
            .last()
            .is_some_and(|last| is_whole_space(self.directory.dimension, last))
    }

    // Whether the words of the listing are tuples, strictly ascending, each within the widths and with its row in
    // every table.
    fn tuples_stand(self) -> bool
        ensures { result ≡ tuples_checked self.entry.question.now self.entry.directory.now self.entry.listing.now }
    {
        let n = self.directory.dimension;
        self.listing.len() % n == 0
            && is_ascending(self.listing, n)
            && are_points(self.widths(), self.listing)
            && have_all_rows(self.question, self.entries(), self.listing, n)
    }

    // Whether a box holds no row of a table of the question.
    fn gap_stands(self, table: usize, intervals: &[u32]) -> bool
        ensures { result ≡ gap_checked self.entry.question.now self.entry.directory.now table intervals.now }
    {
        match self.entries().get(table) {
            Some(entry) => !holds_row(self.question, self.directory.widths, *entry, intervals),
            None => false,
        }
    }

    // Whether the record of a number is what its kind and its origins say.
    fn record_stands(self, number: usize, words: &[u32; RECORD_WORDS]) -> bool
        requires { number ≤ length self.records.now }
        ensures { result ≡ record_checked self.entry.question.now self.entry.directory.now (read_tuples self.entry.directory.now.dimension self.entry.listing.now) (map (cut_s self.entry.directory.now.dimension) (map stored_of self.entry.records.now)) number (cut_s self.entry.directory.now.dimension (stored_of words.now)) }
    {
        let n = self.directory.dimension;
        let intervals = &words[..n];
        match Kind::of(words) {
            Some(Kind::Gap { table }) => self.gap_stands(table, intervals),
            Some(Kind::Tuple { place }) => {
                tuple_stands(self.widths(), self.listing, place, intervals)
            }
            Some(Kind::Resolvent { first, second }) => {
                resolvent_stands(&self.records[..number], first, second, intervals)
            }
            None => false,
        }
    }

    // Whether each of the records is what its kind and its origins say.
    fn records_stand(self) -> bool
        ensures { result ≡ records_checked 0 self.entry.question.now self.entry.directory.now (read_tuples self.entry.directory.now.dimension self.entry.listing.now) (map (cut_s self.entry.directory.now.dimension) (map stored_of self.entry.records.now)) (map (cut_s self.entry.directory.now.dimension) (map stored_of self.entry.records.now)) }
    {
        self.records
            .iter()
            .enumerate()
            .all(|(number, words)| self.record_stands(number, words))
    }

    // Whether it shows what it is to show.
    pub(crate) fn stands(self) -> bool
        ensures { result ≡ all_checked self.entry.question.now self.entry.directory.now self.entry.listing.now (map stored_of self.entry.records.now) }
    {
        self.ends_whole()
            && self.tuples_stand()
            && records_fit(self.widths(), self.records)
            && self.records_stand()
    }
}
