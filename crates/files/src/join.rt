// The join of comma-separated files.
ghost use Rattle.std.specs.Prelude.{◌≡◌};
ghost use Rattle.fields.specs.Fields.{fields_of};
ghost use Rattle.files.specs.Says.{ran_with, RanSays, JoinSays};
ghost use Rattle.files.specs.Refusals.{refused_with, answered};
ghost use Rattle.files.specs.Claims.{JoinDelivered};
ghost use Rattle.files.specs.Runs.{RunAsk};

use super::gather::gather;
use super::refusal::{JoinRefusal, JoinRefused};
use super::widths::put_front;
use csv_tables::{export_csv, read_names};
use questions::{MAX_TABLES, MAX_WORDS};
use search::{Counts, run_join_with};

// What became of a join of files: its number; how many tuples are listed, how many boxes are stored, how
// many of them are resolvents; how many bytes the listing has as a file; and for a refusal the file and
// the place of the record that it is of, from 1, 0 where there is none.
#[derive(Clone, Copy, Debug, PartialEq, Eq)]
pub struct CsvJoin {
    pub number: u8,
    pub tuples: u32,
    pub boxes: u32,
    pub resolutions: u32,
    pub bytes: u32,
    pub file: u32,
    pub place: u32,
}

impl CsvJoin {
    // A refusal before the run.
    fn refused(refused: JoinRefused) -> Self
        ensures { result ≡ refused_with refused }
    {
        Self {
            number: refused.why.number(),
            tuples: 0,
            boxes: 0,
            resolutions: 0,
            bytes: 0,
            file: refused.file.unwrap_or(0),
            place: refused.place.unwrap_or(0),
        }
    }

    // What became of a run, with the number and the bytes of its file.
    fn ran(run: Counts, number: u8, bytes: u32) -> Self
        ensures { result ≡ ran_with run number bytes }
    {
        Self {
            number: number,
            tuples: run.tuples,
            boxes: run.boxes,
            resolutions: run.resolutions,
            bytes: bytes,
            file: 0,
            place: 0,
        }
    }
}

// Runs a question, and exports its join where the run is complete.
fn run_and_export(
    names: &[u8],
    dimension: usize,
    question: &[u16],
    listing: &mut [u16],
    store: &mut [u32],
    scratch: &mut [u32],
    out: &mut [u8],
) -> CsvJoin
    requires { RunAsk names.now dimension question.now }
    ensures { (a : RunAsk names.now dimension question.now) → RanSays (fields_of names.now) a.question listing.old listing.new store.old store.new scratch.old scratch.new out.old out.new result }
{
    let run = run_join_with(question, listing, store, scratch);
    if run.number != 0 {
        return CsvJoin::ran(run, run.number, 0);
    }
    let file = export_csv(names, &listing[..run.tuples as usize * dimension], out);
    CsvJoin::ran(run, file.number, file.count)
}

// The join of the files, or why and where it is refused before its run.
fn join_files(
    names: &[u8],
    files: &[u8],
    ends: &[u32],
    listing: &mut [u16],
    store: &mut [u32],
    scratch: &mut [u32],
    out: &mut [u8],
) -> Result<CsvJoin, JoinRefused>
    ensures { JoinSays names.now files.now ends.now listing.old listing.new store.old store.new scratch.old scratch.new out.old out.new (answered result) }
{
    let dimension = read_names(names)?;
    if ends.is_empty() || MAX_TABLES < ends.len() {
        return Err(JoinRefused::at_none(JoinRefusal::Tables));
    }
    let mut words = [0u16; MAX_WORDS];
    let size = gather(names, dimension, files, ends, &mut words)?;
    if MAX_WORDS < size {
        return Err(JoinRefused::at_none(JoinRefusal::Words));
    }
    put_front(&mut words, dimension, ends.len());
    Ok(run_and_export(
        names,
        dimension,
        &words[..size],
        listing,
        store,
        scratch,
        out,
    ))
}

// Joins the tables of comma-separated files, which are lent one after the other, and writes the join as
// such a file into out where the run is complete, all of it or nothing. Listing, store and scratch are
// those of the run.
pub fn join_csv(
    names: &[u8],
    files: &[u8],
    ends: &[u32],
    listing: &mut [u16],
    store: &mut [u32],
    scratch: &mut [u32],
    out: &mut [u8],
) -> CsvJoin
    ensures join_says { JoinSays names.now files.now ends.now listing.old listing.new store.old store.new scratch.old scratch.new out.old out.new result }
    ensures delivered { JoinDelivered names.now files.now ends.now listing.old listing.new store.old store.new scratch.old scratch.new out.old out.new result }
{
    match join_files(names, files, ends, listing, store, scratch, out) {
        Ok(join) => join,
        Err(refused) => CsvJoin::refused(refused),
    }
}
