// A text read and its question run, with room for the program's boxes and for the tuples that a lent
// listing holds.
ghost use Rattle.text.specs.TextRuns.{RanApart, RunTextSays};

use super::reader::read_text;
use super::refusal::TextRefusal;
use super::{LISTING_BOXES, SPARE_WORDS};
use fields::MAX_BYTES;
use questions::check_question;
use search::{Counts, RECORD_WORDS, run_join_with};
use trees::NODE_WORDS;

// How many words of a question the program has room for.
const TEXT_WORDS: usize = MAX_BYTES + SPARE_WORDS;

// How many words of boxes.
const STORE_WORDS: usize = LISTING_BOXES * RECORD_WORDS;

// How many words of scratch: three nodes for each box, and the tree's own words.
const SCRATCH_WORDS: usize = (LISTING_BOXES * 3 + 1) * NODE_WORDS;

// The run of a text's question: how many attributes a tuple has, and the run's counts.
#[derive(Clone, Copy)]
pub struct TextRun {
    pub dimension: usize,
    pub counts: Counts,
}

// The run of a question in memory of its own, with room for the program's boxes. It stands apart so that a text
// that is refused has none of it cleared, and no other twice.
fn run_apart(question: &[u16], listing: &mut [u16]) -> Counts
    ensures { RanApart question.now listing.old listing.new result }
{
    let mut store = [0u32; STORE_WORDS];
    let mut scratch = [0u32; SCRATCH_WORDS];
    run_join_with(question, listing, &mut store, &mut scratch)
}

// Reads a text and runs its question: the tuples stand at the front of the listing. A refusal leaves it
// as it was.
pub fn run_text(text: &[u8], listing: &mut [u16]) -> Result<TextRun, TextRefusal>
    ensures { RunTextSays text.now listing.old listing.new result }
{
    let mut words = [0u16; TEXT_WORDS];
    let count = read_text(text, &mut words)?;
    let question = &words[..count];
    check_question(question)?;
    let counts = run_apart(question, listing);
    let dimension = usize::from(words[0]);
    Ok(TextRun { dimension, counts })
}
