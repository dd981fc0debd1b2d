// What is printed for a text: the text is read, its question is run, and the answer is put into a
// lent slice.
ghost use Rattle.fields.specs.Fields.{fields_of};
ghost use Rattle.std.specs.Prelude.{List, ℕ};
ghost use Rattle.fields.specs.Puts.{Puts, PutsLine, TakesTuples};
ghost use Rattle.search.specs.declared.run.Counts.{Counts};
ghost use Rattle.text.specs.Prints.{line_of, tuple_line};
ghost use Rattle.text.specs.Says.{ListSays};
ghost use Rattle.text.specs.Puts.{top_line, PutsCounts, RunAsks, run_bytes, PutAsks, answer_bytes};

use super::LISTING_WORDS;
use super::printer::{put_last, put_refusal};
use super::refusal::TextRefusal;
use super::run::{TextRun, run_text};
use fields::{LINE_END, SPACE, part_end, print_whole, put_bytes, put_lines, put_tuple};
use search::Counts;

// Puts a text's first line, with its end.
pub fn put_top(out: &mut [u8], text: &[u8]) -> usize
    ensures { Puts (line_of (fields_of (top_line text.now))) 0 out.old out.new result }
{
    let top = part_end(text, 0, LINE_END);
    let names = put_bytes(out, 0, &text[..top]);
    put_bytes(out, names, &[LINE_END])
}

// Puts what a run prints: the names, which are the text's first line, a line for each tuple of the listing, as the
// first closure puts one, and the last line, as the second does.
pub fn put_run<F, G>(
    out: &mut [u8],
    text: &[u8],
    listing: &[u16],
    run: TextRun,
    put_tuple: F,
    put_end: G,
) -> usize
where
    F: Fn(&mut [u8], usize, &[u16]) -> usize,
    G: Fn(&mut [u8], usize, Counts) -> usize,
    requires tuples { TakesTuples F.Fn put_tuple run.dimension }
    requires end { G.IsAlwaysCallable put_end }
    ensures { RunAsks listing.now run → (line : List ℕ → List ℕ) (last : Counts → List ℕ) → PutsLine F.Fn put_tuple line → PutsCounts G.Fn put_end last → Puts (run_bytes line last text.now listing.now run) 0 out.old out.new result }
{
    let line = put_top(out, text);
    let counts = run.counts;
    let dimension = run.dimension;
    let words = (counts.tuples as usize).saturating_mul(dimension);
    let front = &listing[..words.min(listing.len())];
    let tuples = put_lines(out, line, front, dimension, put_tuple);
    put_end(out, tuples, counts)
}

// Puts what is printed for an answer.
fn put_answer(
    out: &mut [u8],
    text: &[u8],
    listing: &[u16],
    answer: Result<TextRun, TextRefusal>,
) -> usize
    requires { PutAsks listing.now answer }
    ensures { Puts (answer_bytes text.now listing.now answer) 0 out.old out.new result }
{
    match answer {
        Err(refusal) => put_refusal(out, refusal.number()),
        Ok(run) => put_run(
            out,
            text,
            listing,
            run,
            |place: &mut [u8], end: usize, tuple: &[u16]|
                ensures { Puts (tuple_line tuple.now) end place.old place.new result }
            { put_tuple(place, end, tuple, SPACE, &[LINE_END]) },
            put_last,
        ),
    }
}

// What the listing program prints for a text: answers how many bytes that is, and writes them all at
// the front of out if they fit, and nothing otherwise.
pub fn list_text(text: &[u8], out: &mut [u8]) -> usize
    ensures { ListSays text.now out.old out.new result }
{
    let mut listing = [0u16; LISTING_WORDS];
    let answer = run_text(text, &mut listing);
    print_whole(
        out,
        |place: &mut [u8]|
            requires { PutAsks listing answer }
            ensures { Puts (answer_bytes text.entry.now listing answer) 0 place.old place.new result }
        { put_answer(place, text, &listing, answer) },
    )
}
