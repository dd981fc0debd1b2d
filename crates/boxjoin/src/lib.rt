// The box join for C and for other languages that call C: nine functions under plain names, which the
// static library boxjoin_c exports and include/boxjoin.h declares. Each asks nothing of its buffers and
// answers what the crates below answer; their promises are those. Assumes nothing.
#![tactic(auto)]

ghost use Rattle.std.specs.Prelude.{◌≡◌, length, take};
ghost use Rattle.questions.specs.Says.{CheckSays};
ghost use Rattle.questions.specs.Words.{over};
ghost use Rattle.search.specs.Says.{ScratchSays};
ghost use Rattle.text.specs.Says.{ListSays};
ghost use Rattle.checker.specs.Checks.{check_number};
ghost use Rattle.checker.specs.Claims.{CheckDelivered};
ghost use Rattle.boxjoin.specs.Says.{count_words, CallSays, LiftCallSays, ImportCallSays, ExportCallSays, JoinCallSays};

use checker::check_listing;
use copies::{NoRoom, lift_copy};
use csv_tables::{export_csv, import_csv};
use files::join_csv;
use questions::check_question;
use search::{Counts, run_join, run_join_with};
use text::list_text;

// Puts words at the front of a slice, as many as have a place.
fn put_counts(counts: &mut [u32], words: &[u32])
    ensures { counts.new ≡ over (take (length counts.old) words.now) counts.old }
{
    let count = counts.len().min(words.len());
    counts[..count].copy_from_slice(&words[..count]);
}

// Puts the counts of a run's result, and answers its number.
fn put_result(counts: &mut [u32], made: Counts) -> u8
    ensures value { result ≡ made.number }
    ensures counts_after { counts.new ≡ over (take (length counts.old) (count_words made)) counts.old }
{
    put_counts(counts, &[made.tuples, made.boxes, made.resolutions]);
    made.number
}

// 0 for an accepted question, else the number of the first question that is answered no.
pub fn boxjoin_check_question(question: &[u16]) -> u8
    ensures { CheckSays question.now result }
{
    match check_question(question) {
        Ok(()) => 0,
        Err(refusal) => refusal.number(),
    }
}

// Lists the natural join of a question's tables and stores the boxes that show that no tuple is
// missing; answers the run's number and puts its counts into the first words of counts.
pub fn boxjoin_run(
    question: &[u16],
    listing: &mut [u16],
    store: &mut [u32],
    counts: &mut [u32],
) -> u8
    ensures { CallSays question.now listing.old listing.new store.old store.new counts.old counts.new result }
{
    let made = run_join(question, listing, store);
    put_result(counts, made)
}

// The same with a scratch of the caller's, of any length, that makes it quick; a refusal leaves it as it
// was, and after a run its words are free.
pub fn boxjoin_run_with(
    question: &[u16],
    listing: &mut [u16],
    store: &mut [u32],
    scratch: &mut [u32],
    counts: &mut [u32],
) -> u8
    ensures call_says { CallSays question.now listing.old listing.new store.old store.new counts.old counts.new result }
    ensures scratch { ScratchSays question.now scratch.old scratch.new }
{
    let made = run_join_with(question, listing, store, scratch);
    put_result(counts, made)
}

// 0 for a listing and records that are accepted, whoever made them: then the listing is the natural join
// of the question's tables. Else the number of the question's refusal, or 22 where a check fails.
pub fn boxjoin_check_listing(question: &[u16], listing: &[u16], records: &[u32]) -> u8
    ensures value { result ≡ check_number question.now listing.now records.now }
    ensures delivered { CheckDelivered question.now listing.now records.now result }
{
    match check_listing(question, listing, records) {
        Ok(()) => 0,
        Err(refusal) => refusal.number(),
    }
}

// What the listing program prints for a text: answers how many bytes that is, and writes them all at
// the front of out if they fit, and nothing otherwise.
pub fn boxjoin_list_text(text: &[u8], out: &mut [u8]) -> usize
    ensures { ListSays text.now out.old out.new result }
{
    list_text(text, out)
}

// The lift firm's copy of what the listing program prints for a text, with the attributes of the given
// numbers hidden: answers 0, or 13 where out has no room for it, and puts how many bytes it has into counts.
pub fn boxjoin_lift_copy(text: &[u8], hidden: &[u16], out: &mut [u8], counts: &mut [u32]) -> u8
    ensures { LiftCallSays text.now hidden.now out.old out.new counts.old counts.new result }
{
    let made = lift_copy(text, hidden, out);
    let (number, bytes) = match made {
        Ok(bytes) => (0, bytes),
        Err(NoRoom { bytes }) => (13, bytes),
    };
    put_counts(counts, &[bytes]);
    number
}

// Imports a table's comma-separated file under the attributes' names: answers the number, puts the
// table's words at the front of words if there is room for them, and how many they are into counts.
pub fn boxjoin_import_csv(names: &[u8], file: &[u8], words: &mut [u16], counts: &mut [u32]) -> u8
    ensures { ImportCallSays names.now file.now words.old words.new counts.old counts.new result }
{
    let made = import_csv(names, file, words);
    put_counts(counts, &[made.count]);
    made.number
}

// Exports a listing as a comma-separated file: answers the number, puts the file at the front of out if
// there is room for it, and how many bytes it has into counts.
pub fn boxjoin_export_csv(names: &[u8], listing: &[u16], out: &mut [u8], counts: &mut [u32]) -> u8
    ensures { ExportCallSays names.now listing.now out.old out.new counts.old counts.new result }
{
    let made = export_csv(names, listing, out);
    put_counts(counts, &[made.count]);
    made.number
}

// Joins the tables of comma-separated files, which stand one after the other in files, each up to its
// end, and writes the join as such a file at the front of out where the run is complete; answers the
// number, and puts tuples, boxes, resolutions, bytes, file and record into counts.
pub fn boxjoin_join_csv(
    names: &[u8],
    files: &[u8],
    ends: &[u32],
    listing: &mut [u16],
    store: &mut [u32],
    scratch: &mut [u32],
    out: &mut [u8],
    counts: &mut [u32],
) -> u8
    ensures { JoinCallSays names.now files.now ends.now listing.old listing.new store.old store.new scratch.old scratch.new out.old out.new counts.old counts.new result }
{
    let made = join_csv(names, files, ends, listing, store, scratch, out);
    put_counts(
        counts,
        &[
            made.tuples,
            made.boxes,
            made.resolutions,
            made.bytes,
            made.file,
            made.place,
        ],
    );
    made.number
}
