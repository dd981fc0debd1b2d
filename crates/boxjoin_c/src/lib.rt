// The box join for C and for other languages that call C: nine functions under plain names, declared
// in include/boxjoin.h. Each takes its buffers as pointers with lengths, asks nothing of them, and
// calls the function of `boxjoin` that has its name; the promises are those. Assumes nothing.
#![tactic(auto)]

ghost use Rattle.std.specs.Prelude.{◌≡◌, length};
ghost use Rattle.questions.specs.Says.{CheckSays};
ghost use Rattle.search.specs.Says.{ScratchSays};
ghost use Rattle.text.specs.Says.{ListSays};
ghost use Rattle.checker.specs.Checks.{check_number};
ghost use Rattle.checker.specs.Claims.{CheckDelivered};
ghost use Rattle.boxjoin.specs.Says.{CallSays, LiftCallSays, ImportCallSays, ExportCallSays, JoinCallSays};

// 0 for an accepted question, else the number of the first question that is answered no.
#[unsafe(no_mangle)]
pub extern "C" fn boxjoin_check_question(question: &[u16]) -> u8
    ensures { CheckSays question.now result }
{
    boxjoin::boxjoin_check_question(question)
}

// Lists the natural join of a question's tables and stores the boxes that show that no tuple is
// missing; answers the run's number and puts its counts into the first words of counts.
#[unsafe(no_mangle)]
pub extern "C" fn boxjoin_run(
    question: &[u16],
    listing: &mut [u16],
    store: &mut [u32],
    counts: &mut [u32],
) -> u8
    ensures { CallSays question.now listing.old listing.new store.old store.new counts.old counts.new result }
{
    boxjoin::boxjoin_run(question, listing, store, counts)
}

// The same with a scratch of the caller's, of any length, that makes it quick; a refusal leaves it as it
// was, and after a run its words are free.
#[unsafe(no_mangle)]
pub extern "C" fn boxjoin_run_with(
    question: &[u16],
    listing: &mut [u16],
    store: &mut [u32],
    scratch: &mut [u32],
    counts: &mut [u32],
) -> u8
    ensures call_says { CallSays question.now listing.old listing.new store.old store.new counts.old counts.new result }
    ensures scratch { ScratchSays question.now scratch.old scratch.new }
{
    boxjoin::boxjoin_run_with(question, listing, store, scratch, counts)
}

// 0 for a listing and records that are accepted, whoever made them: then the listing is the natural join
// of the question's tables. Else the number of the question's refusal, or 22 where a check fails.
#[unsafe(no_mangle)]
pub extern "C" fn boxjoin_check_listing(question: &[u16], listing: &[u16], records: &[u32]) -> u8
    ensures value { result ≡ check_number question.now listing.now records.now }
    ensures delivered { CheckDelivered question.now listing.now records.now result }
{
    boxjoin::boxjoin_check_listing(question, listing, records)
}

// What the listing program prints for a text: answers how many bytes that is, and writes them all at
// the front of out if they fit, and nothing otherwise.
#[unsafe(no_mangle)]
pub extern "C" fn boxjoin_list_text(text: &[u8], out: &mut [u8]) -> usize
    ensures { ListSays text.now out.old out.new result }
{
    boxjoin::boxjoin_list_text(text, out)
}

// The lift firm's copy of what the listing program prints for a text, with the attributes of the given
// numbers hidden: answers 0, or 13 where out has no room for it, and puts how many bytes it has into counts.
#[unsafe(no_mangle)]
pub extern "C" fn boxjoin_lift_copy(
    text: &[u8],
    hidden: &[u16],
    out: &mut [u8],
    counts: &mut [u32],
) -> u8
    ensures { LiftCallSays text.now hidden.now out.old out.new counts.old counts.new result }
{
    boxjoin::boxjoin_lift_copy(text, hidden, out, counts)
}

// Imports a table's comma-separated file under the attributes' names: answers the number, puts the
// table's words at the front of words if there is room for them, and how many they are into counts.
#[unsafe(no_mangle)]
pub extern "C" fn boxjoin_import_csv(
    names: &[u8],
    file: &[u8],
    words: &mut [u16],
    counts: &mut [u32],
) -> u8
    ensures { ImportCallSays names.now file.now words.old words.new counts.old counts.new result }
{
    boxjoin::boxjoin_import_csv(names, file, words, counts)
}

// Exports a listing as a comma-separated file: answers the number, puts the file at the front of out if
// there is room for it, and how many bytes it has into counts.
#[unsafe(no_mangle)]
pub extern "C" fn boxjoin_export_csv(
    names: &[u8],
    listing: &[u16],
    out: &mut [u8],
    counts: &mut [u32],
) -> u8
    ensures { ExportCallSays names.now listing.now out.old out.new counts.old counts.new result }
{
    boxjoin::boxjoin_export_csv(names, listing, out, counts)
}

// Joins the tables of comma-separated files, which stand one after the other in files, each up to its
// end, and writes the join as such a file at the front of out where the run is complete; answers the
// number, and puts tuples, boxes, resolutions, bytes, file and record into counts.
#[unsafe(no_mangle)]
pub extern "C" fn boxjoin_join_csv(
    names: &[u8],
    files: &[u8],
    ends: &[u32],
    listing: &mut [u16],
    store: &mut [u32],
    scratch: &mut [u32],
    out: &mut [u8],
    counts: &mut [u32],
) -> u8
    ensures { JoinCallSays names.now files.now ends.now listing.old listing.new store.old store.new scratch.old scratch.new out.old out.new counts.old counts.new result }
{
    boxjoin::boxjoin_join_csv(names, files, ends, listing, store, scratch, out, counts)
}
