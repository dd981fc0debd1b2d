// Two questions compared by their words, and the beginning that they share: the longest common prefix.
ghost use Rattle.std.specs.Prelude.{◌≡◌};
ghost use Rattle.filing.specs.Comparisons.{comparison_of, comparison_number, comparison_case, shared_count, shared_of};
ghost use Rattle.filing.specs.Says.{CompareSays, FilingSays};
ghost use Rattle.filing.specs.Claims.{Compares, Shares};

use questions::{Refusal, check_question};
use std::cmp::Ordering;

// The number of a comparison: the refusal's, and 0 where both questions are accepted.
pub fn comparison_number(answer: Result<Ordering, Refusal>) -> u8
    ensures { result ≡ comparison_number (comparison_of answer) }
{
    match answer {
        Ok(_) => 0,
        Err(refusal) => refusal.number(),
    }
}

// Its case as a number: 1 before, 2 same, 3 after, 0 refused.
pub fn comparison_case(answer: Result<Ordering, Refusal>) -> u32
    ensures { result ≡ comparison_case (comparison_of answer) }
{
    match answer {
        Err(_) => 0,
        Ok(Ordering::Less) => 1,
        Ok(Ordering::Equal) => 2,
        Ok(Ordering::Greater) => 3,
    }
}

// How two accepted questions are filed: where the first stands beside the second, and how many words their
// shared beginning has.
#[derive(Clone, Copy, Debug, PartialEq, Eq)]
pub struct Filing {
    pub order: Ordering,
    pub shared: u32,
}

// How many words two questions have alike, up to the first that differs.
fn shared_count(first: &[u16], second: &[u16]) -> usize
    ensures { result ≡ shared_count first.now second.now }
{
    first
        .iter()
        .zip(second)
        .take_while(|(word, other)| word == other)
        .count()
}

// The order of two questions with the length of their shared beginning; or the refusal of the first one, else
// of the second. The same words are asked once. Of others, both being accepted, neither is the beginning of
// the other, so the first word that differs decides.
pub fn filing_of(first: &[u16], second: &[u16]) -> Result<Filing, Refusal>
    ensures { FilingSays first.now second.now result }
{
    check_question(first)?;
    if first != second {
        check_question(second)?;
    }
    Ok(Filing {
        order: first.cmp(second),
        shared: shared_count(first, second) as u32,
    })
}

// Whether the first question stands before the second, is the same, or stands after it, by the first word
// that differs; or the first one's refusal, else the second's.
pub fn compare_questions(first: &[u16], second: &[u16]) -> Result<Ordering, Refusal>
    ensures compare_says { CompareSays first.now second.now (comparison_of result) }
    ensures delivered { Compares first.now second.now (comparison_of result) }
{
    let filing = filing_of(first, second)?;
    Ok(filing.order)
}

// The longest beginning that two questions share, as a part of the first: all of it where they are the
// same, and its empty beginning where one is refused.
pub fn shared_beginning<'a, 'b>(first: &'a [u16], second: &'b [u16]) -> &'a [u16]
    ensures result_value { result.now ≡ shared_of first.now second.now }
    ensures delivered { Shares first.now second.now result.now }
{
    let count = filing_of(first, second).map_or(0, |filing| filing.shared as usize);
    &first[..count]
}
