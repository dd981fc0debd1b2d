// The check of a question, a listing and records.
ghost use Rattle.std.specs.Prelude.{◌≡◌};
ghost use Rattle.checker.specs.Checks.{check_number};
ghost use Rattle.checker.specs.Refusals.{check_result_number};
ghost use Rattle.checker.specs.Claims.{CheckDelivered};

use super::certificate::Certificate;
use super::refusal::CheckRefusal;
use questions::read_question;
use search::RECORD_WORDS;

// Accepts a listing and records if they show that the listing is the natural join of the question's tables,
// whoever made them. Else the question is refused, or a check fails.
pub fn check_listing(question: &[u16], listing: &[u16], records: &[u32]) -> Result<(), CheckRefusal>
    ensures value { check_result_number result ≡ check_number question.now listing.now records.now }
    ensures delivered { CheckDelivered question.now listing.now records.now (check_result_number result) }
{
    let directory = read_question(question)?;
    let (records, rest) = records.as_chunks::<RECORD_WORDS>();
    let certificate = Certificate {
        question,
        directory: &directory,
        listing,
        records,
    };
    if rest.is_empty() && certificate.stands() {
        Ok(())
    } else {
        Err(CheckRefusal::Failed)
    }
}
