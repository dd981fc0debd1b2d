// How an archive files questions: in the order of their words, the first differing word deciding. No
// accepted question is the beginning of another, so there always is such a word; that is proved, with
// the order and what two questions share. Assumes nothing.
#![tactic(auto)]

mod compare;

pub use compare::{
    Filing, compare_questions, comparison_case, comparison_number, filing_of, shared_beginning,
};
