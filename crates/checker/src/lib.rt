// The check of a listing and of records, whoever made them: an accepted listing is the natural join.
// Nothing is written. Assumes nothing.
#![tactic(auto)]

mod certificate;
mod check;
mod kind;
mod listing;
mod records;
mod refusal;
mod widths;

pub use check::check_listing;
pub use refusal::CheckRefusal;
