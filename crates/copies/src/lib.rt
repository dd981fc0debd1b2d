// The lift firm's copy of what the listing program prints for a text: certain attributes, given by
// number, are hidden. Every byte of it is proved, and that texts which differ in hidden values alone, and not in
// what is seen, have the same copy. Assumes nothing.
#![tactic(auto)]

mod copy;
mod lines;
mod marks;

pub use copy::{NoRoom, lift_copy};
