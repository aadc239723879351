// What to call to start and to stop a bound set, and when: two lists of addresses.
#![tactic(auto)]

pub mod arrays;
pub mod bound;
pub mod fill;
pub mod rows;
pub mod start_stop;

// How many words each list has.
#[derive(Clone, Copy, Debug, PartialEq, Eq)]
pub struct Counts {
    pub start: usize,
    pub stop: usize,
}
