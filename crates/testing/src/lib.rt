// What the test programs share: reading their input.
#![tactic(auto)]

pub mod input;
