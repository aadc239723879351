// Little-endian words in byte slices, copies, names, the two hashes of a name, pages, the numbers of the refusals, and a list in fixed memory.
#![tactic(auto)]

pub mod bytes;
pub mod copy_vec;
pub mod hash;
pub mod names;
pub mod page_size;
pub mod refusal;
pub mod word;
