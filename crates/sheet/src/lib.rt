// What is handed in: the sheet and its parts, and refusals 1 to 3. It knows nothing of ELF.
#![tactic(auto)]

pub mod sheet;
