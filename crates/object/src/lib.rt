// Reading one object: port of elf/* and objects/object_data/*. It knows nothing of sets.
#![tactic(auto)]

pub mod alignment;
pub mod check;
pub mod dynamic_array;
pub mod dynamic_fields;
pub mod entry_symbol;
pub mod hash_tables;
pub mod header;
mod marks;
pub mod object_data;
pub mod program_header;
pub mod relocate;
pub mod segments;
pub mod symbol;
pub mod table_bytes;
mod walks;
