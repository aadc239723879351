// The searches for a name over a set: the table of links, and which object answers. It knows nothing of order or relocation.
#![tactic(auto)]

pub mod links;
pub mod scope;
