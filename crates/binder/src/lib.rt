// Ordering the objects of a set, and binding them.
#![tactic(auto)]

ghost use Rattle.std.specs.Prelude.{◌≡◌};
ghost use Rattle.words.specs.Refusal.{refusal_number};

use std::fmt;
use words::refusal::Refusal;

pub mod bind;
pub mod copy;
pub mod crossing;
pub mod needs;
pub mod order;
pub mod own_order;
pub mod prepare;
pub mod query;
pub mod query_all;
pub mod relocate;
pub mod relr;
pub mod report;
pub mod turn;
pub mod types;

// What happens to a set with undefined entries: it is refused, or bound with a report.
#[derive(Clone, Copy, Debug, PartialEq, Eq)]
pub enum Policy {
    Strict,
    Lenient,
}

// The refusal of a call: its number and its object. The rules, the definitions (`refused n k`), C and the printed line name a refusal by its
// number; the definitions are over any number.
#[derive(Clone, Copy, Debug, PartialEq, Eq)]
pub struct Refused {
    pub number: u32,
    pub object: u32,
}

impl Refused {
    pub fn new(refusal: Refusal, object: u32) -> Refused
        ensures { result ≡ record { number = refusal_number refusal; object = object } }
    {
        Refused {
            number: u32::from(refusal),
            object: object,
        }
    }
}

impl fmt::Display for Refused {
    fn fmt<W: fmt::Write>(&self, f: &mut fmt::Formatter<W>) -> fmt::Result {
        write!(f, "refused {} object {}", self.number, self.object)
    }
}

// Where a query found its name.
#[derive(Clone, Copy, Debug, PartialEq, Eq)]
pub struct Found {
    pub object: usize,
    pub symbol: usize,
    pub address: u64,
}
