// The symbol of a relocation entry, refusals 14 and 15.
ghost use Rattle.std.specs.Prelude.{◌≡◌, true, ℕ, ◌≤◌, ◌<◌};
ghost use Rattle.object.specs.Steps.FineRange.{FineOf};
ghost use Rattle.object.specs.Record.{held_by, index_ok, checked_symbol};

use crate::dynamic_fields::{ObjectData, bounds_of};
use crate::symbol::Symbol;
use crate::table_bytes::Fine;
use words::refusal::Refusal;

// Whether an index is below a known count.
#[tactic(auto, unfolding(crate::specs::Record::index_ok))]
fn index_ok(known: Option<usize>, index: u32) -> bool
    ensures { result ≡ index_ok known index }
{
    known.is_none_or(|count| (index as usize) < count)
}

// The symbol of an entry, or refusal 14 or 15.
pub fn checked_symbol(image: &[u8], o: &ObjectData, index: u32) -> Result<Symbol, Refusal>
    ensures { result ≡ checked_symbol image.now (held_by o.now) index }
{
    let known = o.known;
    if !index_ok(known, index) {
        return Err(Refusal::SymbolIndex);
    }
    let b = bounds_of(o);
    if !crate::check::symbol_ok(image, b, o.symbols, o.strings, index) {
        return Err(Refusal::SymbolBytes);
    }
    Ok(crate::symbol::symbol_at(image, o.symbols, index))
}

// How many of the first `n` symbols are below a known count.
#[tactic(auto, unfolding(crate::specs::Record::index_ok))]
fn known_of(known: Option<usize>, n: usize) -> usize
    ensures { (result ≤ n) × ((s : ℕ) → s < result → index_ok known s ≡ true) }
{
    known.map_or(n, |count| n.min(count))
}

// Which symbols and names of the object need no further test.
pub fn fine_in(image: &[u8], o: &ObjectData) -> Fine
    ensures { FineOf image.now (held_by o.now) result.fits result.ends }
{
    let known = o.known;
    let f = crate::table_bytes::fine_of(image, bounds_of(o), o.symbols, o.strings);
    Fine {
        fits: known_of(known, f.fits),
        ends: f.ends,
    }
}
