// The words of the types: which are applied, passed over or refused.
ghost use Rattle.std.specs.Prelude.{◌≡◌, ◌+◌, ◌≤◌, true, length, slice_index};
ghost use Rattle.words.specs.Memory.{mem, tab, patch};
ghost use Rattle.object.specs.RelocationTypes.{word_ok, types_ok, supplied_types};
ghost use Rattle.object.specs.Steps.Actions.{row_by};
ghost use Rattle.object.specs.declared.relocate.Action.TheVariants as actions;
ghost use Rattle.binder.specs.Bind.{unless};
ghost use Rattle.binder.specs.Steps.Relocating.{row_at};

use crate::Refused;
use object::relocate::Action;
use scope::links::Links;
use words::refusal::Refusal;

// ---- what is handed in

// Whether a type may have that word.
fn word_ok(word: u32, rtype: u32) -> bool
    ensures { result ≡ word_ok rtype word }
{
    let word = u64::from(word);
    let low = u64::from(rtype);
    word == 0x9000_0000 + low && object::relocate::may_apply(rtype)
        || word == 0xa000_0000 + low
        || word == 0xb000_0000 + low
}

fn types_ok(types: &[u32]) -> bool
    ensures { result ≡ types_ok types.now }
{
    types.len() == 64
        && types
            .iter()
            .enumerate()
            .all(|(i, word)| word_ok(*word, i as u32))
}

// Refusal 24.
#[tactic(auto, unfolding(crate::specs::Bind::unless))]
pub fn types_verdict(types: &[u32]) -> Result<(), Refused>
    ensures { result ≡ unless (types_ok types.now) 24 0 }
{
    if !types_ok(types) {
        return Err(Refused::new(Refusal::Types, 0));
    }
    Ok(())
}

// The supplied word of type `i`; 0 past the last.
#[tactic(auto, using(crate::proofs::TypeWords::supplied_small, crate::proofs::TypeWords::supplied_in, crate::proofs::TypeWords::supplied_past))]
fn supplied_at(i: usize) -> u32
    ensures { result ≡ mem supplied_types i }
{
    if i < 64 {
        return object::relocate::supplied_word(i as u32) as u32;
    }
    0
}

// The supplied words, then zeros. What does not fit is dropped.
pub fn supply(types: &mut [u32])
    ensures { types.new ≡ tab (length types.old) (mem supplied_types) }
{
    for (i, word) in types.iter_mut().enumerate() {
        *word = supplied_at(i);
    }
}

// ---- in the table of a set, behind its count and address

pub fn put_types(table: &mut [u64], types: &[u32])
    requires { (1090 ≤ length table.old) × (length types.now ≡ 64) }
    ensures { table.new ≡ patch table.old 1026 64 (mem types.now) }
{
    for (i, word) in types.iter().enumerate() {
        table[1026 + i] = u64::from(*word);
    }
}

// The word of a type; 0 past the table's end.
fn word_of(table: &[u64], rtype: u32) -> u64
    ensures { result ≡ slice_index table.now (1026 + rtype) }
{
    let k = 1026 + rtype as usize;
    table.get(k).copied().unwrap_or(0)
}

// What the type of an entry asks for.
#[tactic(auto, unfolding(crate::specs::Steps::Relocating::row_at))]
pub(crate) fn action_in(table: &[u64], rtype: u32) -> Action
    ensures { row_by result ≡ row_at table.now rtype }
{
    object::relocate::action_of(word_of(table, rtype), rtype)
}

pub(crate) fn action_at(links: &Links, rtype: u32) -> Action
    ensures { row_by result ≡ row_at links.now rtype }
{
    action_in(links.words(), rtype)
}

// Whether type 8 is applied.
pub(crate) fn applies_relative(links: &Links) -> bool
    ensures { result ≡ true → row_at links.now 8 ≡ row_by actions.Relative }
{
    matches!(action_at(links, 8), Action::Relative)
}
