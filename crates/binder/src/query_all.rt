// The public query for many names: their addresses in a set, for an object of it. The set is loaded once.
ghost use Rattle.std.specs.Prelude.{◌≡◌, ◌≤◌, true, map, length, count_by, ◌==◌};
ghost use Rattle.model.specs.Relocation.{address_or0};
ghost use Rattle.binder.specs.Steps.ScopeModel.{scoped_of};
ghost use Rattle.binder.specs.Steps.AllNames.{link_addresses};
ghost use Rattle.binder.specs.Setting.{setting_at};
ghost use Rattle.binder.specs.Steps.Finished.{replied_all_by};
ghost use Rattle.binder.specs.QueryAll.{names_in, ends_in_zero, list_ok, replied_all, ask_all_set, query_all_of};

use crate::Refused;
use scope::links::Links;
use scope::scope::Hit;
use sheet::sheet::Set;
use words::refusal::Refusal;

#[tactic(auto, using(crate::proofs::AllNamesLaws::ends_none, crate::proofs::AllNamesLaws::ends_last))]
fn ends_in_zero(list: &[u8]) -> bool
    ensures { result ≡ ends_in_zero list.now }
{
    list.last().is_none_or(|b| *b == 0)
}

// By place: `filter` and `count` took up to 11 instructions a byte, of a list that is looked through before each call is answered or refused.
fn zero_bytes(list: &[u8]) -> usize
    ensures { result ≡ count_by (λ b. b == 0) list.now }
{
    let mut n = 0;
    for i in 0..list.len() {
        if list[i] == 0 {
            n += 1;
        }
    }
    n
}

// Not 23: each name of the list has its zero byte, and each word its name.
#[tactic(auto, using(crate::proofs::AllNamesLaws::zeros_counted), unfolding(crate::specs::QueryAll::list_ok))]
fn list_ok(list: &[u8], words: usize) -> bool
    ensures { result ≡ list_ok list.now words }
{
    ends_in_zero(list) && zero_bytes(list) == words
}

// The word for what a search yields.
#[tactic(auto, unfolding(crate::specs::Steps::ScopeModel::scoped_of, model::specs::Relocation::address_or0))]
fn address_or_0(s: Option<Hit>) -> u64
    ensures { result ≡ address_or0 (scoped_of s) }
{
    s.map_or(0, |found| found.address)
}

// The addresses of the names of the list, one after another: a name is what is left of the list up to its zero byte.
fn resolve_all(arena: &[u8], links: &Links, requester: usize, list: &[u8], words: &mut [u64])
    requires { list_ok list.now (length words.old) ≡ true }
    ensures { words.new ≡ link_addresses arena.now links.now requester (names_in list.now) }
{
    let mut rest = list;
    for word in words.iter_mut() {
        let name = words::names::name_at(rest, 0);
        let gnu = words::hash::gnu_hash(name);
        let s = links.resolve(arena, requester, name, gnu);
        *word = address_or_0(s);
        rest = &rest[name.len() + 1..];
    }
}

// Refusals 2 to 13 and 21 of the set's objects, then 23, and the addresses.
fn ask_all_set(
    set: &Set,
    arena: &mut [u8],
    address: u64,
    requester: usize,
    list: &[u8],
    words: &mut [u64],
) -> Result<(), Refused>
    requires { 2 ≤ length set.now }
    ensures { replied_all_by result arena.new words.new ≡ ask_all_set (setting_at address) set.now (length arena.old) requester list.now (length words.old) }
{
    let count = set.len();
    let mut table = [0u64; 1026];
    crate::prepare::prepare(set, arena, address, Ok(()), &mut table)?;
    if count <= requester {
        return Err(Refused::new(Refusal::Requester, 0));
    }
    if !list_ok(list, words.len()) {
        return Err(Refused::new(Refusal::NameList, 0));
    }
    resolve_all(arena, &Links::of(&table), requester, list, words);
    Ok(())
}

// The answer; a refusal leaves zeros. One of four `finish`, as bind::finish says.
#[tactic(auto, using(crate::proofs::OutcomeLaws::finish_all, crate::proofs::OutcomeLaws::keep_all))]
fn finish(m: Result<(), Refused>, arena: &mut [u8], words: &mut [u64]) -> Result<(), Refused>
    ensures { replied_all result arena.new words.new ≡ replied_all_by m arena.old words.old }
{
    if m.is_err() {
        arena.fill(0);
        words.fill(0);
    }
    m
}

// The addresses of the names of `list`, each of which has a zero byte after it, for the object `requester`: one word a name, 0 for absent.
// After an answer the arena holds the placed, unrelocated bytes; after a refusal arena and words are zeros.
pub fn query_all(
    sheet: &[u32],
    bytes: &[u8],
    arena: &mut [u8],
    address: u64,
    requester: u32,
    list: &[u8],
    words: &mut [u64],
) -> Result<(), Refused>
    ensures { replied_all result arena.new words.new ≡ query_all_of (setting_at address) sheet.now bytes.now (length arena.old) requester list.now (length words.old) }
{
    let Ok(set) = Set::of(sheet, bytes) else {
        return finish(Err(Refused::new(Refusal::Sheet, 0)), arena, words);
    };
    let m = ask_all_set(&set, arena, address, requester as usize, list, words);
    finish(m, arena, words)
}
