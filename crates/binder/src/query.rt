// The public query: the address of a name in a set, for an object of it.
ghost use Rattle.std.specs.Prelude.{◌≡◌, ◌≤◌, length, replicate};
ghost use Rattle.binder.specs.Steps.ScopeModel.{scoped_of};
ghost use Rattle.binder.specs.Setting.{setting_at};
ghost use Rattle.binder.specs.Bind.{replied, reply_of, ask_set, query_of};
ghost use Rattle.binder.specs.Steps.Finished.{replied_by};

use crate::{Found, Refused};
use scope::links::Links;
use scope::scope::Hit;
use sheet::sheet::Set;
use words::refusal::Refusal;

// The answer of a search, as a query gives it.
#[tactic(auto, unfolding(crate::specs::Steps::ScopeModel::scoped_of))]
fn found_by(s: Option<Hit>) -> Option<Found>
    ensures { Ok result ≡ reply_of (scoped_of s) }
{
    let found = s?;
    Some(Found {
        object: found.object,
        symbol: found.definition.index,
        address: found.address,
    })
}

// Refusals 2 to 13 of the set's objects, and the answer.
fn ask_set(
    set: &Set,
    arena: &mut [u8],
    address: u64,
    requester: usize,
    name: &[u8],
) -> Result<Option<Found>, Refused>
    requires { 2 ≤ length set.now }
    ensures { replied_by result arena.new ≡ ask_set (setting_at address) set.now (length arena.old) requester name.now }
{
    let count = set.len();
    let mut table = [0u64; 1026];
    crate::prepare::prepare(set, arena, address, Ok(()), &mut table)?;
    if count <= requester {
        return Err(Refused::new(Refusal::Requester, 0));
    }
    let gnu = words::hash::gnu_hash(name);
    let s = Links::of(&table).resolve(arena, requester, name, gnu);
    Ok(found_by(s))
}

// The answer; a refusal leaves zeros. One of four `finish`, as bind::finish says.
#[tactic(auto, using(crate::proofs::OutcomeLaws::finish_asked, crate::proofs::OutcomeLaws::keep_asked))]
fn finish(r: Result<Option<Found>, Refused>, arena: &mut [u8]) -> Result<Option<Found>, Refused>
    ensures { replied result arena.new ≡ replied_by r arena.old }
{
    if r.is_err() {
        arena.fill(0);
    }
    r
}

// The address of `name` for the object `requester`. After an answer the arena holds the placed, unrelocated bytes; after a refusal, zeros.
pub fn query(
    sheet: &[u32],
    bytes: &[u8],
    arena: &mut [u8],
    address: u64,
    requester: u32,
    name: &[u8],
) -> Result<Option<Found>, Refused>
    ensures { replied result arena.new ≡ query_of (setting_at address) sheet.now bytes.now (length arena.old) requester name.now }
{
    let Ok(set) = Set::of(sheet, bytes) else {
        return finish(Err(Refused::new(Refusal::Sheet, 0)), arena);
    };
    let r = ask_set(&set, arena, address, requester as usize, name);
    finish(r, arena)
}
