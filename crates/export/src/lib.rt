// The functions for programs in C or Rust, which `export_c` exports: `include/lugwormpin.h` describes them.
#![tactic(auto)]

ghost use Rattle.std.specs.Prelude.{◌≡◌, [], ◌∷◌, length};
ghost use Rattle.words.specs.Memory.{mem};
ghost use Rattle.object.specs.RelocationTypes.{supplied_types};
ghost use Rattle.binder.specs.Setting.{setting_of, setting_at};
ghost use Rattle.binder.specs.Bind.{bind_of, query_of};
ghost use Rattle.binder.specs.QueryAll.{query_all_of};
ghost use Rattle.binder.specs.OwnOrder.{bind_ordered_of};
ghost use Rattle.start_stop.specs.StartStop.{start_stop_of};
ghost use Rattle.export.specs.Calls.{packed, policy_of, answer_number, reply_words, fitted, called, called_of, asked, asked_of, asked_all_of, lists_counts, called_lists, called_lists_of};

use binder::{Found, Policy, Refused};
use start_stop::Counts;

// A refusal as one number: the low half is its number, the high half its object.
fn pack(number: u32, object: u32) -> u64
    ensures { result ≡ packed number object }
{
    u64::from(number) + u64::from(object) * 4294967296
}

// 0 is lenient, any other number strict. No From<u32>: what a number means here is the C interface's rule.
fn policy_of(strict: u32) -> Policy
    ensures { result ≡ policy_of strict }
{
    if strict == 0 {
        Policy::Lenient
    } else {
        Policy::Strict
    }
}

// 0 for an answer.
fn answer_number<T: Copy>(answer: Result<T, Refused>) -> u64
    ensures { result ≡ answer_number answer }
{
    match answer {
        Ok(_) => 0,
        Err(r) => pack(r.number, r.object),
    }
}

// The words, then zeros. What does not fit is dropped.
fn store(answer: &mut [u64], words: &[u64])
    ensures { answer.new ≡ fitted (length answer.old) words.now }
{
    let n = words.len().min(answer.len());
    answer.fill(0);
    answer[..n].copy_from_slice(&words[..n]);
}

// The words of a reply.
fn store_reply(answer: &mut [u64], reply: Result<Option<Found>, Refused>)
    ensures { answer.new ≡ fitted (length answer.old) (reply_words reply) }
{
    match reply {
        Ok(Some(f)) => store(answer, &[1, f.object as u64, f.symbol as u64, f.address]),
        _ => store(answer, &[0, 0, 0, 0]),
    }
}

// Fills the slice with the supplied words of the types, then zeros.
pub fn lugwormpin_types(types: &mut [u32])
    ensures { types.new ≡ fitted (length types.old) supplied_types }
{
    binder::types::supply(types);
}

// Binds the set of a sheet and its bytes in the arena at `address`, each type as its word says: 0 where it is bound, else the refusal.
pub fn lugwormpin_bind(
    sheet: &[u32],
    bytes: &[u8],
    arena: &mut [u8],
    address: u64,
    strict: u32,
    types: &[u32],
    report: &mut [u32],
) -> u64
    ensures { called result arena.new report.new ≡ called_of (bind_of (setting_of address types.now) sheet.now bytes.now (length arena.old) (policy_of strict) (length report.old)) }
{
    let policy = policy_of(strict);
    let a = binder::bind::bind(sheet, bytes, arena, address, policy, types, report);
    answer_number(a)
}

// The same in an order of the caller's.
pub fn lugwormpin_bind_ordered(
    sheet: &[u32],
    bytes: &[u8],
    arena: &mut [u8],
    address: u64,
    strict: u32,
    types: &[u32],
    report: &mut [u32],
    order: &[u32],
) -> u64
    ensures { called result arena.new report.new ≡ called_of (bind_ordered_of (setting_of address types.now) sheet.now bytes.now (length arena.old) (policy_of strict) (length report.old) order.now) }
{
    let policy = policy_of(strict);
    let a = binder::own_order::bind_ordered(
        sheet, bytes, arena, address, policy, types, order, report,
    );
    answer_number(a)
}

// The address of `name` for the object `requester`: 0 where the question is answered, else the refusal.
pub fn lugwormpin_query(
    sheet: &[u32],
    bytes: &[u8],
    arena: &mut [u8],
    address: u64,
    requester: u32,
    name: &[u8],
    answer: &mut [u64],
) -> u64
    ensures { asked result arena.new answer.new ≡ asked_of (length answer.old) (query_of (setting_at address) sheet.now bytes.now (length arena.old) requester name.now) }
{
    let reply = binder::query::query(sheet, bytes, arena, address, requester, name);
    store_reply(answer, reply);
    answer_number(reply)
}

// The addresses of the names of a list, each of which has a zero byte after it, for the object `requester`: 0 where they are answered, else
// the refusal.
pub fn lugwormpin_query_all(
    sheet: &[u32],
    bytes: &[u8],
    arena: &mut [u8],
    address: u64,
    requester: u32,
    names: &[u8],
    addresses: &mut [u64],
) -> u64
    ensures { asked result arena.new addresses.new ≡ asked_all_of (query_all_of (setting_at address) sheet.now bytes.now (length arena.old) requester names.now (length addresses.old)) }
{
    let reply = binder::query_all::query_all(
        sheet, bytes, arena, address, requester, names, addresses,
    );
    answer_number(reply)
}

// The counts of the lists; zeros after a refusal.
fn store_counts(counts: &mut [u64], lists: Result<Counts, Refused>)
    ensures { counts.new ≡ fitted (length counts.old) (lists_counts lists) }
{
    match lists {
        Ok(c) => store(counts, &[c.start as u64, c.stop as u64]),
        Err(_) => store(counts, &[0, 0]),
    }
}

// Binds a set as `lugwormpin_bind` does, and lists what to call to start it and to stop it: 0 where it is bound, else the refusal.
pub fn lugwormpin_start_stop(
    sheet: &[u32],
    bytes: &[u8],
    arena: &mut [u8],
    address: u64,
    strict: u32,
    types: &[u32],
    report: &mut [u32],
    start: &mut [u64],
    stop: &mut [u64],
    counts: &mut [u64],
) -> u64
    ensures { called_lists result arena.new report.new start.new stop.new counts.new ≡ called_lists_of (length counts.old) (start_stop_of (setting_of address types.now) sheet.now bytes.now (length arena.old) (policy_of strict) (length report.old) (length start.old) (length stop.old)) }
{
    let policy = policy_of(strict);
    let l = start_stop::start_stop::start_stop(
        sheet, bytes, arena, address, policy, types, report, start, stop,
    );
    store_counts(counts, l);
    answer_number(l)
}
