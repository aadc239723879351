// The call that binds a set in an order of the caller's: a builder's own order.
ghost use Rattle.std.specs.Prelude.{◌≡◌, ◌≤◌, length, take, replicate, ◌==◌, nat_eq, count_by, IsTrue, ◌↔◌};
ghost use Rattle.std.specs.List.{All};
ghost use Rattle.words.specs.Choice.{pick, every, some};
ghost use Rattle.words.specs.Names.{same_bytes};
ghost use Rattle.model.specs.Order.{listed, up_from, times};
ghost use Rattle.object.specs.Entries.{relas_from};
ghost use Rattle.binder.specs.Setting.{setting_of};
ghost use Rattle.binder.specs.Bind.{outcome};
ghost use Rattle.binder.specs.OwnOrder.{is_order, is_copy, bind_ordered_of};
ghost use Rattle.binder.specs.Steps.OrderTaken.{copy_again, copies_at, Taken, BoundOrdered};

use crate::{Policy, Refused};
use scope::links::Links;
use sheet::sheet::Set;
use words::refusal::Refusal;

// ---- each library once, then the program, and nothing else

// How often `k` is in a list.
fn times_in(list: &[u32], k: u32) -> usize
    ensures { result ≡ count_by (λ j. j == k) list.now }
{
    list.iter().filter(|j| **j == k).count()
}

// Whether each library is in the list once. The bound is a clause: a count is a plain `usize`, and `may_take` has it from the set.
fn each_once(list: &[u32], libraries: usize) -> bool
    requires { libraries ≤ 62 }
    ensures { result ≡ every (λ k. nat_eq (times k list.now) 1) (up_from 2 libraries) }
{
    (2..libraries + 2).all(|k| times_in(list, k as u32) == 1)
}

fn is_library(k: u32, libraries: usize) -> bool
    requires { libraries ≤ 62 }
    ensures { result ≡ listed libraries k }
{
    2 <= k && (k as usize) < libraries + 2
}

// Whether all numbers of the list are libraries'.
fn only_libraries(list: &[u32], libraries: usize) -> bool
    requires { libraries ≤ 62 }
    ensures { IsTrue result ↔ All (λ k. IsTrue (listed libraries k)) list.now }
{
    list.iter().all(|k| is_library(*k, libraries))
}

// Whether the words are an order of the program and that many libraries. No `is_some_and`: tried, with the four tests in a closure the answer did
// not prove.
fn is_order(order: &[u32], libraries: usize) -> bool
    requires { libraries ≤ 62 }
    ensures { result ≡ is_order libraries order.now }
{
    let Some((last, front)) = order.split_last() else {
        return false;
    };
    front.len() == libraries
        && *last == 1
        && each_once(front, libraries)
        && only_libraries(front, libraries)
}

// ---- COPY entries of libraries

// Whether one of the `n` entries of the table at `at` has type 5. Not crossing's `has_copies`: that one has to be fast, and may be true where
// entries leave the image.
fn copy_in(image: &[u8], at: usize, n: u32) -> bool
    ensures { result ≡ some is_copy (relas_from image.now at 0 n) }
{
    (0..n).any(|i| object::relocate::rela_at(image, at, i).rtype == 5)
}

// Whether a loaded object has an entry of type 5: its image and its file are given, and its record is read again.
#[tactic(auto, using(crate::proofs::OwnOrderLaws::copy_stops, crate::proofs::OwnOrderLaws::copy_goes, object::proofs::RefusalLaws::number_some))]
fn has_copy(image: &[u8], file: &[u8]) -> bool
    ensures { result ≡ copy_again image.now file.now }
{
    crate::relocate::read_again(image, file).is_ok_and(|o| {
        copy_in(image, o.rela, crate::relr::cut_to_32(o.relas))
            || copy_in(image, o.plt, crate::relr::cut_to_32(o.plts))
    })
}

// Whether a library has one. No `any`: nothing is known of a closure that borrows the set.
fn library_copies(set: &Set, arena: &[u8], links: &Links) -> bool
    ensures { result ≡ copies_at set.now arena.now links.now }
{
    for k in 2..set.len() {
        let s = links.link(k);
        if has_copy(sheet::sheet::part_of(arena, s.offset, s.span), set.file(k)) {
            return true;
        }
    }
    false
}

// ---- the call

// Whether the order may be taken, of objects that are loaded: not refusal 35.
#[tactic(auto, using(crate::proofs::OwnOrderLaws::same_pointwise))]
fn may_take(set: &Set, arena: &[u8], links: &Links, order: &[u32]) -> bool
    requires { 2 ≤ length set.now }
    ensures { Taken set.now arena.now links.now order.now result }
{
    let own = crate::needs::order_of(set, arena, links.words());
    is_order(order, set.len() - 2)
        && (order == own.as_slice() || !library_copies(set, arena, links))
}

// Refusals 2 to 25 and 35 of the set's objects, bound in that order. The parameters are the public call's own, one for each thing of the C call.
fn bind_set_ordered(
    set: &Set,
    arena: &mut [u8],
    address: u64,
    policy: Policy,
    types: &[u32],
    order: &[u32],
    report: &mut [u32],
) -> Result<(), Refused>
    requires two { 2 ≤ length set.now }
    requires cleared { report.old ≡ replicate (length report.old) 0 }
    ensures { BoundOrdered (setting_of address types.now) set.now (length arena.old) policy (length report.old) order.now arena.new report.new result }
{
    let mut table = [0u64; 1090];
    crate::prepare::prepare_to_bind(set, arena, address, types, &mut table)?;
    let links = Links::of(&table);
    if !may_take(set, arena, &links, order) {
        return Err(Refused::new(Refusal::Order, 0));
    }
    crate::bind::bind_in(set, arena, policy, report, &links, order)
}

// Binds the set of a sheet and its bytes in the arena at `address`, in the order that is handed in.
pub fn bind_ordered(
    sheet: &[u32],
    bytes: &[u8],
    arena: &mut [u8],
    address: u64,
    policy: Policy,
    types: &[u32],
    order: &[u32],
    report: &mut [u32],
) -> Result<(), Refused>
    ensures { outcome result arena.new report.new ≡ bind_ordered_of (setting_of address types.now) sheet.now bytes.now (length arena.old) policy (length report.old) order.now }
{
    report.fill(0);
    let Ok(set) = Set::of(sheet, bytes) else {
        let one = Err(Refused::new(Refusal::Sheet, 0));
        return crate::bind::finish(one, arena, report);
    };
    let m = bind_set_ordered(&set, arena, address, policy, types, order, report);
    crate::bind::finish(m, arena, report)
}
