// The public call that binds a set.
ghost use Rattle.std.specs.Prelude.{◌≡◌, ◌^◌, ◌<◌, ◌≤◌, length, take, replicate, slice_index_or};
ghost use Rattle.sheet.specs.Sheet.{no_input};
ghost use Rattle.binder.specs.Setting.{setting_of};
ghost use Rattle.binder.specs.Bind.{outcome, bind_of, allows};
ghost use Rattle.binder.specs.Steps.Finished.{ends_by, UntilReadable, Crossed, RelocatedOr, BoundSet, finished_of};

use crate::crossing::Crossing;
use crate::report::Progress;
use crate::{Policy, Refused};
use scope::links::Links;
use sheet::sheet::Set;
use words::refusal::Refusal;

// Refusal 19: whether the policy allows an object with an undefined entry; 0 is none.
fn allows_undefined(policy: Policy, undefined: u32) -> bool
    ensures { result ≡ allows policy undefined }
{
    match policy {
        Policy::Strict => undefined == 0,
        Policy::Lenient => true,
    }
}

// What is refused at the end of relocating: 19, then 20.
#[tactic(auto, unfolding(crate::specs::Steps::Finished::ends_by, crate::specs::Bind::unless))]
fn end(p: Progress, policy: Policy) -> Result<(), Refused>
    ensures { result ≡ ends_by policy p }
{
    if !allows_undefined(policy, p.undefined) {
        return Err(Refused::new(Refusal::Undefined, p.undefined));
    }
    if p.full {
        return Err(Refused::new(Refusal::ReportRoom, 0));
    }
    Ok(())
}

// Refusal 28 at the first entry whose copy crosses an earlier one, or what is met before it, at that entry too.
fn crossed(
    set: &Set,
    arena: &mut [u8],
    report: &mut [u32],
    links: &Links,
    order: &[u32],
    m: Crossing,
) -> Result<(), Refused>
    requires { (length order.now ≤ 64) × (m.index < length order.now) × (m.entry ≤ 2 ^ 33) }
    ensures { UntilReadable set.now links.now order.now m.index arena.old report.old → Crossed set.now links.now order.now m.index m.entry arena.old report.old result }
{
    let i = m.index;
    let mut p = Progress::new();
    crate::relocate::run_order(set, arena, report, &mut p, links, &order[..i])?;
    let k = order[i];
    let file = set.file(k as usize);
    crate::relocate::run_until(arena, report, &mut p, links, k, file, m.entry + 1)?;
    Err(Refused::new(Refusal::Crossing, k))
}

// Refusals 14 to 20, 22, 25 and 28 of the objects of the set, which are loaded: they are relocated in any order of them. The order is a plain
// slice, as a caller's own may be, so each function of a set asks for at most 64 numbers by a clause: no type says it.
pub fn bind_in(
    set: &Set,
    arena: &mut [u8],
    policy: Policy,
    report: &mut [u32],
    links: &Links,
    order: &[u32],
) -> Result<(), Refused>
    requires { length order.now ≤ 64 }
    ensures { RelocatedOr set.now links.now order.now arena.old policy report.old arena.new report.new result }
{
    if let Some(m) = crate::crossing::crossing_in(set, arena, links, order) {
        return crossed(set, arena, report, links, order, m);
    }
    let mut p = Progress::new();
    crate::relocate::run_order(set, arena, report, &mut p, links, order)?;
    end(p, policy)
}

// Refusals 2 to 25 of the set's objects, bound in the order of the set. `Set::of` gives the two objects; no invariant says it, since
// `Set::from_objects` makes smaller sets. The caller clears the report; a slice of words has no type that says so. The
// parameters are the public call's own, one for each thing of the C call.
fn bind_set(
    set: &Set,
    arena: &mut [u8],
    address: u64,
    policy: Policy,
    types: &[u32],
    report: &mut [u32],
) -> Result<(), Refused>
    requires two { 2 ≤ length set.now }
    requires cleared { report.old ≡ replicate (length report.old) 0 }
    ensures { BoundSet (setting_of address types.now) set.now (length arena.old) policy (length report.old) arena.new report.new result }
{
    let mut table = [0u64; 1090];
    crate::prepare::prepare_to_bind(set, arena, address, types, &mut table)?;
    let order = crate::needs::order_of(set, arena, &table);
    bind_in(set, arena, policy, report, &Links::of(&table), &order)
}

// The answer; a refusal leaves zeros. No other function clears after a refusal of a call that binds. Four functions `finish`, since each says
// another outcome: `outcome`, `replied`, `replied_all` and `listing` are constructors of different types.
#[tactic(auto, using(crate::proofs::OutcomeLaws::finish_bound, crate::proofs::OutcomeLaws::keep_bound))]
pub(crate) fn finish(
    m: Result<(), Refused>,
    arena: &mut [u8],
    report: &mut [u32],
) -> Result<(), Refused>
    ensures { outcome result arena.new report.new ≡ finished_of m arena.old report.old }
{
    if m.is_err() {
        arena.fill(0);
        report.fill(0);
    }
    m
}

// Binds the set of a sheet and its bytes in the arena at `address`, each type as its word says.
pub fn bind(
    sheet: &[u32],
    bytes: &[u8],
    arena: &mut [u8],
    address: u64,
    policy: Policy,
    types: &[u32],
    report: &mut [u32],
) -> Result<(), Refused>
    ensures { outcome result arena.new report.new ≡ bind_of (setting_of address types.now) sheet.now bytes.now (length arena.old) policy (length report.old) }
{
    report.fill(0);
    let Ok(set) = Set::of(sheet, bytes) else {
        return finish(Err(Refused::new(Refusal::Sheet, 0)), arena, report);
    };
    let m = bind_set(&set, arena, address, policy, types, report);
    finish(m, arena, report)
}
