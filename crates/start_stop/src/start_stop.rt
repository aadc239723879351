// The public call that binds a set and lists what to call to start and to stop it.
ghost use Rattle.std.specs.Prelude.{◌≡◌, ◌≤◌, length, replicate};
ghost use Rattle.binder.specs.Setting.{setting_of};
ghost use Rattle.binder.specs.Bind.{bind_set};
ghost use Rattle.start_stop.specs.StartStop.{listing, then_list, start_stop_of};
ghost use Rattle.start_stop.specs.Steps.Rows.{InOrder};
ghost use Rattle.start_stop.specs.Steps.Bound.{calls_by};
ghost use Rattle.start_stop.specs.Steps.Listed.{finished_of, ListsMade};

use crate::Counts;
use crate::bound::Bound;
use crate::rows::Row;
use binder::{Policy, Refused};
use scope::links::Links;
use sheet::sheet::Set;
use words::refusal::Refusal;

// Refusals 26 and 27 of a bound set, and the lists, which were all zeros.
fn list_all(set: &Bound, start: &mut [u64], stop: &mut [u64]) -> Result<Counts, Refused>
    requires { InOrder set.now.links.now set.now.order.now × (start.old ≡ replicate (length start.old) 0) × (stop.old ≡ replicate (length stop.old) 0) }
    ensures { ListsMade (calls_by set.now) set.now.order.now set.now.arena.now start.new stop.new result }
{
    crate::arrays::check_arrays(set)?;
    let counts = Counts {
        start: crate::fill::put_start(start, set),
        stop: crate::fill::put_stop(stop, set),
    };
    if start.len() < counts.start || stop.len() < counts.stop {
        return Err(Refused::new(Refusal::ListRoom, 0));
    }
    Ok(counts)
}

// Refusals 2 to 28 of the set's objects; the rows are read before the objects are relocated. The parameters are the public call's own, one for
// each thing of the C call.
fn list_set(
    set: &Set,
    arena: &mut [u8],
    address: u64,
    policy: Policy,
    types: &[u32],
    report: &mut [u32],
    start: &mut [u64],
    stop: &mut [u64],
) -> Result<Counts, Refused>
    requires two { 2 ≤ length set.now }
    requires cleared { (report.old ≡ replicate (length report.old) 0) × (start.old ≡ replicate (length start.old) 0) × (stop.old ≡ replicate (length stop.old) 0) }
    ensures { finished_of result arena.new report.new start.new stop.new ≡ then_list (setting_of address types.now) set.now (length start.old) (length stop.old) (bind_set (setting_of address types.now) set.now (length arena.old) policy (length report.old)) }
{
    let mut table = [0u64; 1090];
    binder::prepare::prepare_to_bind(set, arena, address, types, &mut table)?;
    let links = Links::of(&table);
    let mut rows = [Row::default(); 64];
    crate::rows::read_rows(&mut rows, set, arena, &links);
    let order = binder::needs::order_of(set, arena, &table);
    binder::bind::bind_in(set, arena, policy, report, &links, &order)?;
    let bound = Bound {
        arena,
        links: &links,
        rows: &rows,
        order: &order,
    };
    list_all(&bound, start, stop)
}

// The answer; a refusal leaves zeros. No other function clears after a refusal. One of four
// `finish`, as binder's bind::finish says.
#[tactic(auto, using(crate::proofs::ListedIs::finish_listed, crate::proofs::ListedIs::keep_listed))]
fn finish(
    l: Result<Counts, Refused>,
    arena: &mut [u8],
    report: &mut [u32],
    start: &mut [u64],
    stop: &mut [u64],
) -> Result<Counts, Refused>
    ensures { listing result arena.new report.new start.new stop.new ≡ finished_of l arena.old report.old start.old stop.old }
{
    if l.is_err() {
        arena.fill(0);
        report.fill(0);
        start.fill(0);
        stop.fill(0);
    }
    l
}

// Binds the set of a sheet and its bytes in the arena at `address`, and lists the addresses to call: `start` in this order after binding,
// `stop` at the end.
pub fn start_stop(
    sheet: &[u32],
    bytes: &[u8],
    arena: &mut [u8],
    address: u64,
    policy: Policy,
    types: &[u32],
    report: &mut [u32],
    start: &mut [u64],
    stop: &mut [u64],
) -> Result<Counts, Refused>
    ensures { listing result arena.new report.new start.new stop.new ≡ start_stop_of (setting_of address types.now) sheet.now bytes.now (length arena.old) policy (length report.old) (length start.old) (length stop.old) }
{
    report.fill(0);
    start.fill(0);
    stop.fill(0);
    let Ok(set) = Set::of(sheet, bytes) else {
        let one = Err(Refused::new(Refusal::Sheet, 0));
        return finish(one, arena, report, start, stop);
    };
    let l = list_set(&set, arena, address, policy, types, report, start, stop);
    finish(l, arena, report, start, stop)
}
