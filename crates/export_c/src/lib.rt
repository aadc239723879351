// The static library for programs in C or Rust: the functions of `export` under their names in C, with their clauses. `include/lugwormpin.h`
// describes them.
#![tactic(auto)]

ghost use Rattle.std.specs.Prelude.{◌≡◌, length};
ghost use Rattle.object.specs.RelocationTypes.{supplied_types};
ghost use Rattle.binder.specs.Setting.{setting_of, setting_at};
ghost use Rattle.binder.specs.Bind.{bind_of, query_of};
ghost use Rattle.binder.specs.QueryAll.{query_all_of};
ghost use Rattle.binder.specs.OwnOrder.{bind_ordered_of};
ghost use Rattle.start_stop.specs.StartStop.{start_stop_of};
ghost use Rattle.export.specs.Calls.{policy_of, fitted, called, called_of, asked, asked_of, asked_all_of, called_lists, called_lists_of};

// Fills the slice with the supplied words of the types, then zeros.
#[unsafe(no_mangle)]
pub extern "C" fn lugwormpin_types(types: &mut [u32])
    ensures { types.new ≡ fitted (length types.old) supplied_types }
{
    export::lugwormpin_types(types);
}

// Binds the set of a sheet and its bytes in the arena at `address`, each type as its word says: 0 where it is bound, else the refusal.
#[unsafe(no_mangle)]
pub extern "C" fn lugwormpin_bind(
    sheet: &[u32],
    bytes: &[u8],
    arena: &mut [u8],
    address: u64,
    strict: u32,
    types: &[u32],
    report: &mut [u32],
) -> u64
    ensures { called result arena.new report.new ≡ called_of (bind_of (setting_of address types.now) sheet.now bytes.now (length arena.old) (policy_of strict) (length report.old)) }
{
    export::lugwormpin_bind(sheet, bytes, arena, address, strict, types, report)
}

// The same in an order of the caller's.
#[unsafe(no_mangle)]
pub extern "C" fn lugwormpin_bind_ordered(
    sheet: &[u32],
    bytes: &[u8],
    arena: &mut [u8],
    address: u64,
    strict: u32,
    types: &[u32],
    report: &mut [u32],
    order: &[u32],
) -> u64
    ensures { called result arena.new report.new ≡ called_of (bind_ordered_of (setting_of address types.now) sheet.now bytes.now (length arena.old) (policy_of strict) (length report.old) order.now) }
{
    export::lugwormpin_bind_ordered(sheet, bytes, arena, address, strict, types, report, order)
}

// The address of `name` for the object `requester`: 0 where the question is answered, else the refusal.
#[unsafe(no_mangle)]
pub extern "C" fn lugwormpin_query(
    sheet: &[u32],
    bytes: &[u8],
    arena: &mut [u8],
    address: u64,
    requester: u32,
    name: &[u8],
    answer: &mut [u64],
) -> u64
    ensures { asked result arena.new answer.new ≡ asked_of (length answer.old) (query_of (setting_at address) sheet.now bytes.now (length arena.old) requester name.now) }
{
    export::lugwormpin_query(sheet, bytes, arena, address, requester, name, answer)
}

// The addresses of the names of a list, each of which has a zero byte after it, for the object `requester`: 0 where they are answered, else
// the refusal.
#[unsafe(no_mangle)]
pub extern "C" fn lugwormpin_query_all(
    sheet: &[u32],
    bytes: &[u8],
    arena: &mut [u8],
    address: u64,
    requester: u32,
    names: &[u8],
    addresses: &mut [u64],
) -> u64
    ensures { asked result arena.new addresses.new ≡ asked_all_of (query_all_of (setting_at address) sheet.now bytes.now (length arena.old) requester names.now (length addresses.old)) }
{
    export::lugwormpin_query_all(sheet, bytes, arena, address, requester, names, addresses)
}

// Binds a set as `lugwormpin_bind` does, and lists what to call to start it and to stop it: 0 where it is bound, else the refusal.
#[unsafe(no_mangle)]
pub extern "C" fn lugwormpin_start_stop(
    sheet: &[u32],
    bytes: &[u8],
    arena: &mut [u8],
    address: u64,
    strict: u32,
    types: &[u32],
    report: &mut [u32],
    start: &mut [u64],
    stop: &mut [u64],
    counts: &mut [u64],
) -> u64
    ensures { called_lists result arena.new report.new start.new stop.new counts.new ≡ called_lists_of (length counts.old) (start_stop_of (setting_of address types.now) sheet.now bytes.now (length arena.old) (policy_of strict) (length report.old) (length start.old) (length stop.old)) }
{
    export::lugwormpin_start_stop(
        sheet, bytes, arena, address, strict, types, report, start, stop, counts,
    )
}
