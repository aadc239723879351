// What every call does with a set first: refusals 2 and 3, then its objects into the arena, refusals 4 to 12 and 21, object by object.
ghost use Rattle.std.specs.Prelude.{◌≡◌, ℕ, ◌+◌, ◌^◌, ◌≤◌, length};
ghost use Rattle.binder.specs.Setting.{setting_at, setting_of};
ghost use Rattle.binder.specs.Bind.{files_of, types_verdict};
ghost use Rattle.binder.specs.Verdict.{passed};
ghost use Rattle.binder.specs.Steps.Relocating.{row_at};
ghost use Rattle.object.specs.Placed.{Checked};
ghost use Rattle.binder.specs.Instance.{next_offset};
ghost use Rattle.binder.specs.Steps.Prepared.{LoadedAt, LoadedNext, LoadedFiles, Prepared};

use crate::Refused;
use object::object_data::Placed;
use scope::links::Link;
use sheet::sheet::Set;
use words::refusal::Refusal;

// Where an object goes: the host to the next free offset, any other to the least one from there on whose address is a multiple of its
// alignment.
#[tactic(auto, using(crate::proofs::OffsetLaws::next_host, crate::proofs::OffsetLaws::next_here, crate::proofs::OffsetLaws::next_past))]
fn offset_of(address: u64, free: usize, align: usize, host: bool) -> usize
    requires { (address + free ≤ 2 ^ 63) × (free ≤ 2 ^ 28) × (1 ≤ align) × (align ≤ 2 ^ 21) }
    ensures { result ≡ next_offset host align address free }
{
    if host {
        return free;
    }
    let past = (address + free as u64) % (align as u64);
    if past == 0 {
        return free;
    }
    free + (align - past as usize)
}

// Loads an object whose headers were checked at the offset `off`, in the part of the arena from there to its end: refusals 8 to 12.
fn load_at(
    arena: &mut [u8],
    off: usize,
    file: &[u8],
    host: bool,
    checked: Placed,
) -> Result<Link, Refusal>
    requires { (off ≤ length arena.old) × Checked host file.now checked }
    ensures { LoadedAt host file.now off arena.old arena.new result }
{
    let object = object::object_data::load(&mut arena[off..], file, host, &checked)?;
    Ok(Link {
        offset: off,
        span: object.span,
        view: object::dynamic_fields::view_of(&object),
    })
}

// Loads an object where it goes, `free` being the next free offset, and writes zeros before it: refusals 4 to 12 and 21.
fn load_next(
    arena: &mut [u8],
    address: u64,
    free: usize,
    file: &[u8],
    host: bool,
) -> Result<Link, Refusal>
    requires { (free ≤ length arena.old) × (length arena.old ≤ 2 ^ 28) × (address + length arena.old ≤ 2 ^ 63) }
    ensures { LoadedNext (setting_at address) (record { host = host; bytes = file.now }) free arena.old arena.new result }
{
    let checked = object::object_data::check_headers(file, host)?;
    let off = offset_of(address, free, checked.align, host);
    if arena.len() < off {
        return Err(Refusal::Room);
    }
    words::bytes::zero(arena, free, off - free);
    load_at(arena, off, file, host, checked)
}

// Loads the set's objects, one after another, writes zeros between them and behind the last, and fills the table of
// links.
fn load_all(set: &Set, arena: &mut [u8], address: u64, table: &mut [u64]) -> Result<(), Refused>
    requires { (1024 ≤ length table.old) × (length arena.old ≤ 2 ^ 28) × (address + length arena.old ≤ 2 ^ 63) }
    ensures { LoadedFiles (setting_at address) (files_of set.now) arena.old arena.new table.new result }
{
    let mut free = 0;
    for k in 0..set.len() {
        let s = load_next(arena, address, free, set.file(k), k == 0).map_err(|refusal| Refused::new(
            refusal, k as u32,
        ))?;
        scope::links::put_link(table, k, s);
        free = s.offset + s.span;
    }
    words::bytes::zero(arena, free, arena.len() - free);
    Ok(())
}

// Refusals 2 to 12 and 21 of the set's objects, and `types` between 2 and 3; what passes is loaded, whatever the arena holds before, and its links,
// its count and the arena's address are in the table. The table's length is a clause: a `Links` is of a table that is filled, and this fills it.
pub fn prepare(
    set: &Set,
    arena: &mut [u8],
    address: u64,
    types: Result<(), Refused>,
    table: &mut [u64],
) -> Result<(), Refused>
    requires { 1026 ≤ length table.old }
    ensures made { Prepared (setting_at address) types set.now arena.old arena.new table.new result }
    ensures objects { length set.now ≤ 64 }
{
    let count = set.len();
    if !sheet::sheet::arena_ok(arena.len(), address) {
        return Err(Refused::new(Refusal::Arena, 0));
    }
    types?;
    if let Some(k) = set.duplicate() {
        return Err(Refused::new(Refusal::Duplicate, k as u32));
    }
    load_all(set, arena, address, table)?;
    scope::links::put_set(table, count, address);
    Ok(())
}

// The same for a call that binds: its words of the types may be refused between 2 and 3, and stand in the table behind the set's count and address.
pub fn prepare_to_bind(
    set: &Set,
    arena: &mut [u8],
    address: u64,
    types: &[u32],
    table: &mut [u64],
) -> Result<(), Refused>
    requires { 1090 ≤ length table.old }
    ensures made { Prepared (setting_of address types.now) (types_verdict (setting_of address types.now)) set.now arena.old arena.new table.new result }
    ensures typed { result ≡ passed → (rtype : ℕ) → row_at table.new rtype ≡ (setting_of address types.now).row rtype }
    ensures objects { length set.now ≤ 64 }
{
    prepare(
        set,
        arena,
        address,
        crate::types::types_verdict(types),
        table,
    )?;
    crate::types::put_types(table, types);
    Ok(())
}
