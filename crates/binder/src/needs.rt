// The order of a set, from its needs' names: they match library names byte for byte.
ghost use Rattle.std.specs.Prelude.{◌≡◌, ◌+◌, ◌*◌, ◌<◌, ◌≤◌, length, unwrap_or, IfSome};
ghost use Rattle.binder.specs.Bind.{names_of};
ghost use Rattle.binder.specs.SetOrder.{number_of};
ghost use Rattle.binder.specs.Steps.Needed.{NeedsPut, NeedsFilled, Arranged};

use crate::order::Order;
use sheet::sheet::Set;

// The number of the library with that name, if one has it. No `find`: with a closure that borrows the set, `is` did not prove.
fn library_named(set: &Set, name: &[u8]) -> Option<u8>
    ensures is { unwrap_or result 0 ≡ number_of name.now 2 (names_of set.now) }
    ensures listed { IfSome result (λ j. (2 ≤ j) × (j < 64)) }
{
    for j in 2..set.len() {
        if words::names::same(name, set.name(j)) {
            return Some(j as u8);
        }
    }
    None
}

// The numbers of the needs of library `k` go to its row of the table. Its image, its string table and its file are given.
fn put_needs(needs: &mut [u8], k: usize, set: &Set, image: &[u8], strings: usize, file: &[u8])
    requires { (k < 64) × (length needs.old ≡ 4096) }
    ensures { NeedsPut set.now image.now strings file.now k needs.old needs.new }
{
    let Some(at) = object::program_header::dynamic_at(file) else {
        return;
    };
    let Ok(offsets) = object::dynamic_array::read_needs(image, at) else {
        return;
    };
    for (i, n) in offsets.iter().enumerate() {
        let name = words::names::name_off(image, strings, *n);
        // 0 for none: the row is bytes of fixed memory
        needs[64 * k + i] = library_named(set, name).unwrap_or(0);
    }
}

// The rows of all libraries, in a table of zeros. The links come as words, as in order_of.
fn fill_needs(needs: &mut [u8], set: &Set, arena: &[u8], table: &[u64])
    requires { length needs.old ≡ 4096 }
    ensures { NeedsFilled set.now arena.now table.now needs.old needs.new }
{
    for k in 2..set.len() {
        let s = scope::links::link_at(table, k);
        put_needs(
            needs,
            k,
            set,
            sheet::sheet::part_of(arena, s.offset, s.span),
            s.view.strings,
            set.file(k),
        );
    }
}

// The order of the objects of the set, which are loaded. The table comes as words: a `Links` would ask more of a caller.
pub fn order_of(set: &Set, arena: &[u8], table: &[u64]) -> Order
    requires { 2 ≤ length set.now }
    ensures { Arranged set.now arena.now table.now result.items }
{
    let mut needs = [0u8; 4096];
    fill_needs(&mut needs, set, arena, table);
    crate::order::arrange(&needs, set.len() - 2)
}
