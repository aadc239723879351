// What each object has to call, read from the placed bytes.
ghost use Rattle.std.specs.Prelude.{◌≡◌, length, unwrap_or};
ghost use Rattle.object.specs.Steps.Slots.{field_in, SameFields};
ghost use Rattle.object.specs.ProgramHeader.{dynamic_of};
ghost use Rattle.start_stop.specs.StartStop.{fields_at, array_of};
ghost use Rattle.start_stop.specs.Steps.Rows.{row_of, RowsRead};

use object::dynamic_array::{
    DT_FINI, DT_FINI_ARRAY, DT_FINI_ARRAYSZ, DT_INIT, DT_INIT_ARRAY, DT_INIT_ARRAYSZ,
    DT_PREINIT_ARRAY, DT_PREINIT_ARRAYSZ, Slots,
};
use scope::links::Links;
use sheet::sheet::Set;

// An array of functions: where it starts in its object, and how many words it has.
#[derive(Clone, Copy, Default)]
pub struct Array {
    pub at: usize,
    pub count: usize,
}

// The values of DT_INIT and DT_FINI, and three arrays. A value is no Option: the rule is that 0 is none, whether the tag is missing or not.
#[derive(Clone, Copy, Default)]
pub struct Row {
    pub init: u64,
    pub fini: u64,
    pub preinits: Array,
    pub inits: Array,
    pub finis: Array,
}

// The dynamic array of a file, in its placed bytes.
fn slots_of(image: &[u8], file: &[u8]) -> Slots
    ensures { SameFields (field_in result) (fields_at image.now (dynamic_of file.now)) }
{
    match object::program_header::dynamic_at(file) {
        Some(at) => object::dynamic_array::read_array(image, at).slots,
        None => [None; 38],
    }
}

fn value_of(slots: &Slots, tag: u64) -> u64
    ensures { result ≡ unwrap_or (field_in slots.now tag) 0 }
{
    object::dynamic_array::field_in(slots, tag).unwrap_or(0) as u64
}

// The array of two tags.
fn array_of(slots: &Slots, pointer: u64, size: u64) -> Array
    ensures { result ≡ array_of (field_in slots.now) pointer size }
{
    let at = object::dynamic_array::field_in(slots, pointer);
    let bytes = object::dynamic_array::field_in(slots, size);
    Array {
        at: at.unwrap_or(0),
        count: object::dynamic_fields::entry_count(at, bytes, 8),
    }
}

// The row of an object, from its placed bytes.
fn read_row(image: &[u8], file: &[u8]) -> Row
    ensures { result ≡ row_of (fields_at image.now (dynamic_of file.now)) }
{
    let slots = slots_of(image, file);
    Row {
        init: value_of(&slots, DT_INIT),
        fini: value_of(&slots, DT_FINI),
        preinits: array_of(&slots, DT_PREINIT_ARRAY, DT_PREINIT_ARRAYSZ),
        inits: array_of(&slots, DT_INIT_ARRAY, DT_INIT_ARRAYSZ),
        finis: array_of(&slots, DT_FINI_ARRAY, DT_FINI_ARRAYSZ),
    }
}

// The rows of program and libraries; the host's is not read.
pub(crate) fn read_rows(rows: &mut [Row; 64], set: &Set, arena: &[u8], links: &Links)
    ensures { RowsRead set.now (length set.now) arena.now links.now rows.new }
{
    for k in 1..set.len() {
        let s = links.link(k);
        rows[k] = read_row(sheet::sheet::part_of(arena, s.offset, s.span), set.file(k));
    }
}
