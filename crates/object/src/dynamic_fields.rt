// The object record and refusals 9 to 12: port of dynamic_fields.rs.
ghost use Rattle.std.specs.Prelude.{◌≡◌, ◌*◌, ◌^◌, ◌≤◌, ◌<◌, ◌+◌};
ghost use Rattle.std.specs.List.{list_all};
ghost use Rattle.words.specs.Refusal.{refused_by};
ghost use Rattle.object.specs.Steps.Slots.{field_in};
ghost use Rattle.object.specs.Steps.RecordBounds.{BoundsOf, RelocationCounts};
ghost use Rattle.object.specs.Steps.FieldsRead.{FieldsRead};
ghost use Rattle.object.specs.TableBytes.{is_table, table_name};
ghost use Rattle.object.specs.Record.{held_by, view_of, entry_count, table_in, record_in, fields_refusal, field_is, needs_ok, relocations_ok, tables_ok, sizes_refusal, ReadBy};

use crate::dynamic_array::{
    DT_GNU_HASH, DT_HASH, DT_JMPREL, DT_PLTREL, DT_PLTRELSZ, DT_RELA, DT_RELAENT, DT_RELASZ,
    DT_RELR, DT_RELRSZ, DT_STRTAB, DT_SYMENT, DT_SYMTAB, DynamicArray, Needs, Slots, field_in,
};
use crate::hash_tables::{HashTable, View};
use crate::program_header::Loads;
use crate::table_bytes::Bounds;
use words::refusal::Refusal;

// The record of an object: its load segments, of which the host has none, and its needs' offsets; the span and the alignment; the string and
// symbol tables, the chosen hash table, the symbol count, and the relocation tables with their counts. Pointers are offsets in the span.
#[derive(Clone, Copy, Default)]
pub struct ObjectData {
    pub segments: Loads,
    pub needed: Needs,
    pub span: usize,
    pub align: usize,
    pub strings: usize,
    pub symbols: usize,
    pub table: HashTable,
    pub known: Option<usize>,
    pub rela: usize,
    pub relas: usize,
    pub plt: usize,
    pub plts: usize,
    pub relr: usize,
    pub relrs: usize,
}

// Whether the field of a tag is `n`, where it is given.
fn field_is(slots: &Slots, tag: u64, n: usize) -> bool
    ensures { result ≡ field_is n (field_in slots.now tag) }
{
    field_in(slots, tag).is_none_or(|value| value == n)
}

// The sizes and DT_PLTREL.
#[tactic(auto, unfolding(crate::specs::Record::sizes_refusal, crate::specs::Refusal::require))]
fn check_sizes(slots: &Slots) -> Result<(), Refusal>
    ensures { refused_by result ≡ sizes_refusal (field_in slots.now) }
{
    if !field_is(slots, DT_SYMENT, 24) {
        return Err(Refusal::TableSizes);
    }
    if !field_is(slots, DT_RELAENT, 24) {
        return Err(Refusal::TableSizes);
    }
    if !field_is(slots, DT_PLTREL, 7) {
        return Err(Refusal::TableSizes);
    }
    Ok(())
}

// The fields.
#[tactic(auto, unfolding(crate::specs::Record::fields_refusal, crate::specs::Refusal::require))]
fn check_fields(slots: &Slots, ended: bool) -> Result<(), Refusal>
    ensures { refused_by result ≡ fields_refusal ended (field_in slots.now) }
{
    if !ended {
        return Err(Refusal::NoDynamicArray);
    }
    if field_in(slots, DT_STRTAB).is_none() {
        return Err(Refusal::NoTables);
    }
    if field_in(slots, DT_SYMTAB).is_none() {
        return Err(Refusal::NoTables);
    }
    check_sizes(slots)
}

// How many entries a table has, of `unit` bytes each.
pub fn entry_count(pointer: Option<usize>, size: Option<usize>, unit: usize) -> usize
    requires { 1 ≤ unit }
    ensures { (result ≡ entry_count pointer size unit) × (result * unit < 2 ^ 64) }
{
    if pointer.is_none() {
        return 0;
    }
    size.unwrap_or(0) / unit
}

// The chosen hash table.
#[tactic(auto, unfolding(crate::specs::Record::table_in))]
fn table_in(image: &[u8], slots: &Slots) -> HashTable
    ensures { result ≡ table_in image.now (field_in slots.now) }
{
    if let Some(at) = field_in(slots, DT_GNU_HASH) {
        return crate::hash_tables::gnu_table(image, at);
    }
    match field_in(slots, DT_HASH) {
        Some(at) => crate::hash_tables::sysv_table(image, at),
        None => HashTable::Without,
    }
}

// The record of an image. A field that is not given is 0 in it, as its definition says.
fn object_in(image: &[u8], loads: &Loads, slots: &Slots, needed: Needs) -> ObjectData
    ensures held { held_by result ≡ record_in image.now loads.now.items (field_in slots.now) needed.items }
    ensures counts { RelocationCounts result }
{
    let align = crate::alignment::align_of(loads);
    let strings = field_in(slots, DT_STRTAB).unwrap_or(0);
    let symbols = field_in(slots, DT_SYMTAB).unwrap_or(0);
    let rela = field_in(slots, DT_RELA);
    let relasz = field_in(slots, DT_RELASZ);
    let jmprel = field_in(slots, DT_JMPREL);
    let pltrelsz = field_in(slots, DT_PLTRELSZ);
    let relr = field_in(slots, DT_RELR);
    let relrsz = field_in(slots, DT_RELRSZ);
    let table = table_in(image, slots);
    let view = View {
        symbols,
        strings,
        table,
    };
    let known = crate::hash_tables::symbol_count(image, view);
    let relas = entry_count(rela, relasz, 24);
    let plts = entry_count(jmprel, pltrelsz, 24);
    let relrs = entry_count(relr, relrsz, 8);
    ObjectData {
        segments: *loads,
        needed,
        span: image.len(),
        align,
        strings,
        symbols,
        table,
        known,
        rela: rela.unwrap_or(0),
        relas,
        plt: jmprel.unwrap_or(0),
        plts,
        relr: relr.unwrap_or(0),
        relrs,
    }
}

// Where the object's table bytes and its writable segments lie.
pub fn bounds_of(o: &ObjectData) -> Bounds<'_>
    ensures { BoundsOf o.now result }
{
    Bounds {
        span: o.span,
        segments: o.segments.as_slice(),
    }
}

// Whether the names at these offsets of the strings are in table bytes.
fn names_ok(image: &[u8], b: Bounds, strings: usize, offsets: &[usize]) -> bool
    ensures { result ≡ list_all (λ n. table_name (is_table b.entry.span b.entry.segments.now) image.now (strings + n)) offsets.now }
{
    offsets
        .iter()
        .all(|n| crate::table_bytes::name_ok(image, b, strings, *n))
}

// Whether the needs' names are in table bytes.
#[tactic(auto, unfolding(crate::specs::Record::needs_ok))]
fn needs_ok(image: &[u8], b: Bounds, o: &ObjectData) -> bool
    requires { BoundsOf o.now b }
    ensures { result ≡ needs_ok image.now (held_by o.now) }
{
    names_ok(image, b, o.strings, &o.needed)
}

// Whether the relocation tables are in table bytes. Its counts are a clause and no ghost field: anyone may write a record.
#[tactic(auto, unfolding(crate::specs::Record::relocations_ok))]
fn relocations_ok(b: Bounds, o: &ObjectData) -> bool
    requires { BoundsOf o.now b × RelocationCounts o.now }
    ensures { result ≡ relocations_ok (held_by o.now) }
{
    crate::table_bytes::table_bytes(b, o.rela, 24 * o.relas)
        && crate::table_bytes::table_bytes(b, o.plt, 24 * o.plts)
        && crate::table_bytes::table_bytes(b, o.relr, 8 * o.relrs)
}

// What a lookup reads of the record.
pub fn view_of(o: &ObjectData) -> View
    ensures { result ≡ view_of (held_by o.now) }
{
    View {
        symbols: o.symbols,
        strings: o.strings,
        table: o.table,
    }
}

// Refusal 12: whether all tables are in table bytes.
#[tactic(auto, unfolding(crate::specs::Record::tables_ok))]
fn tables_ok(image: &[u8], o: &ObjectData, host: bool) -> bool
    requires { RelocationCounts o.now }
    ensures { result ≡ tables_ok host image.now (held_by o.now) }
{
    let b = bounds_of(o);
    needs_ok(image, b, o)
        && (host || relocations_ok(b, o))
        && crate::check::hash_table_ok(image, b, view_of(o))
}

// Refusals 9 to 11, and the record where there is none: all that is read of an image, but its tables are not checked. For records that are
// read again.
pub fn read_fields(image: &[u8], loads: &Loads, d: Option<usize>) -> Result<ObjectData, Refusal>
    ensures { FieldsRead image.now loads.now.items d result }
{
    let at = d.ok_or(Refusal::NoDynamicArray)?;
    let DynamicArray {
        slots,
        needs,
        ended,
    } = crate::dynamic_array::read_array(image, at);
    check_fields(&slots, ended)?;
    let Ok(needed) = needs else {
        return Err(Refusal::TableSizes);
    };
    Ok(object_in(image, loads, &slots, needed))
}

// Reads the record of an image, the placed bytes of an object's span, whose dynamic array stands at `d`.
pub fn read_object(
    image: &[u8],
    loads: &Loads,
    d: Option<usize>,
    host: bool,
) -> Result<ObjectData, Refusal>
    ensures { ReadBy host image.now loads.now.items d result }
{
    let object = read_fields(image, loads, d)?;
    if !tables_ok(image, &object, host) {
        return Err(Refusal::TableBytes);
    }
    Ok(object)
}
