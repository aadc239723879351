// Relocation: port of strategies/relocate.rs. The objects one after another: RELR, RELA, PLT; refusals 14 to 18, 22 and 25, entry
// by entry.
ghost use Rattle.std.specs.Prelude.{◌≡◌, ◌+◌, ◌-◌, ◌*◌, ◌^◌, ◌<◌, ◌≤◌, true, length, take, None, Ok, IfOk, IfSome};
ghost use Rattle.words.specs.Names.{name_at};
ghost use Rattle.words.specs.Refusal.{refused_by};
ghost use Rattle.object.specs.Entries.{rela_at};
ghost use Rattle.object.specs.Steps.Actions.{relative_word, field_by, searched_by};
ghost use Rattle.object.specs.Record.{held_by, checked_symbol};
ghost use Rattle.object.specs.Steps.WritableRange.{WritableRange};
ghost use Rattle.binder.specs.Steps.Relocating.{left, wrote, image_in, field_of, fixed_of, kept_for, sought_for, sought_for_copy, sought_of, write_sought, copying_of, run_action, run_table, run_tables, run_object, run_at, run_order, run_until, turn_of, again_refusal, again_record, row_at};
ghost use Rattle.binder.specs.Steps.RunSteps.{InReach, RelativesWritten, EntriesPassed, SymbolsOf, EntryRead, address_found, SymbolsPassed, ManyPassed};

use crate::Refused;
use crate::report::{Kept, Progress};
use crate::turn::Turn;
use object::dynamic_fields::ObjectData;
use object::relocate::{Action, Field, Rela};
use object::symbol::Symbol;
use object::table_bytes::{Bounds, Writable};
use scope::links::Links;
use scope::scope::Hit;
use sheet::sheet::Set;
use words::refusal::Refusal;
use words::word::Word;

// Where the entries of an object are applied: the links of its set, its turn and its record. Arena and report stay apart: they are lent anew
// at each step, and no struct can hold them beside the image that is read from the arena.
#[derive(Clone, Copy)]
pub struct Site<'a> {
    pub links: &'a Links<'a>,
    pub turn: Turn,
    pub object: &'a ObjectData,
}

// ---- RELA and PLT

// Relative: base + addend.
#[tactic(auto, unfolding(crate::specs::Steps::Relocating::fixed_of, crate::specs::Steps::Relocating::field_of))]
fn relative(arena: &mut [u8], t: Turn, b: Bounds, e: Rela) -> Result<(), Refused>
    ensures { wrote result arena.new ≡ fixed_of t (b.entry.segments.now) e relative_word arena.old }
{
    if !object::table_bytes::in_writable(b, e.place, 8) {
        return Err(t.refused(Refusal::NotWritable));
    }
    crate::turn::write::<u64>(arena, t.offset, e.place, t.base.wrapping_add(e.addend));
    Ok(())
}

// The symbol of an entry, or refusal 14 or 15.
pub(crate) fn symbol_of(
    arena: &[u8],
    t: Turn,
    o: &ObjectData,
    index: u32,
) -> Result<Symbol, Refusal>
    ensures { result ≡ checked_symbol (image_in arena.now t) (held_by o.now) index }
{
    object::entry_symbol::checked_symbol(crate::turn::image_of(arena, t), o, index)
}

// The name of an entry's symbol.
fn wanted_in<'a>(arena: &'a [u8], t: Turn, strings: usize, name: u32) -> &'a [u8]
    ensures { result.now ≡ name_at (image_in arena.now t) (strings + name) }
{
    words::names::name_off(crate::turn::image_of(arena, t), strings, name as usize)
}

// The search for the name of an entry's symbol.
fn search(arena: &[u8], x: &Site, strings: usize, name: u32) -> Option<Hit>
    ensures { result ≡ sought_for x.now.links.now x.now.turn arena.now (name_at (image_in arena.now x.now.turn) (strings + name)) }
{
    let t = x.turn;
    let wanted = wanted_in(arena, t, strings, name);
    let gnu = words::hash::gnu_hash(wanted);
    x.links.resolve(arena, t.number as usize, wanted, gnu)
}

// COPY's search.
pub(crate) fn search_copy(
    arena: &[u8],
    links: &Links,
    t: Turn,
    strings: usize,
    name: u32,
) -> Option<Hit>
    ensures { result ≡ sought_for_copy links.now arena.now (name_at (image_in arena.now t) (strings + name)) }
{
    let wanted = wanted_in(arena, t, strings, name);
    let gnu = words::hash::gnu_hash(wanted);
    links.resolve_copy(arena, wanted, gnu)
}

// The field of an entry whose symbol has the address `s`, or refusal 22.
#[tactic(auto, unfolding(crate::specs::Steps::Relocating::field_of))]
fn write_field(arena: &mut [u8], t: Turn, e: Rela, f: Field, s: u64) -> Result<(), Refused>
    ensures { wrote result arena.new ≡ field_of t e (field_by f) s arena.old }
{
    let v = f.value(s, e.addend, t.base, e.place as u64);
    if !f.fits(v) {
        return Err(t.refused(Refusal::FieldRange));
    }
    if f.width() == 8 {
        crate::turn::write::<u64>(arena, t.offset, e.place, v);
    } else {
        crate::turn::write::<u32>(arena, t.offset, e.place, v);
    }
    Ok(())
}

// What the symbol of an entry came to: an address that needs no search, or one that a search found; or none.
#[derive(Clone, Copy)]
pub enum Sought {
    Known(u64),
    Searched(u64),
    Missing(Symbol),
}

// The kept address, where it is that of the symbol with this index.
fn kept_for(kept: Option<Kept>, index: u32) -> Option<u64>
    ensures { result ≡ kept_for kept index }
{
    kept.filter(|k| k.symbol == index).map(|k| k.address)
}

// What the symbol of an entry with the field `f` comes to, or refusal 14, 15 or 17.
#[tactic(auto, unfolding(crate::specs::Steps::Relocating::sought_of))]
fn seek(arena: &[u8], x: &Site, kept: Option<Kept>, e: Rela, f: Field) -> Result<Sought, Refused>
    ensures { result ≡ sought_of x.now.links.now x.now.turn (held_by x.now.object.now) e (searched_by f) (field_by f) kept arena.now (checked_symbol (image_in arena.now x.now.turn) (held_by x.now.object.now) e.symbol) }
{
    let t = x.turn;
    let o = x.object;
    let y = symbol_of(arena, t, o, e.symbol).map_err(|refusal| t.refused(refusal))?;
    let b = object::dynamic_fields::bounds_of(o);
    if !object::table_bytes::in_writable(b, e.place, f.width()) {
        return Err(t.refused(Refusal::NotWritable));
    }
    if !f.searches(e.symbol) {
        return Ok(Sought::Known(0));
    }
    if let Some(address) = kept_for(kept, e.symbol) {
        return Ok(Sought::Known(address));
    }
    match search(arena, x, o.strings, y.name) {
        Some(found) => Ok(Sought::Searched(found.address)),
        None => Ok(Sought::Missing(y)),
    }
}

// The field of the entry with number `i` by what its symbol came to: what was found is kept; what was found nowhere is 0, and a word of the
// report. Absence is kept where the symbol is weak: as the address 0, since no report word tells the two apart.
#[tactic(auto, unfolding(crate::specs::Steps::Relocating::write_sought))]
fn write_sought(
    arena: &mut [u8],
    report: &mut [u32],
    p: &mut Progress,
    t: Turn,
    i: u32,
    e: Rela,
    f: Field,
    s: Sought,
) -> Result<(), Refused>
    ensures { left result p.new arena.new report.new ≡ write_sought t e (field_by f) i (Ok s) p.old arena.old report.old }
{
    match s {
        Sought::Known(v) => write_field(arena, t, e, f, v),
        Sought::Searched(v) => {
            p.kept = Some(Kept {
                symbol: e.symbol,
                address: v,
            });
            write_field(arena, t, e, f, v)
        }
        Sought::Missing(y) => {
            p.unresolved(report, y, t.number, i);
            if object::symbol::binding(y) == 2 {
                p.kept = Some(Kept {
                    symbol: e.symbol,
                    address: 0,
                });
            }
            write_field(arena, t, e, f, 0)
        }
    }
}

#[tactic(auto, unfolding(crate::specs::Steps::Relocating::copying_of, crate::specs::Steps::Relocating::copy_of))]
fn copying(
    arena: &mut [u8],
    report: &mut [u32],
    p: &mut Progress,
    x: &Site,
    i: u32,
    e: Rela,
) -> Result<(), Refused>
    ensures { left result p.new arena.new report.new ≡ copying_of x.now.links.now x.now.turn (held_by x.now.object.now) e i (checked_symbol (image_in arena.old x.now.turn) (held_by x.now.object.now) e.symbol) p.old arena.old report.old }
{
    let t = x.turn;
    let o = x.object;
    let y = symbol_of(arena, t, o, e.symbol).map_err(|refusal| t.refused(refusal))?;
    let Some(found) = search_copy(arena, x.links, t, o.strings, y.name) else {
        p.unresolved(report, y, t.number, i);
        return Ok(());
    };
    let b = object::dynamic_fields::bounds_of(o);
    let n = (y.size as usize).min(found.definition.size as usize);
    let link = x.links.link(found.object);
    crate::copy::copy_found(arena, t, b, e.place, link, found.definition, n)
}

// What the type of an entry asks for.
#[tactic(auto, unfolding(crate::specs::Steps::Relocating::run_action))]
fn run_action(
    arena: &mut [u8],
    report: &mut [u32],
    p: &mut Progress,
    x: &Site,
    i: u32,
    e: Rela,
) -> Result<(), Refused>
    ensures { left result p.new arena.new report.new ≡ run_action x.now.links.now x.now.turn (held_by x.now.object.now) i e (row_at x.now.links.now e.rtype) p.old arena.old report.old }
{
    let t = x.turn;
    match crate::types::action_at(x.links, e.rtype) {
        Action::Ignored => Ok(()),
        Action::Passed => {
            p.note(report, std::num::wrapping_add_u32(0x7000_0000, i));
            Ok(())
        }
        Action::Irelative => Err(t.refused(Refusal::Irelative)),
        Action::Refused => Err(t.refused(Refusal::RefusedType)),
        Action::Relative => relative(arena, t, object::dynamic_fields::bounds_of(x.object), e),
        Action::Symbolic(f) => {
            let s = seek(arena, x, p.kept, e, f)?;
            write_sought(arena, report, p, t, i, e, f, s)
        }
        Action::Copy => copying(arena, report, p, x, i, e),
    }
}

pub(crate) fn rela_in(arena: &[u8], t: Turn, table: usize, i: u32) -> Rela
    ensures { result ≡ rela_at (image_in arena.now t) table i }
{
    object::relocate::rela_at(crate::turn::image_of(arena, t), table, i)
}

// Whether the `n` entries of the table at `at` lie in the object's span and the span in an arena of `len` bytes, and `high` ends a word of
// the span.
fn in_reach(len: usize, t: Turn, at: usize, n: u32, high: usize) -> bool
    ensures { result ≡ true → InReach len t at n high }
{
    8 <= high
        && high <= t.span
        && t.offset <= len
        && t.span <= len - t.offset
        && at <= t.span
        && n as usize <= (t.span - at) / 24
}

// The type of entry `i` of the table at `at`, if that is in the arena.
fn type_at(arena: &[u8], t: Turn, at: usize, i: u32) -> u32 {
    let table = words::bytes::place(arena.len(), t.offset, at);
    words::bytes::word_off::<u32>(arena, table, 24 * (i as usize) + 8)
}

fn is_symbolic(table: &[u64], rtype: u32) -> bool {
    matches!(crate::types::action_in(table, rtype), Action::Symbolic(_))
}

// As many entries of type 8 as follow one another from entry `start` on, below `n`, with places in `w`: base + addend. The first entry that
// is not of this kind. The table and the places lie in the part. Never inlined: the loop has the registers to itself.
#[inline(never)]
fn relatives(part: &mut [u8], base: u64, at: usize, start: u32, n: u32, w: Writable) -> u32
    requires { (start ≤ n) × (at + 24 * n ≤ length part.old) × (8 ≤ w.high) × (w.high ≤ length part.old) }
    ensures { (start ≤ result) × (result ≤ n) × RelativesWritten base at w.low w.high start (result - start) part.old part.new }
{
    let last = w.high - 8;
    for i in start..n {
        let k = at + 24 * (i as usize);
        if u32::load(part, k + 8) != 8 {
            return i;
        }
        let place = u64::load(part, k) as usize;
        if place < w.low || last < place {
            return i;
        }
        let v = base.wrapping_add(u64::load(part, k + 16));
        words::bytes::store_in::<u64>(part, place, v);
    }
    n
}

// The same, of the object at its place in the arena, where `w` is writable: its part is lent. Nothing is done where the table is not inside
// the span, or type 8 is not applied.
fn run_relatives(
    arena: &mut [u8],
    links: &Links,
    t: Turn,
    at: usize,
    start: u32,
    n: u32,
    w: Writable,
) -> u32
    requires { start ≤ n }
    ensures { (start ≤ result) × (result ≤ n) × EntriesPassed links.now t at n w.low w.high start arena.old result arena.new }
{
    if type_at(arena, t, at, start) != 8 {
        return start;
    }
    if !in_reach(arena.len(), t, at, n, w.high) || !crate::types::applies_relative(links) {
        return start;
    }
    let off = t.offset;
    relatives(&mut arena[off..], t.base, at, start, n, w)
}

// The symbols of an object: where they and their names are, and which of them need no further test of refusals 14 and 15.
#[derive(Clone, Copy)]
pub struct Symbols {
    pub symbols: usize,
    pub strings: usize,
    pub fits: usize,
    pub ends: usize,
}

// How far a run of entries came: the next entry, and the answer that is kept.
#[derive(Clone, Copy)]
pub struct Reached {
    pub next: u32,
    pub kept: Option<Kept>,
}

fn symbols_of(arena: &[u8], t: Turn, o: &ObjectData) -> Symbols
    ensures { SymbolsOf t (held_by o.now) result arena.now }
{
    let f = object::entry_symbol::fine_in(crate::turn::image_of(arena, t), o);
    Symbols {
        symbols: o.symbols,
        strings: o.strings,
        fits: f.fits,
        ends: f.ends,
    }
}

// Whether the symbols that need no test lie in the span.
fn symbols_in(t: Turn, y: Symbols) -> bool
    ensures { result ≡ true → y.symbols + 24 * y.fits ≤ t.span }
{
    y.symbols <= t.span && y.fits <= (t.span - y.symbols) / 24
}

// An entry that is Symbolic with a field of eight bytes, whose place is writable and whose symbol is searched and needs no further test: its
// field, its place, its symbol, the symbol's name and the addend.
#[derive(Clone, Copy)]
pub struct SymbolEntry {
    pub field: Field,
    pub place: usize,
    pub index: u32,
    pub name: u32,
    pub addend: u64,
}

// The entry that stands at `k` of the arena, if it is such a one. The links come as words: a loop reads where those are once.
fn symbol_entry(
    arena: &[u8],
    table: &[u64],
    t: Turn,
    y: Symbols,
    k: usize,
    w: Writable,
) -> Option<SymbolEntry>
    requires { (k + 24 ≤ length arena.now) × (t.offset + y.symbols + 24 * y.fits ≤ length arena.now) × (8 ≤ w.high) }
    ensures { EntryRead table.now arena.now t y k w.low w.high result }
{
    let Action::Symbolic(field) = crate::types::action_in(table, u32::load(arena, k + 8)) else {
        return None;
    };
    if field.width() != 8 {
        return None;
    }
    let place = u64::load(arena, k) as usize;
    if place < w.low || w.high - 8 < place {
        return None;
    }
    let index = u32::load(arena, k + 12);
    if y.fits <= index as usize || !field.searches(index) {
        return None;
    }
    let name = u32::load(arena, t.offset + y.symbols + 24 * (index as usize));
    if y.ends <= name as usize {
        return None;
    }
    Some(SymbolEntry {
        field,
        place,
        index,
        name,
        addend: u64::load(arena, k + 16),
    })
}

// The address that a search finds. Never inlined: the loop that rests on kept addresses makes no room for what a search finds.
#[inline(never)]
fn searched(arena: &[u8], x: &Site, strings: usize, name: u32) -> Option<u64>
    ensures { result ≡ address_found None (sought_for x.now.links.now x.now.turn arena.now (name_at (image_in arena.now x.now.turn) (strings + name))) }
{
    let found = search(arena, x, strings, name)?;
    Some(found.address)
}

// The kept address, where it is that of the symbol with this index, or what a search finds.
fn address_of(
    arena: &[u8],
    x: &Site,
    strings: usize,
    name: u32,
    index: u32,
    kept: Option<Kept>,
) -> Option<u64>
    ensures { result ≡ address_found (kept_for kept index) (sought_for x.now.links.now x.now.turn arena.now (name_at (image_in arena.now x.now.turn) (strings + name))) }
{
    // no `or_else`: its closure borrows, and would need a clause of its own
    let known = kept_for(kept, index);
    if known.is_some() {
        return known;
    }
    searched(arena, x, strings, name)
}

// Of the entries from that of `s` on, as many as follow one another that are as `symbolics` takes them and have the kept symbol. Never inlined:
// nothing is searched for, and the loop has the registers to itself.
#[inline(never)]
fn kept_entries(
    arena: &mut [u8],
    table: &[u64],
    t: Turn,
    y: Symbols,
    at: usize,
    s: Reached,
    n: u32,
    w: Writable,
) -> Reached
    requires { (s.next ≤ n) × InReach (length arena.old) t at n w.high × (y.symbols + 24 * y.fits ≤ t.span) }
    ensures { (s.next ≤ result.next) × (result.next ≤ n) × SymbolsPassed table.now t y at n w.low w.high s arena.old result arena.new }
{
    let Some(kept) = s.kept else {
        return s;
    };
    for i in s.next..n {
        let k = t.offset + at + 24 * (i as usize);
        if u32::load(arena, k + 12) != kept.symbol {
            return Reached {
                next: i,
                kept: s.kept,
            };
        }
        let Some(e) = symbol_entry(arena, table, t, y, k, w) else {
            return Reached {
                next: i,
                kept: s.kept,
            };
        };
        let v = e
            .field
            .value(kept.address, e.addend, t.base, e.place as u64);
        words::bytes::store_in::<u64>(arena, t.offset + e.place, v);
    }
    Reached {
        next: n,
        kept: s.kept,
    }
}

// Whether it is likely that the four entries after that at `k` have this symbol: linkers put the entries of a symbol beside one another. For
// fewer, `kept_entries` costs more than it saves. The last is looked at first: a shorter run fails there.
fn begins_run(arena: &[u8], table: &[u64], k: usize, index: u32) -> bool
    requires { k + 24 * 5 ≤ length arena.now }
{
    u32::load(arena, k + 24 * 4 + 12) == index
        && u32::load(arena, k + 24 * 3 + 12) == index
        && u32::load(arena, k + 24 + 12) == index
        && is_symbolic(table, u32::load(arena, k + 24 + 8))
}

// As `run_relatives`, for entries that are Symbolic with fields of eight bytes whose symbols need no further test and are found. The first entry
// that is not of this kind, and the answer that is kept then.
fn symbolics(
    arena: &mut [u8],
    x: &Site,
    y: Symbols,
    at: usize,
    s: Reached,
    n: u32,
    w: Writable,
) -> Reached
    requires { s.next ≤ n }
    ensures { (s.next ≤ result.next) × (result.next ≤ n) × SymbolsPassed x.now.links.now x.now.turn y at n w.low w.high s arena.old result arena.new }
{
    let t = x.turn;
    if !in_reach(arena.len(), t, at, n, w.high) || !symbols_in(t, y) {
        return s;
    }
    let table = x.links.words();
    let mut next = s.next;
    let mut kept = s.kept;
    // no `for`: several entries may pass in a turn
    while next < n {
        let k = t.offset + at + 24 * (next as usize);
        let Some(e) = symbol_entry(arena, table, t, y, k, w) else {
            return Reached { next, kept };
        };
        let Some(found) = address_of(arena, x, y.strings, e.name, e.index, kept) else {
            return Reached { next, kept };
        };
        let v = e.field.value(found, e.addend, t.base, e.place as u64);
        words::bytes::store_in::<u64>(arena, t.offset + e.place, v);
        next += 1;
        kept = Some(Kept {
            symbol: e.index,
            address: found,
        });
        if 3 < n - next && begins_run(arena, table, k, e.index) {
            let r = kept_entries(arena, table, t, y, at, Reached { next, kept }, n, w);
            next = r.next;
            kept = r.kept;
        }
    }
    Reached { next, kept }
}

// Entries of both kinds that follow one another from that of `s` on, where `w` is writable.
fn run_many(
    arena: &mut [u8],
    x: &Site,
    y: Symbols,
    at: usize,
    s: Reached,
    n: u32,
    w: Option<Writable>,
) -> Reached
    requires { s.next ≤ n }
    ensures { (s.next ≤ result.next) × (result.next ≤ n) × ManyPassed x.now.links.now x.now.turn y at n w s arena.old result arena.new }
{
    let Some(w) = w else {
        return s;
    };
    let next = run_relatives(arena, x.links, x.turn, at, s.next, n, w);
    let s = Reached { next, kept: s.kept };
    // an entry of another kind costs no call
    if !is_symbolic(x.links.words(), type_at(arena, x.turn, at, next)) {
        return s;
    }
    symbolics(arena, x, y, at, s, n, w)
}

// Whether the loops above may do entries of a type.
fn in_runs(links: &Links, rtype: u32) -> bool {
    matches!(
        crate::types::action_at(links, rtype),
        Action::Relative | Action::Symbolic(_)
    )
}

// The range to be used after an entry: after one that the loops above do, the segment of its place.
fn range_after(
    links: &Links,
    w: Option<Writable>,
    b: Bounds,
    rtype: u32,
    place: usize,
) -> Option<Writable>
    requires { IfSome w (λ w. WritableRange (b.segments.now) w.low w.high) }
    ensures { IfSome result (λ w. WritableRange (b.entry.segments.now) w.low w.high) }
{
    if !in_runs(links, rtype) {
        return w;
    }
    object::table_bytes::writable_at(b, place, 8)
}

// The table of `count` entries at `at`, of which the first has the number `first`.
#[derive(Clone, Copy)]
pub struct Entries {
    pub at: usize,
    pub first: u32,
    pub count: u32,
}

// The entries of a table.
fn run_table(
    arena: &mut [u8],
    report: &mut [u32],
    p: &mut Progress,
    x: &Site,
    es: Entries,
) -> Result<(), Refused>
    ensures { left result p.new arena.new report.new ≡ run_table x.now.links.now x.now.turn (held_by x.now.object.now) es.at es.first es.count 0 p.old arena.old report.old }
{
    let t = x.turn;
    let b = object::dynamic_fields::bounds_of(x.object);
    let y = symbols_of(arena, t, x.object);
    let at = es.at;
    let n = es.count;
    let mut w = None;
    let mut i = 0u32;
    // No `for`: several entries may pass in a turn.
    while i < n {
        let s = Reached {
            next: i,
            kept: p.kept,
        };
        let r = run_many(arena, x, y, at, s, n, w);
        p.kept = r.kept;
        let j = r.next;
        if n <= j {
            break;
        }
        let e = rela_in(arena, t, at, j);
        let number = std::num::wrapping_add_u32(es.first, j);
        run_action(arena, report, p, x, number, e)?;
        w = range_after(x.links, w, b, e.rtype, e.place);
        i = j + 1;
    }
    Ok(())
}

// ---- an object

// RELA, then PLT.
#[tactic(auto, unfolding(crate::specs::Steps::Relocating::run_tables))]
fn run_tables(
    arena: &mut [u8],
    report: &mut [u32],
    p: &mut Progress,
    x: &Site,
) -> Result<(), Refused>
    ensures { left result p.new arena.new report.new ≡ run_tables x.now.links.now x.now.turn (held_by x.now.object.now) p.old arena.old report.old }
{
    let o = x.object;
    let relas = crate::relr::cut_to_32(o.relas);
    let rela = Entries {
        at: o.rela,
        first: 0,
        count: relas,
    };
    run_table(arena, report, p, x, rela)?;
    let plt = Entries {
        at: o.plt,
        first: relas,
        count: crate::relr::cut_to_32(o.plts),
    };
    run_table(arena, report, p, x, plt)
}

// The word of the report, RELR, RELA, PLT.
#[tactic(auto, unfolding(crate::specs::Steps::Relocating::run_object))]
fn run_object(
    arena: &mut [u8],
    report: &mut [u32],
    p: &mut Progress,
    x: &Site,
) -> Result<(), Refused>
    ensures { left result p.new arena.new report.new ≡ run_object x.now.links.now x.now.turn (held_by x.now.object.now) p.old arena.old report.old }
{
    let t = x.turn;
    p.forget();
    p.note(report, std::num::wrapping_add_u32(0x5000_0000, t.number));
    crate::relr::run_relrs(arena, t, x.object).map_err(|refusal| t.refused(refusal))?;
    run_tables(arena, report, p, x)
}

// The record of an object that was loaded, read and checked again: its placed bytes and its file are given.
pub(crate) fn read_again(image: &[u8], file: &[u8]) -> Result<ObjectData, Refusal>
    ensures refusal { refused_by result ≡ again_refusal image.now file.now }
    ensures object { IfOk result (λ o. held_by o ≡ again_record image.now file.now) }
{
    let loads = object::program_header::read_loads(file)
        .ok()
        .ok_or(Refusal::Segments)?;
    let d = object::program_header::dynamic_at(file);
    object::dynamic_fields::read_object(image, &loads, d, false)
}

// Object `k`, whose file is given. Its record is read again: no relocation before its turn wrote to its part of the arena.
#[tactic(auto, unfolding(crate::specs::Steps::Relocating::run_at))]
fn run_at(
    arena: &mut [u8],
    report: &mut [u32],
    p: &mut Progress,
    links: &Links,
    k: u32,
    file: &[u8],
) -> Result<(), Refused>
    ensures { left result p.new arena.new report.new ≡ run_at links.now k file.now p.old arena.old report.old }
{
    let turn = crate::turn::turn_of(links, k);
    let image = crate::turn::image_of(arena, turn);
    let object = read_again(image, file).map_err(|refusal| turn.refused(refusal))?;
    let x = Site {
        links,
        turn,
        object: &object,
    };
    run_object(arena, report, p, &x)
}

// Object `k`, whose file is given, as far as its first `entries` entries of RELA and PLT; its word of the report is left out.
pub(crate) fn run_until(
    arena: &mut [u8],
    report: &mut [u32],
    p: &mut Progress,
    links: &Links,
    k: u32,
    file: &[u8],
    entries: usize,
) -> Result<(), Refused>
    ensures { again_refusal (image_in arena.old (turn_of links.now k)) file.now ≡ 0 → left result p.new arena.new report.new ≡ run_until links.now k file.now entries p.old arena.old report.old }
{
    let turn = crate::turn::turn_of(links, k);
    let o = crate::crossing::record_again(arena, turn, file);
    crate::relr::run_relrs(arena, turn, &o).map_err(|refusal| turn.refused(refusal))?;
    let relas = crate::relr::cut_to_32(o.relas);
    let front = (relas as usize).min(entries);
    let rela = Entries {
        at: o.rela,
        first: 0,
        count: front as u32,
    };
    let back = (crate::relr::cut_to_32(o.plts) as usize).min(entries - front);
    let plt = Entries {
        at: o.plt,
        first: relas,
        count: back as u32,
    };
    let x = Site {
        links,
        turn,
        object: &o,
    };
    p.forget();
    run_table(arena, report, p, &x, rela)?;
    run_table(arena, report, p, &x, plt)
}

// ---- the objects

// The objects of an order, one after another.
pub(crate) fn run_order(
    set: &Set,
    arena: &mut [u8],
    report: &mut [u32],
    p: &mut Progress,
    links: &Links,
    order: &[u32],
) -> Result<(), Refused>
    ensures { left result p.new arena.new report.new ≡ run_order links.now set.now order.now p.old arena.old report.old }
{
    for k in order {
        run_at(arena, report, p, links, *k, set.file(*k as usize))?;
    }
    Ok(())
}
