// COPY entries whose places cross, refusal 28: the first entry of an order whose copy crosses an earlier one. Copies do not depend on what
// relocation writes, so they are looked at before it, over the placed bytes.
ghost use Rattle.std.specs.Prelude.{◌≡◌, ◌+◌, ◌-◌, ◌*◌, ◌^◌, ◌<◌, ◌≤◌, min, max, true, false, ℕ, List, length, take, ◌==◌, nat_le, nat_lt, slice_index_or, IfSome, [], ◌∷◌, ◌++◌};
ghost use Rattle.std.specs.List.{list_any, range_with_len};
ghost use Rattle.words.specs.Choice.{pick, both, some};
ghost use Rattle.object.specs.Entries.{rela_at, relas_from};
ghost use Rattle.object.specs.Steps.Actions.{row_by};
ghost use Rattle.object.specs.Record.{held_by};
ghost use Rattle.binder.specs.Copies.{meets, crosses};
ghost use Rattle.binder.specs.Steps.Relocating.{image_in, again_refusal, again_record, turn_of, row_at};
ghost use Rattle.binder.specs.Steps.Crossing.{copies_row, copy_linked, seen_of, entries_by, entries_of, tables_of, no_rela, round, WalksOn, Readable, Passed, FirstCrossing, Bounded, claim_of, window, MarksTaken, ClaimedIn, ClaimsApart, NoCopies, PlainlyApart, CrossingIn};

use crate::turn::Turn;
use arrayvec::ArrayVec;
use object::dynamic_fields::ObjectData;
use object::hash_tables::Definition;
use object::relocate::{Action, Rela};
use scope::links::{Link, Links};
use sheet::sheet::Set;
use words::word::Word;

// `size` bytes from the arena offset `source` to the arena offset `to`.
#[derive(Clone, Copy, Default)]
pub struct Copy {
    pub to: usize,
    pub source: usize,
    pub size: usize,
}

// The bytes of an object that the copy of an entry may write.
#[derive(Clone, Copy)]
pub struct Claim {
    pub place: usize,
    pub size: usize,
}

// Where an object's symbols and its entries stand, and how many there are.
#[derive(Clone, Copy)]
pub struct Tables {
    pub symbols: usize,
    pub rela: usize,
    pub relas: u32,
    pub plt: usize,
    pub plts: u32,
}

impl Tables {
    fn of(o: &ObjectData) -> Tables
        ensures { result ≡ tables_of (held_by o.now) }
    {
        Tables {
            symbols: o.symbols,
            rela: o.rela,
            relas: crate::relr::cut_to_32(o.relas),
            plt: o.plt,
            plts: crate::relr::cut_to_32(o.plts),
        }
    }

    // How many entries RELA and PLT have.
    fn count(self) -> usize
        ensures { result ≡ self.relas + self.plts }
    {
        self.relas as usize + self.plts as usize
    }

    // Where the table of entry `i` of both stands, and the entry's number there. The bound is a clause: `i` is a plain number that a loop counts.
    #[tactic(auto, using(crate::proofs::ClaimLaws::entry_first, crate::proofs::ClaimLaws::entry_second))]
    fn place(self, i: usize) -> (usize, u32)
        requires { i < self.relas + self.plts }
        ensures { (image : List ℕ) → rela_at image result.0 result.1 ≡ slice_index_or (entries_by image self) i no_rela }
    {
        let relas = self.relas as usize;
        if i < relas {
            (self.rela, i as u32)
        } else {
            (self.plt, (i - relas) as u32)
        }
    }
}

// ---- ranges

// Whether `a` is below `b` + `n`.
fn below_sum(a: usize, b: usize, n: usize) -> bool
    ensures { result ≡ nat_lt a (b + n) }
{
    a < b || a - b < n
}

// Whether `n` bytes at `at` and `m` bytes at `other` have a byte in common.
#[tactic(auto, unfolding(crate::specs::Copies::meets))]
fn ranges_meet(at: usize, n: usize, other: usize, m: usize) -> bool
    ensures { result ≡ meets at n other m }
{
    below_sum(at, other, m) && below_sum(other, at, n)
}

#[tactic(auto, unfolding(crate::specs::Copies::crosses))]
fn copies_cross(c: Copy, d: Copy) -> bool
    ensures { result ≡ crosses c d }
{
    ranges_meet(c.to, c.size, d.to, d.size)
        || ranges_meet(c.source, c.size, d.to, d.size)
        || ranges_meet(c.to, c.size, d.source, d.size)
}

// ---- a walk over copies

// How many copies it has seen, and those of them that later ones are compared with: up to 1,024 from number `first` on.
#[derive(Drop)]
pub struct Walk {
    pub first: usize,
    pub seen: usize,
    pub kept: ArrayVec<Copy, 1024>,
}

impl Walk {
    // Before the first copy.
    fn begin(&mut self, first: usize)
        ensures { (self.new.first ≡ first) × (self.new.seen ≡ 0) × (self.new.kept.items ≡ []) }
    {
        self.first = first;
        self.seen = 0;
        self.kept.clear();
    }

    // Whether the copy crosses one that is kept.
    fn crosses(&self, c: Copy) -> bool
        ensures { result ≡ list_any (crosses c) self.now.kept.items }
    {
        self.kept.iter().any(|d| copies_cross(c, *d))
    }

    // Past the copy, which is kept where it is one of those.
    fn pass(&mut self, c: Copy)
        requires { self.old.seen < 2 ^ 63 }
        ensures same { self.new.first ≡ self.old.first }
        ensures count { self.new.seen ≡ self.old.seen + 1 }
        ensures kept { self.new.kept.items ≡ pick (both (nat_le self.old.first self.old.seen) (nat_lt (length self.old.kept.items) round)) (self.old.kept.items ++ c ∷ []) self.old.kept.items }
    {
        if self.first <= self.seen && !self.kept.is_full() {
            self.kept.push(c);
        }
        self.seen += 1;
    }
}

// ---- an object

// The record of an object that was loaded, read again from its placed bytes. No Option: what was loaded is not refused, and nothing is said of
// a record that is.
pub(crate) fn record_again(arena: &[u8], t: Turn, file: &[u8]) -> ObjectData
    ensures { again_refusal (image_in arena.now t) file.now ≡ 0 → held_by result ≡ again_record (image_in arena.now t) file.now }
{
    let Ok(loads) = object::program_header::read_loads(file) else {
        return ObjectData::default();
    };
    let image = crate::turn::image_of(arena, t);
    let d = object::program_header::dynamic_at(file);
    object::dynamic_fields::read_fields(image, &loads, d).unwrap_or_default()
}

// Entry `i` of RELA and PLT.
fn entry_at(arena: &[u8], t: Turn, r: Tables, i: usize) -> Rela
    requires { i < r.relas + r.plts }
    ensures { result ≡ slice_index_or (entries_by (image_in arena.now t) r) i no_rela }
{
    let (at, k) = r.place(i);
    crate::relocate::rela_in(arena, t, at, k)
}

// Whether entries of a type copy.
fn is_copy(links: &Links, rtype: u32) -> bool
    ensures { result ≡ copies_row (row_at links.now rtype) }
{
    matches!(crate::types::action_at(links, rtype), Action::Copy)
}

// The same, where both ranges end inside `size` bytes.
fn copy_inside(size: usize, t: Turn, to: usize, s: Link, d: Definition, n: usize) -> Copy
    requires { (t.offset + to + n ≤ size) × (s.offset + d.value + n ≤ size) }
    ensures { result ≡ record { to = t.offset + to; source = s.offset + d.value; size = n } }
{
    let value = d.value as usize;
    Copy {
        to: t.offset + to,
        source: s.offset + value,
        size: n,
    }
}

// The copy of `n` bytes of the definition `d`, in the object at the link `s`, to the place `to`; none, where refusal 18 meets it.
#[tactic(auto, using(crate::proofs::CrossCode::fits_sums), unfolding(crate::specs::Steps::Crossing::copy_linked))]
fn copy_range(size: usize, t: Turn, to: usize, s: Link, d: Definition, n: usize) -> Option<Copy>
    ensures { result ≡ copy_linked size t to s d n }
{
    if n == 0 || !crate::copy::copy_fits(size, t, to, s, d, n) {
        return None;
    }
    Some(copy_inside(size, t, to, s, d, n))
}

// The copy that an entry makes; none, where refusal 14, 15 or 18 meets the entry.
#[tactic(auto, using(crate::proofs::CrossCode::copies_row_lem, crate::proofs::CrossCode::no_copies_row, crate::proofs::CrossCode::copy_refused))]
fn copy_of(arena: &[u8], links: &Links, t: Turn, o: &ObjectData, e: Rela) -> Option<Copy>
    ensures { result ≡ seen_of links.now arena.now t (held_by o.now) e }
{
    if !is_copy(links, e.rtype) {
        return None;
    }
    let y = crate::relocate::symbol_of(arena, t, o, e.symbol).ok()?;
    let found = crate::relocate::search_copy(arena, links, t, o.strings, y.name)?;
    let n = (y.size as usize).min(found.definition.size as usize);
    let link = links.link(found.object);
    copy_range(arena.len(), t, e.place, link, found.definition, n)
}

// The first of an object's entries whose copy crosses one that is kept.
fn scan_object(
    arena: &[u8],
    links: &Links,
    t: Turn,
    o: &ObjectData,
    walk: &mut Walk,
) -> Option<usize>
    requires { walk.old.seen ≤ 2 ^ 62 }
    ensures { (walk.new.first ≡ walk.old.first) × (walk.new.seen ≤ walk.old.seen + 2 ^ 33) × IfSome result (λ j. j ≤ 2 ^ 33) × WalksOn walk.old (seen_of links.now arena.now t (held_by o.now)) (entries_of (image_in arena.now t) (held_by o.now)) walk.new result }
{
    let r = Tables::of(o);
    for i in 0..r.count() {
        if let Some(c) = copy_of(arena, links, t, o, entry_at(arena, t, r, i)) {
            if walk.crosses(c) {
                return Some(i);
            }
            walk.pass(c);
        }
    }
    None
}

fn scan_at(arena: &[u8], links: &Links, k: u32, file: &[u8], walk: &mut Walk) -> Option<usize>
    requires { walk.old.seen ≤ 2 ^ 62 }
    ensures { (walk.new.first ≡ walk.old.first) × (walk.new.seen ≤ walk.old.seen + 2 ^ 33) × IfSome result (λ j. j ≤ 2 ^ 33) × (again_refusal (image_in arena.now (turn_of links.now k)) file.now ≡ 0 → WalksOn walk.old (seen_of links.now arena.now (turn_of links.now k) (again_record (image_in arena.now (turn_of links.now k)) file.now)) (entries_of (image_in arena.now (turn_of links.now k)) (again_record (image_in arena.now (turn_of links.now k)) file.now)) walk.new result) }
{
    let t = crate::turn::turn_of(links, k);
    let o = record_again(arena, t, file);
    scan_object(arena, links, t, &o, walk)
}

// ---- an order

// An entry whose copy crosses an earlier one: its object's place in the order, and its number.
#[derive(Clone, Copy)]
pub struct Crossing {
    pub index: usize,
    pub entry: usize,
}

// The first entry of an order whose copy crosses one that is kept. Set, arena, links and order come apart, as `bind_in`, a public function, has
// them: a struct of the four would serve the four functions here alone.
fn scan_order(
    set: &Set,
    arena: &[u8],
    links: &Links,
    order: &[u32],
    walk: &mut Walk,
) -> Option<Crossing>
    requires { (length order.now ≤ 64) × (walk.old.seen ≡ 0) × (walk.old.kept.items ≡ []) }
    ensures { IfSome result (Bounded (length order.now)) × (walk.new.first ≡ walk.old.first) × (walk.new.seen ≤ 2 ^ 62) × (Readable links.now set.now arena.now order.now → Passed links.now set.now arena.now order.now walk.new result) }
{
    for (i, k) in order.iter().enumerate() {
        let k = *k;
        let file = set.file(k as usize);
        if let Some(entry) = scan_at(arena, links, k, file, walk) {
            return Some(Crossing { index: i, entry });
        }
    }
    None
}

// The first that crosses an earlier one: 1,024 earlier ones at a time.
fn first_crossing(set: &Set, arena: &[u8], links: &Links, order: &[u32]) -> Option<Crossing>
    requires { length order.now ≤ 64 }
    ensures { IfSome result (Bounded (length order.now)) × (Readable links.now set.now arena.now order.now → FirstCrossing links.now set.now arena.now order.now result) }
{
    let mut walk = Walk {
        first: 0,
        seen: 0,
        kept: ArrayVec::new(),
    };
    let mut met = scan_order(set, arena, links, order, &mut walk);
    // The copies before that, or all.
    let mut many = walk.seen;
    let mut first = 1024;
    // No `for`: how far it goes falls with what is met.
    while first < many {
        walk.begin(first);
        let q = scan_order(set, arena, links, order, &mut walk);
        if walk.seen < many {
            met = q;
            many = walk.seen;
        }
        first += 1024;
    }
    met
}

// ---- sets in which only the program copies: where its symbols' own sizes keep the destinations apart, nothing is searched

// The marks `low` to `high`, of which each is 1 where its byte is taken, become 1; whether none was. No chain: a mark that is read is written.
fn take_marks(marks: &mut [u8], low: usize, high: usize) -> bool
    requires { high ≤ length marks.old }
    ensures { (length marks.new ≡ length marks.old) × (result ≡ true → MarksTaken marks.old marks.new low high) }
{
    for i in low..high {
        if marks[i] != 0 {
            return false;
        }
        marks[i] = 1;
    }
    true
}

// Where the place `at` is in the window from `w` on: 0 before it, 32,768 after it.
fn in_window(w: usize, at: usize) -> usize
    ensures { result ≡ min (at - w) window }
{
    at.saturating_sub(w).min(32768)
}

// The bytes that the copy of entry `i` of the table at `at` may write: its place, and the size of its own symbol; none, where that is 0 or it is
// no COPY entry.
fn claim_at(image: &[u8], symbols: usize, at: usize, i: u32) -> Option<Claim>
    ensures { result ≡ claim_of image.now symbols (rela_at image.now at i) }
{
    let k = 24 * (i as usize);
    if words::bytes::word_off::<u32>(image, at, k + 8) != 5 {
        return None;
    }
    let s = words::bytes::word_off::<u32>(image, at, k + 12);
    let size = words::bytes::word_off::<u64>(image, symbols, 24 * (s as usize) + 16) as usize;
    if size == 0 {
        return None;
    }
    let place = words::bytes::word_off::<u64>(image, at, k) as usize;
    Some(Claim { place, size })
}

// Of entry `i` of RELA and PLT.
fn claim_in(image: &[u8], r: Tables, i: usize) -> Option<Claim>
    requires { i < r.relas + r.plts }
    ensures { result ≡ claim_of image.now r.symbols (slice_index_or (entries_by image.now r) i no_rela) }
{
    let (at, k) = r.place(i);
    claim_at(image, r.symbols, at, k)
}

// The lowest place behind the window from `w` on that is claimed, with the claim's; all end at `end` or below.
fn next_after(w: usize, next: usize, c: Claim, end: usize) -> usize
    requires { c.place + c.size ≤ end }
    ensures { result ≡ pick (nat_le (c.place + c.size - w) window) next (min next (max c.place (w + window))) }
{
    if (c.place + c.size).saturating_sub(w) <= 32768 {
        return next;
    }
    next.min(c.place.max(w + 32768))
}

// Whether a claim ends inside `end` bytes.
fn claim_fits(end: usize, c: Claim) -> bool
    ensures { result ≡ nat_le (c.place + c.size) end }
{
    c.size <= end && c.place <= end - c.size
}

// The claims of an object's entries in the window from `w` on: where the next is behind it, if no two meet and none leaves the image.
fn claims_in(image: &[u8], r: Tables, marks: &mut [u8], w: usize) -> Option<usize>
    requires { (length marks.old ≡ window) × (w < length image.now) }
    ensures { (length marks.new ≡ window) × IfSome result (λ next. ClaimedIn image.now r w next) }
{
    let end = image.len();
    marks.fill(0);
    let mut next = end;
    for i in 0..r.count() {
        if let Some(c) = claim_in(image, r, i) {
            if !claim_fits(end, c) {
                return None;
            }
            if !take_marks(marks, in_window(w, c.place), in_window(w, c.place + c.size)) {
                return None;
            }
            next = next_after(w, next, c, end);
        }
    }
    Some(next)
}

// Whether no two claims of an object meet, and none leaves its image: window by window of 32 KiB.
#[tactic(auto, using(crate::proofs::ClaimLaws::windows_begin, crate::proofs::ClaimLaws::windows_go))]
fn claims_apart(image: &[u8], r: Tables) -> bool
    ensures { result ≡ true → ClaimsApart image.now r }
{
    let mut marks = [0u8; 32768];
    let mut w = 0;
    // No `for`: the next window begins where the next claim is.
    while w < image.len() {
        let Some(next) = claims_in(image, r, &mut marks, w) else {
            return false;
        };
        w = next;
    }
    true
}

// Whether an entry of a table that lies in the image has type 5.
#[tactic(auto, unfolding(object::specs::Entries::rela_at))]
fn some_copies(image: &[u8], at: usize, n: u32) -> bool
    requires { at + 24 * n ≤ length image.now }
    ensures { result ≡ list_any (λ i. (rela_at image.now at i).rtype == 5) (range_with_len 0 n) }
{
    (0..n as usize).any(
        |i|
            requires { at + 24 * i + 24 ≤ length image.now }
        { u32::load(image, at + 24 * i + 8) == 5 },
    )
}

// Whether one of the `n` entries of the table at `at` has type 5.
#[tactic(auto, using(crate::proofs::ClaimLaws::no_copies_any))]
fn has_copies(image: &[u8], at: usize, n: u32) -> bool
    ensures { result ≡ false → NoCopies (relas_from image.now at 0 n) }
{
    image.len() < at || (image.len() - at) / 24 < n as usize || some_copies(image, at, n)
}

// Whether an object has COPY entries.
#[tactic(auto, using(crate::proofs::ClaimLaws::no_copies_both))]
fn tables_copy(image: &[u8], r: Tables) -> bool
    ensures { result ≡ false → NoCopies (entries_by image.now r) }
{
    has_copies(image, r.rela, r.relas) || has_copies(image, r.plt, r.plts)
}

// The tables of an object that was loaded, read again from its placed bytes.
fn tables_again(arena: &[u8], t: Turn, file: &[u8]) -> Tables
    ensures { again_refusal (image_in arena.now t) file.now ≡ 0 → result ≡ tables_of (again_record (image_in arena.now t) file.now) }
{
    Tables::of(&record_again(arena, t, file))
}

// Whether only the last object of the order copies, if one does, and that is the program, to places that are apart by its symbols' own sizes.
fn plainly_apart(set: &Set, arena: &[u8], links: &Links, order: &[u32]) -> bool
    requires { length order.now ≤ 64 }
    ensures { Readable links.now set.now arena.now order.now → result ≡ true → PlainlyApart links.now set.now arena.now order.now }
{
    for (i, k) in order.iter().enumerate() {
        let k = *k;
        let file = set.file(k as usize);
        let t = crate::turn::turn_of(links, k);
        let r = tables_again(arena, t, file);
        let image = crate::turn::image_of(arena, t);
        if tables_copy(image, r) {
            return i + 1 == order.len() && k == 1 && claims_apart(image, r);
        }
    }
    true
}

// The first entry of the order whose copy crosses an earlier one, if there is one.
pub(crate) fn crossing_in(set: &Set, arena: &[u8], links: &Links, order: &[u32]) -> Option<Crossing>
    requires { length order.now ≤ 64 }
    ensures { IfSome result (Bounded (length order.now)) × (Readable links.now set.now arena.now order.now → CrossingIn links.now set.now arena.now order.now result) }
{
    if plainly_apart(set, arena, links, order) {
        return None;
    }
    first_crossing(set, arena, links, order)
}
