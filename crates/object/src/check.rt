// Refusal 12 of a hash table: whether all that a lookup can read of it is table bytes. No name is read, and a walk ends at a symbol that an
// earlier walk passed: it is marked. In a System V table the symbols below 131,072 have a mark each; in a GNU table each symbol, or each
// `step`th of more (`Walks::step`).
ghost use Rattle.std.specs.Prelude.{◌≡◌, List, ℕ, ◌^◌, ◌<◌};
ghost use Rattle.words.specs.Choice.{below};
ghost use Rattle.object.specs.TableBytes.{is_table, table_bytes};
ghost use Rattle.object.specs.HashTable.{bucket_count, fuel};
ghost use Rattle.object.specs.HashCheck.{start_of, table_size, numbers_ok, length_ok, symbol_ok, walk_ok, table_ok};
ghost use Rattle.object.specs.Steps.Marks.{WalkedTo, word_ok};
ghost use Rattle.object.specs.Steps.Checked.{MarksOk, step_by};

use crate::hash_tables::{HashTable, View};
use crate::marks::Marks;
use crate::table_bytes::{Bounds, Zeros};
use crate::walks::Walks;

// Whether symbol `s`, and its name with the zero byte, are in table bytes. That a symbol's number is below 2^40 stays a clause, here and in
// others: a walk computes on it at each turn, and a type of its own would have to be unpacked in each.
#[tactic(auto, unfolding(crate::specs::HashCheck::symbol_ok))]
fn symbol_fits(image: &[u8], b: Bounds, symbols: usize, strings: usize, s: usize) -> bool
    requires { s < 2 ^ 40 }
    ensures { result ≡ symbol_ok (is_table b.entry.span b.entry.segments.now) image.now symbols strings s }
{
    let name = words::bytes::word_off::<u32>(image, symbols, 24 * s) as usize;
    crate::table_bytes::table_off(b, symbols, 24 * s, 24)
        && crate::table_bytes::name_ok(image, b, strings, name)
}

// The same for any index: refusal 15.
pub fn symbol_ok(image: &[u8], b: Bounds, symbols: usize, strings: usize, s: u32) -> bool
    ensures { result ≡ symbol_ok (is_table b.entry.span b.entry.segments.now) image.now symbols strings s }
{
    symbol_fits(image, b, symbols, strings, s as usize)
}

// What following a walk came to: its end, or a marked symbol; a symbol that does not pass; as many symbols as a walk may have.
#[derive(Clone, Copy)]
enum Walked {
    Ended,
    Failed,
    Cut,
}

impl Walks<'_> {
    // Follows the walk from `word`. What the marks say stays a clause, here and in two others: it speaks of the walks too, and they are lent beside.
    fn follow(&self, seen: &Marks, word: u32) -> Walked
        requires { MarksOk self.now seen.now }
        ensures { WalkedTo self.now.zeros.image.now self.now.view.table (step_by self.now) word result }
    {
        let image = self.zeros.image;
        let t = self.view.table;
        let mut s = word as usize;
        for _ in 0..crate::hash_tables::fuel_of(image, t) {
            if seen.holds(s) {
                return Walked::Ended;
            }
            if !self.passes_at_once(s) && !self.passes(s) {
                return Walked::Failed;
            }
            let w = crate::hash_tables::chain_word(image, t, s);
            if crate::hash_tables::is_last(t, w) {
                return Walked::Ended;
            }
            s = crate::hash_tables::next_symbol(t, s, w);
        }
        Walked::Cut
    }

    // The walk from a bucket's word, other than 0; its symbols get marks. A guard, and no one test: marks are set in one case alone.
    fn walk_ok(&self, seen: &mut Marks, word: u32) -> bool
        requires { (0 < word) × MarksOk self.now seen.old }
        ensures { (result ≡ word_ok self.now.zeros.image.now self.now.view.table (step_by self.now) word) × MarksOk self.now seen.new }
    {
        if (word as usize) < self.low {
            return false;
        }
        match self.follow(seen, word) {
            Walked::Ended => {
                seen.set_walk(self.zeros.image, self.view.table, word);
                true
            }
            Walked::Failed => false,
            Walked::Cut => may_be_cut(self.view.table),
        }
    }

    // The walks of all buckets. No `all`: each walk leaves marks.
    fn walks_ok(&self, seen: &mut Marks) -> bool
        requires { MarksOk self.now seen.old }
        ensures { result ≡ below (walk_ok (is_table self.now.zeros.bounds.span self.now.zeros.bounds.segments.now) self.now.zeros.image.now self.now.view.symbols self.now.view.strings self.now.view.table) (bucket_count self.now.view.table) }
    {
        let t = self.view.table;
        for i in 0..crate::hash_tables::bucket_count(t) as usize {
            let word = crate::hash_tables::bucket_word(self.zeros.image, t, i);
            if word == 0 || seen.holds(word as usize) {
                continue;
            }
            if !self.walk_ok(seen, word) {
                return false;
            }
        }
        true
    }
}

// Whether a walk may have as many symbols as it is followed for: not in a System V table.
fn may_be_cut(t: HashTable) -> bool
    ensures { (m : List ℕ) → result ≡ length_ok t (fuel m t) }
{
    match t {
        HashTable::Without => true,
        HashTable::SysV { .. } => false,
        HashTable::Gnu { .. } => true,
    }
}

#[tactic(auto, unfolding(crate::specs::HashCheck::numbers_ok))]
fn numbers_ok(t: HashTable) -> bool
    ensures { result ≡ numbers_ok t }
{
    match t {
        HashTable::Without => true,
        HashTable::SysV { buckets, .. } => buckets != 0,
        HashTable::Gnu {
            buckets,
            bloomwords,
            shift,
            ..
        } => buckets != 0 && bloomwords != 0 && shift <= 31,
    }
}

// Whether header, bloom words, buckets and the System V chain are table bytes.
fn table_fits(b: Bounds, t: HashTable) -> bool
    ensures { result ≡ table_bytes (is_table b.entry.span b.entry.segments.now) (start_of t) (table_size t) }
{
    match t {
        HashTable::Without => crate::table_bytes::table_bytes(b, 0, 0),
        HashTable::SysV {
            at,
            buckets,
            nchain,
        } => crate::table_bytes::table_bytes(
            b,
            at,
            8 + 4 * (buckets as usize) + 4 * (nchain as usize),
        ),
        HashTable::Gnu {
            at,
            buckets,
            bloomwords,
            ..
        } => crate::table_bytes::table_bytes(
            b,
            at,
            16 + 8 * (bloomwords as usize) + 4 * (buckets as usize),
        ),
    }
}

// Whether the walks of all buckets pass. Never inlined: its marks, 16 KiB, stand on the stack while it runs alone.
#[inline(never)]
fn walks_pass(image: &[u8], b: Bounds, v: View) -> bool
    ensures { result ≡ below (walk_ok (is_table b.entry.span b.entry.segments.now) image.now v.symbols v.strings v.table) (bucket_count v.table) }
{
    let walks = Walks::of(Zeros::of(image, b), v);
    let mut seen = Marks {
        words: [0u64; 2048],
        low: walks.low,
        step: walks.step(),
    };
    walks.walks_ok(&mut seen)
}

// Whether the object's hash table is not refused. Marks are made only where there is a bucket.
#[tactic(auto, unfolding(crate::specs::HashCheck::table_ok, words::specs::Choice::below))]
pub fn hash_table_ok(image: &[u8], b: Bounds, v: View) -> bool
    ensures { result ≡ table_ok (is_table b.entry.span b.entry.segments.now) image.now v.symbols v.strings v.table }
{
    numbers_ok(v.table)
        && table_fits(b, v.table)
        && (crate::hash_tables::bucket_count(v.table) == 0 || walks_pass(image, b, v))
}
