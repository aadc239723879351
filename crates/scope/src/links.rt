// A flat table of what lookups need of a set: 16 words an object, by its number, for 64 objects; then the set's count and the arena's address.
// Words past the table's end read as 0.
ghost use Rattle.std.specs.Prelude.{◌≡◌, ℕ, ◌+◌, ◌*◌, ◌/◌, ◌≤◌, ◌%◌, ◌<◌, ◌^◌, true, length, get_or, Some, IfSome};
ghost use Rattle.words.specs.Hash.{elf_hash};
ghost use Rattle.scope.specs.Steps.ScopeCode.{Lacks};
ghost use Rattle.scope.specs.Steps.Links.{word_at, hash_words, hash_of, narrow, log_of, testable, filter_words, filter_of, link_words, link_at, count_in, address_in, FilteredBelow, Filtered, spliced, with_link};

use object::hash_tables::{HashTable, View};
use std::marker::Model;
use words::word::Word;

// Where an object lies in the arena, and what a lookup reads of its record.
#[derive(Clone, Copy)]
pub struct Link {
    pub offset: usize,
    pub span: usize,
    pub view: View,
}

// Word `j` of object `k`.
pub(crate) fn word(table: &[u64], k: usize, j: usize) -> u64
    ensures { result ≡ get_or table.now (16 * k + j) 0 }
{
    let n = table.len();
    if j < n {
        if k <= (n - 1 - j) / 16 {
            return table[16 * k + j];
        }
    }
    0
}

fn low(w: u64) -> u32
    ensures { result ≡ w % 2 ^ 32 }
{
    (w % 0x1_0000_0000) as u32
}

// The hash table that six words say. The kind is a number, since a table is words of fixed memory.
fn hash_of(kind: u64, at: u64, b: u64, c: u64, d: u64, e: u64) -> HashTable
    ensures { result ≡ hash_of kind at b c d e }
{
    match kind {
        1 => HashTable::SysV {
            at: at as usize,
            buckets: low(b),
            nchain: low(c),
        },
        2 => HashTable::Gnu {
            at: at as usize,
            buckets: low(b),
            symoffset: low(c),
            bloomwords: low(d),
            shift: low(e),
        },
        _ => HashTable::Without,
    }
}

// The six words of a hash table.
fn hash_words(h: HashTable) -> [u64; 6]
    ensures { (result ≡ hash_words h) × narrow h }
{
    match h {
        HashTable::Without => [0, 0, 0, 0, 0, 0],
        HashTable::SysV {
            at,
            buckets,
            nchain,
        } => [1, at as u64, buckets as u64, nchain as u64, 0, 0],
        HashTable::Gnu {
            at,
            buckets,
            symoffset,
            bloomwords,
            shift,
        } => [
            2,
            at as u64,
            buckets as u64,
            symoffset as u64,
            bloomwords as u64,
            shift as u64,
        ],
    }
}

// The logarithm of a power of 2 below 2^32; 64 for any other number.
fn log_of(n: u32) -> u64
    ensures { result ≡ log_of n }
{
    if n == 0 {
        return 64;
    }
    let k = n.ilog2();
    if n == 1 << k { k as u64 } else { 64 }
}

// Whether a filter's words may be tested. The tests stand in an order in which no subtraction wraps.
fn testable(offset: usize, span: usize, at: usize, bloomwords: u32, shift: u32) -> bool
    ensures { result ≡ testable offset span at bloomwords shift }
{
    let n = 16 + 8 * (bloomwords as usize);
    shift <= 31
        && n <= span
        && at <= span - n
        && span <= 0x1_0000_0000
        && offset <= 0x1_0000_0000 - span
}

// The three words of a GNU table's bloom filter.
#[tactic(auto, unfolding(crate::specs::Steps::Links::filter_words))]
fn filter_words(offset: usize, span: usize, at: usize, bloomwords: u32, shift: u32) -> [u64; 3]
    ensures { result ≡ filter_words offset span at bloomwords shift }
{
    if !testable(offset, span, at, bloomwords, shift) {
        return [0, 64, 0];
    }
    [(offset + at + 16) as u64, log_of(bloomwords), shift as u64]
}

// The three words of a link's bloom filter.
#[tactic(auto, unfolding(crate::specs::Steps::Links::filter_of))]
fn filter_of(offset: usize, span: usize, h: HashTable) -> [u64; 3]
    ensures { result ≡ filter_of offset span h }
{
    match h {
        HashTable::Without | HashTable::SysV { .. } => [0, 64, 0],
        HashTable::Gnu {
            at,
            bloomwords,
            shift,
            ..
        } => filter_words(offset, span, at, bloomwords, shift),
    }
}

// The 16 words of a link.
#[tactic(auto, unfolding(crate::specs::Steps::Links::link_words))]
fn words_of(s: Link) -> [u64; 16]
    ensures { (result ≡ link_words s) × narrow s.view.table }
{
    let v = s.view;
    let h = v.table;
    let w = hash_words(h);
    let f = filter_of(s.offset, s.span, h);
    [
        s.offset as u64,
        s.span as u64,
        v.symbols as u64,
        v.strings as u64,
        w[0],
        w[1],
        w[2],
        w[3],
        w[4],
        w[5],
        f[0],
        f[1],
        f[2],
        0,
        0,
        0,
    ]
}

// The words go to the table from `p` on.
#[tactic(auto, unfolding(crate::specs::Steps::Links::spliced))]
fn put_words(table: &mut [u64], p: usize, w: [u64; 16])
    requires { p + 16 ≤ length table.old }
    ensures { table.new ≡ spliced table.old p w }
{
    table[p..p + 16].copy_from_slice(&w);
}

// The link that these words say.
#[tactic(auto, unfolding(crate::specs::Steps::Links::link_at))]
fn link_of(w: &[u64]) -> Link
    requires { 10 ≤ length w.now }
    ensures { result ≡ link_at w.now 0 }
{
    Link {
        offset: w[0] as usize,
        span: w[1] as usize,
        view: View {
            symbols: w[2] as usize,
            strings: w[3] as usize,
            table: hash_of(w[4], w[5], w[6], w[7], w[8], w[9]),
        },
    }
}

// The link of object `k`.
#[tactic(auto, using(crate::proofs::LinkLaws::link_of_rest), unfolding(crate::specs::Steps::Links::link_at))]
pub fn link_at(table: &[u64], k: usize) -> Link
    ensures { result ≡ link_at table.now k }
{
    if k < table.len() / 16 {
        return link_of(&table[16 * k..]);
    }
    // some of its words are past the table's end
    let w = [
        word(table, k, 0),
        word(table, k, 1),
        word(table, k, 2),
        word(table, k, 3),
        word(table, k, 4),
        word(table, k, 5),
        word(table, k, 6),
        word(table, k, 7),
        word(table, k, 8),
        word(table, k, 9),
    ];
    link_of(&w)
}

// The link of object `k` becomes `s`; a table that has no room for it stays as it is.
pub fn put_link(table: &mut [u64], k: usize, s: Link)
    ensures same { table.new ≡ with_link table.old k s }
    ensures back { 16 * k + 16 ≤ length table.old → link_at table.new k ≡ s }
    ensures others { (j : ℕ) → (j ≡ k → ⊥) → link_at table.new j ≡ link_at table.old j }
    ensures filtered { 16 * k + 16 ≤ length table.old → FilteredBelow table.old k → FilteredBelow table.new (k + 1) }
{
    let w = words_of(s);
    if k < table.len() / 16 {
        put_words(table, 16 * k, w);
    }
}

// ---- the set

// How many objects the set has.
pub fn count_in(table: &[u64]) -> usize
    requires { 1026 ≤ length table.now }
    ensures { result ≡ count_in table.now }
{
    table[1024] as usize
}

// The arena's address.
pub fn address_in(table: &[u64]) -> u64
    requires { 1026 ≤ length table.now }
    ensures { result ≡ address_in table.now }
{
    table[1025]
}

// The set's count and the arena's address; every link stays as it is.
pub fn put_set(table: &mut [u64], count: usize, address: u64)
    requires { (1026 ≤ length table.old) × (count ≤ 64) }
    ensures said { (count_in table.new ≡ count) × (address_in table.new ≡ address) }
    ensures links { (k : ℕ) → k < 64 → link_at table.new k ≡ link_at table.old k }
    ensures filtered { FilteredBelow table.old count → Filtered table.new }
{
    table[1024] = count as u64;
    table[1025] = address;
}

// ---- the links of a set

// Where the bloom word of a GNU hash stands among 2^bits of them.
fn bloom_place(gnu: u32, bits: u64) -> u64
    requires { bits < 32 }
    ensures { (result ≡ 8 * (gnu / 64 % 2 ^ bits)) × (result < 2 ^ 32) }
{
    8 * (((gnu / 64) as u64) % (1 << bits))
}

// The links of a set that is loaded, its count and the arena's address: a table that `put_set` finished. Callers see its words.
#[derive(Drop)]
pub struct Links<'a> {
    words: &'a [u64],
}

impl<'a> Model for Links<'a> {
    ghost use Rattle.std.specs.Prelude.{ℕ, List};
    ghost use Rattle.scope.specs.Steps.Links.{Filtered};

    ghost Value = { List ℕ };

    ghost view = { λ s. s.words.now };

    ghost invariant = { λ s. Filtered s.words.now };
}

impl<'a> Links<'a> {
    pub fn of(table: &'a [u64]) -> Links<'a>
        requires { Filtered table.now }
        ensures { result ≡ table.now }
    {
        Links { words: table }
    }

    pub fn words(&self) -> &'a [u64]
        ensures is { result.now ≡ self.now }
        ensures filtered { Filtered result.now }
    {
        self.words
    }

    // How many objects the set has.
    pub fn count(&self) -> usize
        ensures is { result ≡ count_in self.now }
        ensures few { result ≤ 64 }
    {
        count_in(self.words)
    }

    // The arena's address.
    pub fn address(&self) -> u64
        ensures { result ≡ address_in self.now }
    {
        address_in(self.words)
    }

    // The link of object `k`.
    pub fn link(&self, k: usize) -> Link
        ensures { result ≡ link_at self.now k }
    {
        link_at(self.words, k)
    }

    // The System V hash of a name, where it was made before or object `k` has a System V table; else 0, since no other table asks for it. It is
    // made once in a scan of objects, also where it is 0: a name may be as long as its file.
    pub(crate) fn elf_for(&self, k: usize, name: &[u8], made: &mut Option<u32>) -> u32
        requires { IfSome made.old (λ e. e ≡ elf_hash name.now) }
        ensures asked { word_at self.now k 4 ≡ 1 → result ≡ elf_hash name.now }
        ensures made { IfSome made.new (λ e. e ≡ elf_hash name.now) }
    {
        if let Some(elf) = *made {
            return elf;
        }
        if word(self.words, k, 4) != 1 {
            return 0;
        }
        let elf = words::hash::elf_hash(name);
        *made = Some(elf);
        elf
    }

    // Whether the bloom filter of object `k` rules out every name with this GNU hash; the arena's last whole word is at `last`.
    // Guards, and no one test: each later step may be computed only after those before it.
    fn rules_out(&self, arena: &[u8], last: u64, k: usize, gnu: u32) -> bool
        requires { (last + 8 ≤ length arena.now) × (k < count_in self.now) }
        ensures { result ≡ true → Lacks arena.now (link_at self.now k) gnu }
    {
        let table = self.words;
        let p = 16 * k;
        let bits = table[p + 11];
        if 32 <= bits {
            return false;
        }
        let at = table[p + 10] % 0x1_0000_0000 + bloom_place(gnu, bits);
        if last < at {
            return false;
        }
        let w = u64::load(arena, at as usize);
        let one = (w >> (gnu % 64)) % 2;
        let two = (w >> ((gnu >> (table[p + 12] % 32)) % 64)) % 2;
        one + two != 2
    }

    // Whether object `k` has no name with this GNU hash, as its bloom filter says; an object that is not of the set is not looked at.
    pub(crate) fn ruled_out(&self, arena: &[u8], k: usize, gnu: u32) -> bool
        ensures { result ≡ true → Lacks arena.now (link_at self.now k) gnu }
    {
        k < self.count()
            && 8 <= arena.len()
            && self.rules_out(arena, (arena.len() - 8) as u64, k, gnu)
    }
}
