// Hash tables: port of hash_tables.rs. Which symbol has a name, what it says, and how many symbols there are. Pointers are offsets in the
// image, and bytes past its end read as 0.
ghost use Rattle.std.specs.Prelude.{◌≡◌, ◌+◌, ◌*◌, ◌/◌, ◌%◌, ◌^◌, ◌≤◌, ◌<◌, max};
ghost use Rattle.words.specs.Memory.{mem};
ghost use Rattle.words.specs.Words.{le_at};
ghost use Rattle.words.specs.Names.{same_bytes};
ghost use Rattle.object.specs.Symbol.{symbol_name};
ghost use Rattle.object.specs.HashTable.{sysv_at, gnu_at, bucket_count, bucket_at, chain_at, is_last, next_symbol, fuel, walk, bloom_at, has_bits, may_hold, bucket_of, same_hash, is_exported_hit, lookup_by, small, answer_by, address_of};
ghost use Rattle.object.specs.HashCheck.{start_of};
ghost use Rattle.object.specs.SymbolCount.{highest, last_reached, table_count, count_of};

// The chosen hash table: its offset, and the numbers of its header.
#[derive(Clone, Copy, Default)]
pub enum HashTable {
    #[default]
    Without,
    SysV {
        at: usize,
        buckets: u32,
        nchain: u32,
    },
    Gnu {
        at: usize,
        buckets: u32,
        symoffset: u32,
        bloomwords: u32,
        shift: u32,
    },
}

// What of an object's record a lookup reads: the offsets of the symbol and string tables, and the hash table.
#[derive(Clone, Copy)]
pub struct View {
    pub symbols: usize,
    pub strings: usize,
    pub table: HashTable,
}

// An exported symbol: `protected` where it is protected.
#[derive(Clone, Copy)]
pub struct Definition {
    pub index: usize,
    pub value: u64,
    pub size: u64,
    pub protected: bool,
    pub absolute: bool,
}

impl Definition {
    // Its address in an object at `base`.
    pub fn address_at(self, base: u64) -> u64
        ensures { result ≡ address_of base self }
    {
        if self.absolute {
            self.value
        } else {
            base.wrapping_add(self.value)
        }
    }
}

// The System V table at `at`: bucket count, chain count, buckets, chain.
pub fn sysv_table(image: &[u8], at: usize) -> HashTable
    ensures { result ≡ sysv_at image.now at }
{
    HashTable::SysV {
        at: at,
        buckets: words::bytes::word_off::<u32>(image, at, 0),
        nchain: words::bytes::word_off::<u32>(image, at, 4),
    }
}

// The GNU table at `at`: bucket count, symbol offset, bloom count, bloom shift, bloom words, buckets, chain.
pub fn gnu_table(image: &[u8], at: usize) -> HashTable
    ensures { result ≡ gnu_at image.now at }
{
    HashTable::Gnu {
        at: at,
        buckets: words::bytes::word_off::<u32>(image, at, 0),
        symoffset: words::bytes::word_off::<u32>(image, at, 4),
        bloomwords: words::bytes::word_off::<u32>(image, at, 8),
        shift: words::bytes::word_off::<u32>(image, at, 12),
    }
}

// Whether symbol `s` has the name.
fn named(image: &[u8], symbols: usize, strings: usize, s: usize, name: &[u8]) -> bool
    requires { s < 2 ^ 40 }
    ensures { result ≡ same_bytes (symbol_name image.now symbols strings s) name.now }
{
    let at = words::bytes::word_off::<u32>(image, symbols, 24 * s);
    words::names::same_at(image, strings, at as usize, name)
}

// The place of a hash among `n`.
fn slot(h: u32, n: u32) -> usize
    requires { 0 < n }
    ensures { (result ≡ h % n) × (result < n) }
{
    (h % n) as usize
}

// How many buckets the table has.
pub(crate) fn bucket_count(t: HashTable) -> u32
    ensures { result ≡ bucket_count t }
{
    match t {
        HashTable::Without => 0,
        HashTable::SysV { buckets, .. } => buckets,
        HashTable::Gnu { buckets, .. } => buckets,
    }
}

// Where the table starts.
pub(crate) fn start_of(t: HashTable) -> usize
    ensures { result ≡ start_of t }
{
    match t {
        HashTable::Without => 0,
        HashTable::SysV { at, .. } => at,
        HashTable::Gnu { at, .. } => at,
    }
}

// How far from there the word of bucket `i` stands.
fn bucket_off(t: HashTable, i: usize) -> usize
    requires { i < 2 ^ 40 }
    ensures { start_of t + result ≡ bucket_at t i }
{
    match t {
        HashTable::Without => 0,
        HashTable::SysV { .. } => 8 + 4 * i,
        HashTable::Gnu { bloomwords, .. } => 16 + 8 * (bloomwords as usize) + 4 * i,
    }
}

// How far from there the chain word of symbol `s` stands.
pub(crate) fn chain_off(t: HashTable, s: usize) -> usize
    requires { s < 2 ^ 40 }
    ensures { start_of t + result ≡ chain_at t s }
{
    match t {
        HashTable::Without => 0,
        HashTable::SysV { buckets, .. } => 8 + 4 * (buckets as usize) + 4 * s,
        HashTable::Gnu {
            buckets,
            symoffset,
            bloomwords,
            ..
        } => 16
            + 8 * (bloomwords as usize)
            + 4 * (buckets as usize)
            + 4 * s.saturating_sub(symoffset as usize),
    }
}

// The word of bucket `i`.
pub(crate) fn bucket_word(image: &[u8], t: HashTable, i: usize) -> u32
    requires { i < 2 ^ 40 }
    ensures { result ≡ le_at 4 (mem image.now) (bucket_at t i) }
{
    words::bytes::word_off::<u32>(image, start_of(t), bucket_off(t, i))
}

// ---- the walk from a bucket's word: the chain word of a symbol, whether it is the last, and which comes after it

// The chain word of symbol `s`.
pub(crate) fn chain_word(image: &[u8], t: HashTable, s: usize) -> u32
    requires { s < 2 ^ 40 }
    ensures { result ≡ le_at 4 (mem image.now) (chain_at t s) }
{
    words::bytes::word_off::<u32>(image, start_of(t), chain_off(t, s))
}

// Whether the walk ends after a symbol with the chain word `w`.
pub(crate) fn is_last(t: HashTable, w: u32) -> bool
    ensures { result ≡ is_last t w }
{
    match t {
        HashTable::Without => true,
        HashTable::SysV { .. } => w == 0,
        HashTable::Gnu { .. } => w % 2 == 1,
    }
}

// The symbol after `s`, whose chain word is `w`.
pub(crate) fn next_symbol(t: HashTable, s: usize, w: u32) -> usize
    requires { s < 2 ^ 40 }
    ensures { (result ≡ next_symbol t s w) × (result ≤ max (s + 1) (2 ^ 32)) }
{
    match t {
        HashTable::Without => 0,
        HashTable::SysV { .. } => w as usize,
        HashTable::Gnu { .. } => s + 1,
    }
}

// How many symbols a walk has at most.
pub(crate) fn fuel_of(image: &[u8], t: HashTable) -> usize
    ensures { (result ≡ fuel image.now t) × (result ≤ 2 ^ 32) }
{
    match t {
        HashTable::Without => 0,
        HashTable::SysV { nchain, .. } => (nchain as usize) + 1,
        HashTable::Gnu { .. } => image.len().min(0x1000_0000),
    }
}

// ---- a name

fn shr(h: u32, shift: u32) -> u32
    ensures { result ≡ h / 2 ^ shift }
{
    if shift < 32 {
        return h >> shift;
    }
    0
}

// Whether the bloom word has both bits of the hash.
fn bloom_has(image: &[u8], at: usize, bloomwords: u32, shift: u32, gnu: u32) -> bool
    requires { 0 < bloomwords }
    ensures { result ≡ has_bits (le_at 8 (mem image.now) (bloom_at at bloomwords gnu)) shift gnu }
{
    let i = slot(gnu / 64, bloomwords);
    let word = words::bytes::word_off::<u64>(image, at, 16 + 8 * i);
    (word >> (gnu % 64)) % 2 == 1 && (word >> (shr(gnu, shift) % 64)) % 2 == 1
}

// Whether a name with the GNU hash may be in the table.
#[tactic(auto, unfolding(crate::specs::HashTable::may_hold))]
fn may_hold(image: &[u8], t: HashTable, gnu: u32) -> bool
    ensures { result ≡ may_hold image.now t gnu }
{
    match t {
        HashTable::Without => false,
        HashTable::SysV { buckets, .. } => buckets != 0,
        HashTable::Gnu {
            at,
            buckets,
            bloomwords,
            shift,
            ..
        } => buckets != 0 && bloomwords != 0 && bloom_has(image, at, bloomwords, shift, gnu),
    }
}

// The bucket of a name with these hashes.
fn bucket_of(t: HashTable, gnu: u32, elf: u32) -> usize
    requires { 0 < bucket_count t }
    ensures { (result ≡ bucket_of t gnu elf) × (result < 2 ^ 32) }
{
    match t {
        HashTable::Without => 0,
        HashTable::SysV { buckets, .. } => slot(elf, buckets),
        HashTable::Gnu { buckets, .. } => slot(gnu, buckets),
    }
}

// Whether the chain word goes with the hash.
fn same_hash(t: HashTable, w: u32, gnu: u32) -> bool
    ensures { result ≡ same_hash t w gnu }
{
    match t {
        HashTable::Without => false,
        HashTable::SysV { .. } => true,
        HashTable::Gnu { .. } => (w | 1) == (gnu | 1),
    }
}

// Whether the search takes symbol `s`, whose chain word is `w`: a hit that is exported. Names are compared first.
#[tactic(auto, unfolding(crate::specs::HashTable::is_exported_hit, crate::specs::HashTable::is_hit))]
fn accepts(image: &[u8], v: View, name: &[u8], gnu: u32, s: usize, w: u32) -> bool
    requires { (s < 2 ^ 40) × (w ≡ le_at 4 (mem image.now) (chain_at v.table s)) }
    ensures { result ≡ is_exported_hit image.now v.symbols v.strings v.table name.now gnu s }
{
    same_hash(v.table, w, gnu)
        && named(image, v.symbols, v.strings, s, name)
        && crate::symbol::exported_off(image, v.symbols, 24 * s)
}

// The first exported symbol with the name in the chain of the name's bucket; the name's hashes are given.
pub fn lookup(image: &[u8], v: View, name: &[u8], gnu: u32, elf: u32) -> Option<usize>
    ensures { (result ≡ lookup_by image.now v name.now gnu elf) × small result }
{
    let t = v.table;
    if !may_hold(image, t, gnu) {
        return None;
    }
    let b = bucket_word(image, t, bucket_of(t, gnu, elf));
    if b == 0 {
        return None;
    }
    let mut s = b as usize;
    for _ in 0..fuel_of(image, t) {
        let w = chain_word(image, t, s);
        if accepts(image, v, name, gnu, s, w) {
            return Some(s);
        }
        if is_last(t, w) {
            return None;
        }
        s = next_symbol(t, s, w);
    }
    None
}

// The object's answer for a name, whose hashes are given: its first exported hit.
#[tactic(auto, unfolding(crate::specs::HashTable::answer_of, crate::specs::HashTable::definition))]
pub fn ask(image: &[u8], v: View, name: &[u8], gnu: u32, elf: u32) -> Option<Definition>
    ensures { result ≡ answer_by image.now v name.now gnu elf }
{
    let symbols = v.symbols;
    let s = lookup(image, v, name, gnu, elf)?;
    let y = crate::symbol::symbol_off(image, symbols, 24 * s);
    Some(Definition {
        index: s,
        value: y.value,
        size: y.size,
        protected: y.other % 4 == 3,
        absolute: y.section == 0xfff1,
    })
}

// The largest word of the buckets.
pub(crate) fn highest_bucket(image: &[u8], t: HashTable) -> usize
    ensures { (result ≡ highest image.now t (bucket_count t)) × (result < 2 ^ 32) }
{
    // a bucket past the image's end has the word 0
    let n = (bucket_count(t) as usize).min(image.len() / 4 + 1);
    (0..n).fold(0, |best, i| best.max(bucket_word(image, t, i) as usize))
}

// The last symbol of the walk from the bucket word `word`.
fn walk_last(image: &[u8], t: HashTable, word: usize) -> usize
    requires { word < 2 ^ 32 }
    ensures { (result ≡ last_reached (walk image.now t (fuel image.now t) word) word) × (result < 2 ^ 40) }
{
    let mut last = word;
    let mut s = word;
    for _ in 0..fuel_of(image, t) {
        last = s;
        let w = chain_word(image, t, s);
        if is_last(t, w) {
            return last;
        }
        s = next_symbol(t, s, w);
    }
    last
}

// What the hash table says.
fn table_count(image: &[u8], t: HashTable) -> Option<usize>
    ensures { result ≡ table_count image.now t }
{
    match t {
        HashTable::Without => None,
        HashTable::SysV { nchain, .. } => Some(nchain as usize),
        HashTable::Gnu { .. } => {
            let h = highest_bucket(image, t);
            if h == 0 {
                return None;
            }
            Some(walk_last(image, t, h) + 1)
        }
    }
}

// How many symbols the object has, if that is known.
pub fn symbol_count(image: &[u8], v: View) -> Option<usize>
    ensures { result ≡ count_of image.now v }
{
    let symbols = v.symbols;
    let strings = v.strings;
    if symbols < strings {
        return Some((strings - symbols) / 24);
    }
    let t = v.table;
    table_count(image, t)
}
