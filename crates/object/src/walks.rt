// What the walks of a hash table are checked by, and which symbols pass.
ghost use Rattle.std.specs.Prelude.{◌≡◌, true, ◌^◌, ◌<◌};
ghost use Rattle.object.specs.TableBytes.{is_table};
ghost use Rattle.object.specs.HashCheck.{chain_ok, symbol_ok};
ghost use Rattle.object.specs.Steps.Marks.{ShortcutsOk, step_in};

use crate::hash_tables::{HashTable, View};
use crate::table_bytes::{Bounds, Zeros};

// Whether a System V index is below the chain count, or the chain word of a GNU symbol is in table bytes.
fn chain_ok(b: Bounds, t: HashTable, s: usize) -> bool
    requires { s < 2 ^ 40 }
    ensures { result ≡ chain_ok (is_table b.entry.span b.entry.segments.now) t s }
{
    match t {
        HashTable::Without => false,
        HashTable::SysV { nchain, .. } => s < (nchain as usize),
        HashTable::Gnu { at, .. } => {
            let k = crate::hash_tables::chain_off(t, s);
            crate::table_bytes::table_off(b, at, k, 4)
        }
    }
}

// Whether symbol `s`, and its name with the zero byte, are in table bytes: the name is not read.
fn symbol_in(zeros: &Zeros, v: View, s: usize) -> bool
    requires { s < 2 ^ 40 }
    ensures { result ≡ symbol_ok (is_table zeros.now.bounds.span zeros.now.bounds.segments.now) zeros.now.image.now v.symbols v.strings s }
{
    let span = zeros.bounds.span;
    let p = v.symbols.saturating_add(24 * s);
    let name = words::bytes::word_at::<u32>(zeros.image, p) as usize;
    let q = v.strings.saturating_add(name);
    p.max(q) < span && zeros.both_in(p, 24, q)
}

// What the walks of a table are checked by. At once pass: the first `chained` symbols from `low` on, as far as the chain goes; the first
// `fits` symbols, and names at the first `ends` places of the strings, as far as table bytes go.
#[derive(Drop)]
pub(crate) struct Walks<'a> {
    pub(crate) zeros: Zeros<'a>,
    pub(crate) view: View,
    fits: usize,
    ends: usize,
    chained: usize,
    pub(crate) low: usize,
    ghost shortcuts: { ShortcutsOk zeros.bounds zeros.image.now view fits ends chained low },
}

impl<'a> Walks<'a> {
    pub(crate) fn of(zeros: Zeros<'a>, view: View) -> Walks<'a>
        ensures { (result.zeros ≡ zeros.entry) × (result.view ≡ view) }
    {
        let f = crate::table_bytes::fine_of(zeros.image, zeros.bounds, view.symbols, view.strings);
        let (chained, low) = match view.table {
            HashTable::Without => (0, 0),
            HashTable::SysV { nchain, .. } => (nchain as usize, 0),
            HashTable::Gnu {
                at,
                buckets,
                symoffset,
                bloomwords,
                ..
            } => {
                let chain = 16 + 8 * (bloomwords as usize) + 4 * (buckets as usize);
                (
                    crate::table_bytes::chained_of(zeros.image, zeros.bounds, at, chain),
                    symoffset as usize,
                )
            }
        };
        Walks {
            zeros: zeros,
            view: view,
            fits: f.fits,
            ends: f.ends,
            chained: chained,
            low: low,
        }
    }

    // How many symbols of a GNU table share a mark, so that those from `low` to that of the highest bucket have marks; where that is no
    // symbol, as many as the image has room for.
    pub(crate) fn step(&self) -> usize
        ensures { 0 < result }
    {
        let t = self.view.table;
        let HashTable::Gnu { .. } = t else {
            return 1;
        };
        let high = crate::hash_tables::highest_bucket(self.zeros.image, t);
        if symbol_in(&self.zeros, self.view, high) {
            return high.saturating_sub(self.low) / 131072 + 1;
        }
        self.zeros.image.len() / 3145728 + 1
    }

    // Whether symbol `s` passes at once, as most do.
    pub(crate) fn passes_at_once(&self, s: usize) -> bool
        requires { s < 2 ^ 40 }
        ensures { result ≡ true → step_in self.now.zeros.bounds self.now.zeros.image.now self.now.view s ≡ true }
    {
        s.saturating_sub(self.low) < self.chained
            && s < self.fits
            && (words::bytes::word_off::<u32>(self.zeros.image, self.view.symbols, 24 * s) as usize)
                < self.ends
    }

    // Whether symbol `s` passes.
    pub(crate) fn passes(&self, s: usize) -> bool
        requires { s < 2 ^ 40 }
        ensures { result ≡ step_in self.now.zeros.bounds self.now.zeros.image.now self.now.view s }
    {
        chain_ok(self.zeros.bounds, self.view.table, s) && symbol_in(&self.zeros, self.view, s)
    }
}
