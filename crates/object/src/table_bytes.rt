// Table bytes: which parts of an object's span no relocation of it may change.
ghost use Rattle.std.specs.Prelude.{◌≡◌, not, ◌+◌, ◌<◌, ◌≤◌, length};
ghost use Rattle.std.specs.List.{list_all, list_any};
ghost use Rattle.std.specs.Prelude.{IfSome, IfNone, slice_index, ℕ};
ghost use Rattle.words.specs.Choice.{both, below};
ghost use Rattle.words.specs.Memory.{mem};
ghost use Rattle.object.specs.TableBytes.{is_writable, holds_range, is_table, table_bytes, table_name, in_writable};
ghost use Rattle.object.specs.Steps.WritableRange.{WritableRange};
ghost use Rattle.object.specs.Steps.FineRange.{TablesFine, ChainedFine};
ghost use Rattle.object.specs.Steps.LastZero.{LastZero, LastZeros, Nearer, RunOf};

use crate::program_header::Segment;

// What needs no further test of refusals 14 and 15: the first `fits` symbols, and a name at one of the first `ends` places of the strings.
#[derive(Clone, Copy)]
pub struct Fine {
    pub fits: usize,
    pub ends: usize,
}

// An object's span, and its load segments, 16 at most: the host has none.
#[derive(Clone, Copy)]
pub struct Bounds<'a> {
    pub span: usize,
    pub segments: &'a [Segment],
    ghost few: { length segments.now ≤ 16 },
}

impl Segment {
    // Whether none of the `n` bytes from `at` is in the segment, or it is not writable. Guards: a subtraction is computed only after its test.
    fn spares(&self, at: usize, n: usize) -> bool
        ensures { result ≡ below (λ k. not (both (is_writable self.now) (holds_range self.now (at + k) 1))) n }
    {
        if !self.is_writable() || self.memsz == 0 || n == 0 {
            return true;
        }
        if self.vaddr <= at {
            return self.memsz <= at - self.vaddr;
        }
        n <= self.vaddr - at
    }

    // Whether the `n` bytes from `at` lie in the segment, and it is writable.
    fn holds(&self, at: usize, n: usize) -> bool
        ensures { result ≡ both (is_writable self.now) (holds_range self.now at n) }
    {
        self.is_writable()
            && self.vaddr <= at
            && n <= self.memsz
            && at - self.vaddr <= self.memsz - n
    }

    // PF_W.
    pub(crate) fn is_writable(&self) -> bool
        ensures { result ≡ is_writable self.now }
    {
        self.flags / 2 % 2 == 1
    }
}

// Whether every segment spares the `n` bytes from `at`.
fn all_spare(segments: &[Segment], at: usize, n: usize) -> bool
    ensures { result ≡ list_all (λ s. below (λ k. not (both (is_writable s) (holds_range s (at + k) 1))) n) segments.now }
{
    segments.iter().all(|s| s.spares(at, n))
}

// Whether the `n` bytes from `at` are table bytes.
pub fn table_bytes(b: Bounds, at: usize, n: usize) -> bool
    ensures { result ≡ table_bytes (is_table b.entry.span (b.entry.segments.now)) at n }
{
    n == 0 || (n <= b.span && at <= b.span - n && all_spare(b.segments, at, n))
}

// Whether the `n` bytes `k` places after `at` are table bytes.
pub fn table_off(b: Bounds, at: usize, k: usize, n: usize) -> bool
    ensures { result ≡ table_bytes (is_table b.entry.span (b.entry.segments.now)) (at + k) n }
{
    table_bytes(b, at.saturating_add(k), n)
}

// Whether the name `k` places after `at` is in table bytes, with its zero byte.
pub fn name_ok(image: &[u8], b: Bounds, at: usize, k: usize) -> bool
    ensures { result ≡ table_name (is_table b.entry.span (b.entry.segments.now)) image.now (at + k) }
{
    let name = words::names::name_off(image, at, k);
    name.len() < b.span && table_off(b, at, k, name.len() + 1)
}

// One past the last zero byte before `end`; 0 where there is none: a bound on places, and no number for none. No `map_or`: the check alone
// does not close it, as it does not split what is known of the place into the two cases.
fn last_zero(image: &[u8], end: usize) -> usize
    ensures { LastZero (mem image.now) end result }
{
    if image.len() < end {
        return end;
    }
    match last_place(&image[..end]) {
        Some(k) => k + 1,
        None => 0,
    }
}

// Where the last zero byte is.
fn last_place(bytes: &[u8]) -> Option<usize>
    ensures none { IfNone result ((q : ℕ) → q < length bytes.now → slice_index bytes.now q ≡ 0 → ⊥) }
    ensures some { IfSome result (λ k. (k < length bytes.now) × (slice_index bytes.now k ≡ 0)) }
    ensures after { IfSome result (λ k. (q : ℕ) → k < q → q < length bytes.now → slice_index bytes.now q ≡ 0 → ⊥) }
{
    bytes.iter().rposition(|b| *b == 0)
}

// Where a run of table bytes ends, and one past the last zero byte before that.
#[derive(Clone, Copy)]
struct Run {
    end: usize,
    low: usize,
}

impl Run {
    // What a segment leaves of the run, which starts at `p`; `zero` is one past the last zero byte before the segment.
    fn before(self, s: &Segment, p: usize, zero: usize) -> Run
        ensures { Nearer s.now p self.end self.low zero result.end result.low }
    {
        if !s.is_writable() || s.memsz == 0 || self.end <= s.vaddr {
            return self;
        }
        if p < s.vaddr {
            return Run {
                end: s.vaddr,
                low: zero,
            };
        }
        if p - s.vaddr < s.memsz {
            return Run { end: p, low: 0 };
        }
        self
    }
}

// The run of table bytes from `p`.
fn run_from(image: &[u8], b: Bounds, p: usize) -> Run
    requires { p < b.span }
    ensures { RunOf (is_table b.entry.span b.entry.segments.now) (mem image.now) b.entry.span p result.end result.low }
{
    let mut run = Run {
        end: b.span,
        low: 0,
    };
    // no fold: the proof speaks of the segments still to come, and what is known of a fold only of those before
    for s in b.segments {
        run = run.before(s, p, 0);
    }
    Run {
        end: run.end,
        low: last_zero(image, run.end),
    }
}

// How many symbols need no further test, and how many places of the strings where a name needs none.
pub(crate) fn fine_of(image: &[u8], b: Bounds, symbols: usize, strings: usize) -> Fine
    ensures { TablesFine (is_table b.entry.span (b.entry.segments.now)) image.now symbols strings b.entry.span result.fits result.ends }
{
    if b.span <= symbols {
        return Fine { fits: 0, ends: 0 };
    }
    if b.span <= strings {
        return Fine { fits: 0, ends: 0 };
    }
    let one = run_from(image, b, symbols);
    let two = run_from(image, b, strings);
    Fine {
        fits: (one.end - symbols) / 24,
        ends: two.low.saturating_sub(strings),
    }
}

// How many of the words that stand `chain` places after `at` need no further test.
pub(crate) fn chained_of(image: &[u8], b: Bounds, at: usize, chain: usize) -> usize
    ensures { ChainedFine (is_table b.entry.span (b.entry.segments.now)) at chain result }
{
    let span = b.span;
    if span <= chain {
        return 0;
    }
    if span - chain <= at {
        return 0;
    }
    let p = at + chain;
    let one = run_from(image, b, p);
    (one.end - p) / 4
}

// An image with its bounds, and one past the last zero byte before each segment and before the span's end: with these no name is read.
// The places stand beside the segments, which are lent, in their order.
#[derive(Clone, Copy)]
pub(crate) struct Zeros<'a> {
    pub(crate) image: &'a [u8],
    pub(crate) bounds: Bounds<'a>,
    before: [usize; 16],
    end: usize,
    ghost last: { LastZeros (mem image.now) bounds.span bounds.segments.now before end },
}

impl<'a> Zeros<'a> {
    pub(crate) fn of(image: &'a [u8], bounds: Bounds<'a>) -> Zeros<'a>
        ensures { (result.image.now ≡ image.now) × (result.bounds ≡ bounds.entry) }
    {
        let mut before = [0usize; 16];
        for (i, s) in bounds.segments.iter().enumerate() {
            before[i] = last_zero(image, s.vaddr.min(bounds.span));
        }
        Zeros {
            image: image,
            bounds: bounds,
            before: before,
            end: last_zero(image, bounds.span),
        }
    }

    // Whether the `k` bytes from `p`, and the name at `q` with its zero byte, are in table bytes.
    pub(crate) fn both_in(&self, p: usize, k: usize, q: usize) -> bool
        requires { (p < self.now.bounds.span) × (q < self.now.bounds.span) }
        ensures { result ≡ both (table_bytes (is_table self.now.bounds.span self.now.bounds.segments.now) p k) (table_name (is_table self.now.bounds.span self.now.bounds.segments.now) self.now.image.now q) }
    {
        let mut one = Run {
            end: self.bounds.span,
            low: self.end,
        };
        let mut two = one;
        for (i, s) in self.bounds.segments.iter().enumerate() {
            let zero = self.before[i];
            one = one.before(s, p, zero);
            two = two.before(s, q, zero);
        }
        k <= one.end - p && q < two.low
    }
}

// Places that lie in one writable segment: from `low` to below `high`.
#[derive(Clone, Copy)]
pub struct Writable {
    pub low: usize,
    pub high: usize,
}

// The writable segment that holds the `n` bytes from `at`, if one does.
pub fn writable_at(b: Bounds, at: usize, n: usize) -> Option<Writable>
    ensures { IfSome result (λ w. WritableRange (b.entry.segments.now) w.low w.high) }
{
    let s = b.segments.iter().find(|s| s.holds(at, n))?;
    Some(Writable {
        low: s.vaddr,
        high: s.vaddr.saturating_add(s.memsz),
    })
}

// Whether a writable segment holds the `n` bytes from `at`.
fn some_holds(segments: &[Segment], at: usize, n: usize) -> bool
    ensures { result ≡ list_any (λ s. both (is_writable s) (holds_range s at n)) segments.now }
{
    segments.iter().any(|s| s.holds(at, n))
}

// Whether the `n` bytes from `at` lie in one writable segment.
#[tactic(auto, using(crate::proofs::Ranges::writable_any))]
pub fn in_writable(b: Bounds, at: usize, n: usize) -> bool
    ensures { result ≡ in_writable (b.entry.segments.now) at n }
{
    some_holds(b.segments, at, n)
}
