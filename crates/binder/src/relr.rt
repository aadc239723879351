// RELR: an even entry names a word, which gains the base; an odd one has a bit for each of the 63 words after the last. All of it is read and
// written in the object's part of the arena, from its offset to the arena's end, which `run_relrs` lends.
ghost use Rattle.std.specs.Prelude.{◌≡◌, ◌+◌, ◌-◌, ◌^◌, ◌≤◌, length, take, IfOk};
ghost use Rattle.object.specs.Entries.{relr_at};
ghost use Rattle.object.specs.Record.{held_by};
ghost use Rattle.binder.specs.Steps.Relocating.{far, cut_to32, summed, word_added, add_bits, add_relr, add_relrs, run_relrs};
ghost use Rattle.binder.specs.Steps.RunSteps.{BitsPassed, Moves};
ghost use Rattle.words.specs.Refusal.{refused_by};

use crate::turn::Turn;
use object::dynamic_fields::ObjectData;
use object::relocate::Relr;
use object::table_bytes::Bounds;
use words::refusal::Refusal;
use words::word::Word;

// The word at `place` gains the base.
#[tactic(auto, unfolding(crate::specs::Steps::Relocating::word_added))]
pub(crate) fn add_word(part: &mut [u8], base: u64, place: usize)
    ensures { part.new ≡ word_added base place part.old }
{
    let w = words::bytes::word_at::<u64>(part, place);
    words::bytes::store::<u64>(part, place, w.wrapping_add(base));
}

// The words of a bitmap, the first of which is at `location`. The bound is a clause: a location is a plain place that grows by 8.
pub(crate) fn add_bits(
    part: &mut [u8],
    base: u64,
    b: Bounds,
    location: usize,
    bits: u64,
) -> Result<(), Refusal>
    requires { location ≤ far }
    ensures { summed (refused_by result) part.new ≡ add_bits base (b.entry.segments.now) 63 location bits part.old }
{
    let mut p = location;
    let mut left = bits;
    for _ in 0..63u32 {
        if left % 2 == 1 {
            if !object::table_bytes::in_writable(b, p, 8) {
                return Err(Refusal::NotWritable);
            }
            add_word(part, base, p);
        }
        p += 8;
        left /= 2;
    }
    Ok(())
}

// The word at `place`, all of it in the part, gains the base.
#[tactic(auto, unfolding(crate::specs::Steps::Relocating::word_added))]
fn add_word_in(part: &mut [u8], base: u64, place: usize)
    requires { place + 8 ≤ length part.old }
    ensures { part.new ≡ word_added base place part.old }
{
    let w = u64::load(part, place);
    words::bytes::store_in::<u64>(part, place, w.wrapping_add(base));
}

// The words of a bitmap whose 63 words are in the part and in one writable segment: no test for each.
fn add_bits_in(part: &mut [u8], base: u64, location: usize, bits: u64)
    requires { location + 504 ≤ length part.old }
    ensures { BitsPassed base location bits part.old part.new }
{
    let mut p = location;
    let mut left = bits;
    for _ in 0..63u32 {
        if left % 2 == 1 {
            add_word_in(part, base, p);
        }
        p += 8;
        left /= 2;
    }
}

// The same, where all 63 bits are set: without the test of each bit a word takes 4 instructions and not 8.5 (bench iv: at most 1.0 of the Rust's
// instructions; 0.95 now, 1.1 with the test), and a function of both would have both cases in its clause. So for add_bits beside add_bits_in and
// add_word beside add_word_in, with the test of each place and without.
fn add_all_in(part: &mut [u8], base: u64, location: usize)
    requires { location + 504 ≤ length part.old }
    ensures { BitsPassed base location (2 ^ 63 - 1) part.old part.new }
{
    let mut p = location;
    for _ in 0..63u32 {
        add_word_in(part, base, p);
        p += 8;
    }
}

// The words of any bitmap.
pub(crate) fn add_bitmap(
    part: &mut [u8],
    base: u64,
    b: Bounds,
    location: usize,
    bits: u64,
) -> Result<(), Refusal>
    requires { location ≤ far }
    ensures { summed (refused_by result) part.new ≡ add_bits base (b.entry.segments.now) 63 location bits part.old }
{
    let size = part.len();
    if size < 504 || size - 504 < location || !object::table_bytes::in_writable(b, location, 504) {
        return add_bits(part, base, b, location, bits);
    }
    if bits == 0x7fff_ffff_ffff_ffff {
        add_all_in(part, base, location);
    } else {
        add_bits_in(part, base, location, bits);
    }
    Ok(())
}

// One entry; the location after it. A location of 2^62 is no place of any object: it stands for none, and sums are cut at it, in the definitions
// too (`far`).
pub(crate) fn add_relr(
    part: &mut [u8],
    base: u64,
    b: Bounds,
    location: usize,
    e: Relr,
) -> Result<usize, Refusal>
    requires { location ≤ far }
    ensures near { IfOk result (λ next. next ≤ far) }
    ensures goes_on { Moves result part.new (add_relr base (b.entry.segments.now) location e part.old) }
{
    match e {
        Relr::Address(p) => {
            if !object::table_bytes::in_writable(b, p, 8) {
                return Err(Refusal::NotWritable);
            }
            add_word(part, base, p);
            Ok(words::bytes::place(0x4000_0000_0000_0000, p, 8))
        }
        Relr::Bitmap(bits) => {
            add_bitmap(part, base, b, location, bits)?;
            Ok(words::bytes::place(0x4000_0000_0000_0000, location, 504))
        }
    }
}

// A count, cut to 32 bits.
pub(crate) fn cut_to_32(n: usize) -> u32
    ensures { result ≡ cut_to32 n }
{
    if n < 0xffff_ffff {
        return n as u32;
    }
    0xffff_ffff
}

// Entry `i` of the table at `table`, in the object's span.
pub(crate) fn relr_in(part: &[u8], span: usize, table: usize, i: u32) -> u64
    ensures { result ≡ relr_at (take span part.now) table i }
{
    object::relocate::relr_at(sheet::sheet::part_of(part, 0, span), table, i)
}

// All words that RELR names.
pub(crate) fn add_relrs(part: &mut [u8], t: Turn, o: &ObjectData) -> Result<(), Refusal>
    ensures { summed (refused_by result) part.new ≡ add_relrs t (held_by o.now) (cut_to32 o.now.relrs) 0 far part.old }
{
    let b = object::dynamic_fields::bounds_of(o);
    let table = o.relr;
    let mut location = 0x4000_0000_0000_0000;
    for i in 0..cut_to_32(o.relrs) {
        let e = object::relocate::relr_of(relr_in(part, t.span, table, i));
        location = add_relr(part, t.base, b, location, e)?;
    }
    Ok(())
}

// The same, of the object at its place in the arena: its part is lent, which has no bytes where the arena ends before its offset.
pub(crate) fn run_relrs(arena: &mut [u8], t: Turn, o: &ObjectData) -> Result<(), Refusal>
    ensures { summed (refused_by result) arena.new ≡ run_relrs t (held_by o.now) arena.old }
{
    let off = t.offset.min(arena.len());
    add_relrs(&mut arena[off..], t, o)
}
