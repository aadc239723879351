// Little-endian words in byte slices, copies and zero fill. A byte past a slice's end reads as 0, and a byte that is written there is
// dropped, so no function asks anything of its caller, but for `store_in` and `Word::load`: they are for loops whose places are known to be
// in the slice.
ghost use Rattle.std.specs.Prelude.{◌≡◌, ◌+◌, ◌≤◌, min, length};
ghost use Rattle.words.specs.Memory.{mem, from, patch};
ghost use Rattle.words.specs.Words.{le_at, byte_of};

use crate::word::Word;

// The place `at + k` of a slice of `n` bytes, or its end where that is past it: the sum may be more than a `usize` holds.
pub fn place(n: usize, at: usize, k: usize) -> usize
    ensures { result ≡ min (at + k) n }
{
    at.saturating_add(k).min(n)
}

// The byte `k` places after `at`.
#[tactic(auto, unfolding(crate::specs::Memory::mem))]
pub fn byte_at(s: &[u8], at: usize, k: usize) -> u8
    ensures { result ≡ mem s.now (at + k) }
{
    s.get(place(s.len(), at, k)).copied().unwrap_or(0)
}

// The word at `at`. What is done past the end stays out of line.
pub fn word_at<T: Word>(s: &[u8], at: usize) -> T
    ensures { T.value result ≡ le_at T.WIDTH (mem s.now) at }
{
    if T::WIDTH <= s.len() && at <= s.len() - T::WIDTH {
        return T::load(s, at);
    }
    word_past(s, at)
}

#[inline(never)]
fn word_past<T: Word>(s: &[u8], at: usize) -> T
    ensures { T.value result ≡ le_at T.WIDTH (mem s.now) at }
{
    let mut bytes = [0; 8];
    // a damaged table may lead past the end at each of its steps: nothing is copied then
    if at < s.len() {
        copy(&mut bytes, 0, s, at, T::WIDTH);
    }
    T::load(&bytes, 0)
}

// The word `k` places after `at`.
pub fn word_off<T: Word>(s: &[u8], at: usize, k: usize) -> T
    ensures { T.value result ≡ le_at T.WIDTH (mem s.now) (at + k) }
{
    word_at(s, place(s.len(), at, k))
}

// The low bytes of `v`, as many as a `T` has, go to the places from `at`, all of them in the slice.
pub fn store_in<T: Word>(s: &mut [u8], at: usize, v: u64)
    requires { at + T.WIDTH ≤ length s.old }
    ensures { s.new ≡ patch s.old at T.WIDTH (byte_of v) }
{
    s[at..at + T::WIDTH].copy_from_slice(&v.to_le_bytes()[..T::WIDTH]);
}

// The low bytes of `v`, as many as a `T` has, go to the places from `at`.
pub fn store<T: Word>(s: &mut [u8], at: usize, v: u64)
    ensures { s.new ≡ patch s.old at T.WIDTH (byte_of v) }
{
    if T::WIDTH <= s.len() && at <= s.len() - T::WIDTH {
        store_in::<T>(s, at, v);
    } else {
        copy(s, at, &v.to_le_bytes(), 0, T::WIDTH);
    }
}

// Zeros to the `n` places from `at`.
pub fn zero(s: &mut [u8], at: usize, n: usize)
    ensures { s.new ≡ patch s.old at n (λ _. 0) }
{
    let end = place(s.len(), at, n);
    if at < end {
        s[at..end].fill(0);
    }
}

// `n` bytes of `src` from `start`, zeros past its end, to the places of `dst` from `at`.
pub fn copy(dst: &mut [u8], at: usize, src: &[u8], start: usize, n: usize)
    ensures { dst.new ≡ patch dst.old at n (from start (mem src.now)) }
{
    let end = place(dst.len(), at, n);
    if at < end {
        let start = start.min(src.len());
        let there = (end - at).min(src.len() - start);
        dst[at..at + there].copy_from_slice(&src[start..start + there]);
        dst[at + there..end].fill(0);
    }
}
