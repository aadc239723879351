// The object whose turn it is to be relocated: each writes in its own part of the arena, from its offset to the arena's end.
ghost use Rattle.std.specs.Prelude.{◌≡◌, ◌+◌, ◌≤◌, length, slice_set};
ghost use Rattle.words.specs.Memory.{mem, from, patch};
ghost use Rattle.words.specs.Words.{byte_of};
ghost use Rattle.words.specs.Refusal.{refusal_number};
ghost use Rattle.binder.specs.Steps.Relocating.{image_in, CopyApart, turn_of};

use crate::Refused;
use scope::links::Links;
use words::refusal::Refusal;
use words::word::Word;

// The object whose turn it is: its number, its part of the arena, and its base.
#[derive(Clone, Copy)]
pub struct Turn {
    pub number: u32,
    pub offset: usize,
    pub span: usize,
    pub base: u64,
}

impl Turn {
    // It meets a refusal.
    pub(crate) fn refused(self, refusal: Refusal) -> Refused
        ensures { result ≡ record { number = refusal_number refusal; object = self.number } }
    {
        Refused::new(refusal, self.number)
    }
}

pub(crate) fn turn_of(links: &Links, k: u32) -> Turn
    ensures { result ≡ turn_of links.now k }
{
    let s = links.link(k as usize);
    Turn {
        number: k,
        offset: s.offset,
        span: s.span,
        base: links.address().wrapping_add(s.offset as u64),
    }
}

// The bytes of the object whose turn it is.
pub(crate) fn image_of<'a>(arena: &'a [u8], t: Turn) -> &'a [u8]
    ensures { result.now ≡ image_in arena.now t }
{
    sheet::sheet::part_of(arena, t.offset, t.span)
}

// The low bytes of `v`, as many as a `T` has, go to the places from `place` of the object at `off`.
pub(crate) fn write<T: Word>(arena: &mut [u8], off: usize, place: usize, v: u64)
    ensures { arena.new ≡ patch arena.old (off + place) T.WIDTH (byte_of v) }
{
    if arena.len() < off {
        return;
    }
    words::bytes::store::<T>(&mut arena[off..], place, v);
}

// The `n` bytes at `start` of the arena go to the place `to` of the object at `off`; the two ranges are apart.
pub(crate) fn copy_part(arena: &mut [u8], off: usize, to: usize, start: usize, n: usize)
    requires { CopyApart (length arena.old) (off + to) start n }
    ensures { arena.new ≡ patch arena.old (off + to) n (from start (mem arena.old)) }
{
    arena.copy_within(start..start + n, off + to);
}
