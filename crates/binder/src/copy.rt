// COPY relocations: refusals 17 and 18, and the bytes.
ghost use Rattle.std.specs.Prelude.{◌≡◌, ◌+◌, take, nat_le};
ghost use Rattle.binder.specs.Steps.Relocating.{wrote, copy_fits, copy_bytes};

use crate::Refused;
use crate::turn::Turn;
use object::hash_tables::Definition;
use object::table_bytes::Bounds;
use scope::links::Link;
use words::refusal::Refusal;

// Whether the `n` bytes at `place` of what starts at `off` end inside `size` bytes.
pub(crate) fn ends_inside(size: usize, off: usize, place: usize, n: usize) -> bool
    ensures { result ≡ nat_le (off + place + n) size }
{
    off <= size && place <= size - off && n <= size - off - place
}

// Whether a COPY of `n` bytes of the definition `d`, in the object at the link `s`, to the place `to` passes refusal 18; `size` is the
// arena's length.
#[tactic(auto, unfolding(crate::specs::Steps::Relocating::copy_fits))]
pub(crate) fn copy_fits(size: usize, t: Turn, to: usize, s: Link, d: Definition, n: usize) -> bool
    ensures { result ≡ copy_fits size t to s d n }
{
    let value = d.value as usize;
    !d.absolute
        && ends_inside(s.span, 0, value, n)
        && ends_inside(size, t.offset, to, n)
        && ends_inside(size, s.offset, value, n)
        && (t.offset + to + n <= s.offset + value || s.offset + value + n <= t.offset + to)
}

// Type 5, where the definition `d` was found in the object at the link `s`: `n` bytes.
#[tactic(auto, unfolding(crate::specs::Steps::Relocating::copy_bytes))]
pub(crate) fn copy_found(
    arena: &mut [u8],
    t: Turn,
    b: Bounds,
    to: usize,
    s: Link,
    d: Definition,
    n: usize,
) -> Result<(), Refused>
    ensures { wrote result arena.new ≡ copy_bytes t (b.entry.segments.now) to s d n arena.old }
{
    if n == 0 {
        return Ok(());
    }
    if !object::table_bytes::in_writable(b, to, n) {
        return Err(t.refused(Refusal::NotWritable));
    }
    if !copy_fits(arena.len(), t, to, s, d, n) {
        return Err(t.refused(Refusal::CopyRange));
    }
    crate::turn::copy_part(arena, t.offset, to, s.offset + (d.value as usize), n);
    Ok(())
}
