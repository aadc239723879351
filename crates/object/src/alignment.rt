// The alignment of an object, and refusal 21: p_align of its PT_LOAD headers.
ghost use Rattle.std.specs.Prelude.{◌≡◌};
ghost use Rattle.std.specs.List.{list_all};
ghost use Rattle.object.specs.Alignment.{align_ok, align_of};

use crate::program_header::Segment;

// Whether the p_align of the segment is 0 or a power of two up to 2^21: these are its divisors.
fn align_ok(s: &Segment) -> bool
    ensures { result ≡ align_ok s.now }
{
    s.align == 0 || 0x20_0000 % s.align == 0
}

// Refusal 21: whether no segment has another p_align.
pub(crate) fn aligns_ok(segments: &[Segment]) -> bool
    ensures { result ≡ list_all align_ok segments.now }
{
    segments.iter().all(|s| align_ok(s))
}

// The largest p_align of the segments; 4,096 at least.
pub(crate) fn align_of(segments: &[Segment]) -> usize
    ensures { result ≡ align_of segments.now }
{
    segments.iter().fold(4096, |align, s| s.align.max(align))
}
