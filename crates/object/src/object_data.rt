// One object, from its file: port of objects/object_data/mod.rs (`from_file`, `from_base`).
ghost use Rattle.std.specs.Prelude.{◌≡◌, true, false};
ghost use Rattle.object.specs.Header.{header_refusal};
ghost use Rattle.object.specs.Placed.{segments_of, file_refusal, Checked, CheckedBy, PlacedBy};
ghost use Rattle.object.specs.Runs.{runs_of};
ghost use Rattle.object.specs.Steps.WriteRuns.{write_runs};
ghost use Rattle.object.specs.Loaded.{LoadedBy};

use crate::dynamic_fields::ObjectData;
use crate::program_header::{Loads, Segment};
use words::copy_vec::CopyVec;
use words::refusal::Refusal;

// An object that passed the header checks: its span, its alignment and its load segments, of which the host has none.
#[derive(Clone, Copy)]
pub struct Placed {
    pub span: usize,
    pub align: usize,
    pub loads: Loads,
}

// The host, of which refusals 4 to 6 were passed. That stays a clause, here and in two others: anyone may hand in a file, and a type for one
// that was passed would be unpacked in each.
fn check_host(file: &[u8]) -> Result<Placed, Refusal>
    requires { header_refusal file.now ≡ 0 }
    ensures { CheckedBy true file.now result }
{
    if file.len() % 4096 != 0 {
        return Err(Refusal::Segments);
    }
    Ok(Placed {
        span: file.len(),
        align: 4096,
        loads: CopyVec::new(),
    })
}

// The program or a library, of which refusals 4 to 6 were passed.
fn check_file(file: &[u8]) -> Result<Placed, Refusal>
    requires { header_refusal file.now ≡ 0 }
    ensures { CheckedBy false file.now result }
{
    let Ok(loads) = crate::program_header::read_loads(file) else {
        return Err(Refusal::Segments);
    };
    if !crate::segments::segments_ok(file, &loads) {
        return Err(Refusal::Segments);
    }
    if !crate::alignment::aligns_ok(&loads) {
        return Err(Refusal::Alignment);
    }
    Ok(Placed {
        span: crate::segments::span_of(&loads),
        align: crate::alignment::align_of(&loads),
        loads,
    })
}

// Checks an object by its headers, which its file alone decides: refusals 4 to 7, and 21.
pub fn check_headers(file: &[u8], host: bool) -> Result<Placed, Refusal>
    ensures { CheckedBy host file.now result }
{
    crate::header::check_header(file)?;
    if host {
        return check_host(file);
    }
    check_file(file)
}

// Writes the runs of an object whose headers were checked at the start of `part`, and no other byte.
fn place_runs(part: &mut [u8], file: &[u8], host: bool, segments: &[Segment])
    requires { (file_refusal host file.now ≡ 0) × (segments.now ≡ segments_of host file.now) }
    ensures { part.new ≡ write_runs file.now (runs_of host file.now) part.old }
{
    if host {
        words::bytes::copy(part, 0, file, 0, file.len());
        return;
    }
    crate::segments::place_segments(part, file, segments);
}

// Places an object whose headers were checked at the start of `part`, the arena from the object's offset to its end: refusal 8. That they were
// stays a clause, here and in two others: a type of file, host and `checked` would be packed for one call alone.
pub fn place(part: &mut [u8], file: &[u8], host: bool, checked: &Placed) -> Result<(), Refusal>
    requires { Checked host file.now checked.now }
    ensures { PlacedBy host file.now part.old part.new result }
{
    if part.len() < checked.span {
        return Err(Refusal::Room);
    }
    place_runs(part, file, host, &checked.loads);
    Ok(())
}

// Places an object whose headers were checked at the start of `part`, the arena from the object's offset to its end, and reads its record:
// refusals 8 to 12.
pub fn load(
    part: &mut [u8],
    file: &[u8],
    host: bool,
    checked: &Placed,
) -> Result<ObjectData, Refusal>
    requires { Checked host file.now checked.now }
    ensures { LoadedBy host file.now part.old part.new result }
{
    place(part, file, host, checked)?;
    let d = crate::program_header::dynamic_at(file);
    let span = checked.span;
    crate::dynamic_fields::read_object(&part[..span], &checked.loads, d, host)
}
