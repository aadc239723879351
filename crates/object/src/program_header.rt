// Program headers: port of program_header.rs. The flags are the gABI's: PF_X 1, PF_W 2, PF_R 4.
ghost use Rattle.std.specs.Prelude.{◌≡◌, ◌<◌};
ghost use Rattle.object.specs.Header.{table_start};
ghost use Rattle.object.specs.ProgramHeader.{type_at, segment_at, loads_of, dynamic_of};
ghost use Rattle.object.specs.Steps.FirstOf.{FirstOf};

use crate::header::{header_count, table_start};
use words::copy_vec::CopyVec;

// A PT_LOAD header.
#[derive(Clone, Copy, Default)]
pub struct Segment {
    pub offset: usize,
    pub vaddr: usize,
    pub filesz: usize,
    pub memsz: usize,
    pub flags: u32,
    pub align: usize,
}

// The PT_LOAD headers that a record keeps.
pub type Loads = CopyVec<Segment, 16>;

// p_type of header `i`.
fn type_at(file: &[u8], start: usize, i: usize) -> u32
    requires { (start ≡ table_start file.now) × (i < 65536) }
    ensures { result ≡ type_at file.now i }
{
    words::bytes::word_off::<u32>(file, start, 56 * i)
}

// The other fields of header `i`.
fn segment_at(file: &[u8], start: usize, i: usize) -> Segment
    requires { (start ≡ table_start file.now) × (i < 65536) }
    ensures { result ≡ segment_at file.now i }
{
    let k = 56 * i;
    Segment {
        offset: words::bytes::word_off::<u64>(file, start, k + 8) as usize,
        vaddr: words::bytes::word_off::<u64>(file, start, k + 16) as usize,
        filesz: words::bytes::word_off::<u64>(file, start, k + 32) as usize,
        memsz: words::bytes::word_off::<u64>(file, start, k + 40) as usize,
        flags: words::bytes::word_off::<u32>(file, start, k + 4),
        align: words::bytes::word_off::<u64>(file, start, k + 48) as usize,
    }
}

// The PT_LOAD headers, in their order; as an error the first 16 where there are more.
pub fn read_loads(file: &[u8]) -> Result<Loads, Loads>
    ensures { FirstOf 16 (loads_of file.now) result }
{
    let start = table_start(file);
    let mut found = CopyVec::new();
    for i in 0..header_count(file) {
        if type_at(file, start, i) == 1 {
            if found.is_full() {
                return Err(found);
            }
            found.push(segment_at(file, start, i));
        }
    }
    Ok(found)
}

// Where the dynamic array stands: p_vaddr of the last PT_DYNAMIC, where there is one.
#[tactic(auto, unfolding(crate::specs::ProgramHeader::dynamic_in))]
pub fn dynamic_at(file: &[u8]) -> Option<usize>
    ensures { result ≡ dynamic_of file.now }
{
    let start = table_start(file);
    let i = (0..header_count(file))
        .rev()
        .find(|i| type_at(file, start, *i) == 2)?;
    Some(segment_at(file, start, i).vaddr)
}
