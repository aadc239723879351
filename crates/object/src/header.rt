// The ELF header: port of header.rs, with refusals 4, 5 and 6.
ghost use Rattle.std.specs.Prelude.{◌≡◌, ◌<◌};
ghost use Rattle.words.specs.Refusal.{refused_by};
ghost use Rattle.object.specs.Header.{is_shared_object, is_x86, headers_inside, header_refusal, table_start, header_count};

use words::refusal::Refusal;

// Refusal 4: whether the file has an ELF header, and is a shared object.
#[tactic(auto, unfolding(crate::specs::Header::is_shared_object))]
fn is_shared_object(file: &[u8]) -> bool
    ensures { result ≡ is_shared_object file.now }
{
    64 <= file.len()
        && words::bytes::word_at::<u32>(file, 0) == 0x464c_457f
        && words::bytes::word_at::<u16>(file, 16) == 3
}

// Refusal 5: whether the file is for x86-64.
#[tactic(auto, unfolding(crate::specs::Header::is_x86))]
fn is_x86(file: &[u8]) -> bool
    ensures { result ≡ is_x86 file.now }
{
    words::bytes::byte_at(file, 4, 0) == 2
        && words::bytes::byte_at(file, 5, 0) == 1
        && words::bytes::word_at::<u16>(file, 18) == 62
        && words::bytes::word_at::<u16>(file, 54) == 56
}

// Refusal 6: whether there are 64 program headers at most, and their table is inside the file.
#[tactic(auto, unfolding(crate::specs::Header::headers_inside))]
fn headers_inside(file: &[u8]) -> bool
    ensures { result ≡ headers_inside file.now }
{
    let count = header_count(file);
    count <= 64 && 56 * count <= file.len() && table_start(file) <= file.len() - 56 * count
}

// Checks a file by its ELF header.
#[tactic(auto, unfolding(crate::specs::Header::header_refusal, crate::specs::Refusal::require))]
pub fn check_header(file: &[u8]) -> Result<(), Refusal>
    ensures { refused_by result ≡ header_refusal file.now }
{
    if !is_shared_object(file) {
        return Err(Refusal::NoSharedObject);
    }
    if !is_x86(file) {
        return Err(Refusal::OtherMachine);
    }
    if !headers_inside(file) {
        return Err(Refusal::HeaderTable);
    }
    Ok(())
}

// e_phoff and e_phnum.
pub fn table_start(file: &[u8]) -> usize
    ensures { result ≡ table_start file.now }
{
    words::bytes::word_at::<u64>(file, 32) as usize
}

pub fn header_count(file: &[u8]) -> usize
    ensures { (result ≡ header_count file.now) × (result < 65536) }
{
    words::bytes::word_at::<u16>(file, 56) as usize
}
