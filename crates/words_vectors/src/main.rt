// Runs the functions of `words` on the cases of standard input and prints what each gives, as sixteen hexadecimal digits on a line.
// Input: an image of 512 bytes, then cases of 32 bytes: four little-endian numbers, the function's number and its arguments a, b, c.
// tests/words_vectors.py makes the cases and, without this crate, the expected lines.
#![tactic(auto)]

use reading::read_full;
use std::io;
use words::bytes::{byte_at, copy, store, word_at, word_off, zero};
use words::hash::{elf_hash, gnu_hash};
use words::names::{name_at, name_off, same};
use words::page_size::{get_page_end, get_page_offset, get_page_start};

struct Case {
    function: u64,
    a: usize,
    b: usize,
    c: u64,
}

fn case_of(bytes: &[u8]) -> Case {
    Case {
        function: word_at(bytes, 0),
        a: word_at::<u64>(bytes, 8) as usize,
        b: word_at::<u64>(bytes, 16) as usize,
        c: word_at(bytes, 24),
    }
}

// What the case gives. Of a store, a fill or a copy, which take their bytes from `src`, that is the hash of the whole image after it.
fn answer(image: &mut [u8], src: &[u8], case: Case) -> u64 {
    let Case { function, a, b, c } = case;
    // The numbers are the input's: a type of their names would be this same list again.
    match function {
        1 => byte_at(image, a, b) as u64,
        2 => word_at::<u16>(image, a) as u64,
        3 => word_at::<u32>(image, a) as u64,
        4 => word_at(image, a),
        5 => word_off::<u16>(image, a, b) as u64,
        6 => word_off::<u32>(image, a, b) as u64,
        7 => word_off(image, a, b),
        8 => name_at(image, a).len() as u64,
        9 => name_off(image, a, b).len() as u64,
        10 => gnu_hash(name_at(image, a)) as u64,
        11 => elf_hash(name_at(image, a)) as u64,
        0 | 12 => u64::from(same(name_at(image, a), name_at(image, b))),
        13 => get_page_start(a) as u64,
        14 => get_page_offset(a) as u64,
        15 => get_page_end(a) as u64,
        16 => a.wrapping_add(b) as u64,
        17 => a.saturating_sub(b) as u64,
        18 | 19 => a.min(b) as u64,
        _ => {
            match function {
                20 => store::<u32>(image, a, c),
                21 => store::<u64>(image, a, c),
                22 => zero(image, a, b),
                _ => copy(image, a, src, b, c as usize),
            }
            gnu_hash(image) as u64
        }
    }
}

// Each case is on the image as the case before left it.
fn main(rt: HostRuntime) -> io::Result<()> {
    let mut input = [0u8; 65536];
    let n = read_full(&mut rt.stdin(), &mut input)?;
    let mut image = [0u8; 512];
    copy(&mut image, 0, &input[..n], 0, 512);
    for bytes in input[n.min(512)..n].chunks_exact(32) {
        let r = answer(&mut image, &input[..n], case_of(bytes));
        println!(rt; "{r:016x}")?;
    }
    Ok(())
}
