// The two hashes of a symbol's name: from hash_tables.rs.
ghost use Rattle.std.specs.Prelude.{◌≡◌};
ghost use Rattle.words.specs.Hash.{gnu_step, gnu_hash, elf_step, elf_hash};

// The hash times 33 plus the byte, modulo 2^32.
pub fn wrapping_mul33_add(h: u32, b: u8) -> u32
    ensures { result ≡ gnu_step h b }
{
    h.wrapping_mul(33).wrapping_add(b as u32)
}

#[tactic(auto, unfolding(crate::specs::Hash::gnu_hash))]
pub fn gnu_hash(name: &[u8]) -> u32
    ensures { result ≡ gnu_hash name.now }
{
    name.iter().fold(5381, |h, b| wrapping_mul33_add(h, *b))
}

// One byte of the System V hash, as the gABI writes it.
pub fn elf_step(h: u32, b: u8) -> u32
    ensures { result ≡ elf_step h b }
{
    let shifted = (h << 4).wrapping_add(b as u32);
    let high = shifted & 0xf000_0000;
    (shifted ^ (high >> 24)) & !high
}

#[tactic(auto, unfolding(crate::specs::Hash::elf_hash))]
pub fn elf_hash(name: &[u8]) -> u32
    ensures { result ≡ elf_hash name.now }
{
    name.iter().fold(0, |h, b| elf_step(h, *b))
}
