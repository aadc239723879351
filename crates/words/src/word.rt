// The words of two, four and eight bytes.
ghost use Rattle.std.specs.Prelude.{◌≡◌, ℕ, ◌+◌, ◌≤◌, length};
ghost use Rattle.std.proofs.Common.{rules};
ghost use Rattle.words.specs.Memory.{mem};
ghost use Rattle.words.specs.Words.{le_at};

pub trait Word: Copy {
    ghost WIDTH: { ℕ };

    ghost value: { Self → ℕ };

    // How many bytes it has.
    const WIDTH: usize;

    // The word that stands little-endian at `at`, all of it in the slice.
    fn load(s: &[u8], at: usize) -> Self
        requires { at + WIDTH ≤ length s.now }
        ensures { value result ≡ le_at WIDTH (mem s.now) at };

    ghost small: { WIDTH ≤ 8 };
}

impl Word for u16 {
    ghost WIDTH = { 2 };

    ghost value = { λ x. x };

    ghost small = { Prim.search rules };

    const WIDTH: usize = 2;

    #[tactic(auto, unfolding(crate::specs::Words::le_at, crate::specs::Memory::mem))]
    fn load(s: &[u8], at: usize) -> u16 {
        u16::from_le_bytes([s[at], s[at + 1]])
    }
}

impl Word for u32 {
    ghost WIDTH = { 4 };

    ghost value = { λ x. x };

    ghost small = { Prim.search rules };

    const WIDTH: usize = 4;

    #[tactic(auto, unfolding(crate::specs::Words::le_at, crate::specs::Memory::mem))]
    fn load(s: &[u8], at: usize) -> u32 {
        u32::from_le_bytes([s[at], s[at + 1], s[at + 2], s[at + 3]])
    }
}

impl Word for u64 {
    ghost WIDTH = { 8 };

    ghost value = { λ x. x };

    ghost small = { Prim.search rules };

    const WIDTH: usize = 8;

    #[tactic(auto, unfolding(crate::specs::Words::le_at, crate::specs::Memory::mem))]
    fn load(s: &[u8], at: usize) -> u64 {
        u64::from_le_bytes([
            s[at],
            s[at + 1],
            s[at + 2],
            s[at + 3],
            s[at + 4],
            s[at + 5],
            s[at + 6],
            s[at + 7],
        ])
    }
}
