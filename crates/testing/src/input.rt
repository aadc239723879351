// Reading an input from its start on, and patches from it. A number's bytes are little-endian; those past the end are 0.
ghost use Rattle.std.specs.Prelude.{◌≡◌, take, drop};
ghost use Rattle.words.specs.Memory.{mem};
ghost use Rattle.words.specs.Words.{le_at};

use words::word::Word;

// What is left of an input.
#[derive(Clone, Copy)]
pub struct Input<'a> {
    pub rest: &'a [u8],
}

impl<'a> Input<'a> {
    // The next `n` bytes, as far as there are such.
    pub fn take(&mut self, n: usize) -> &'a [u8]
        ensures value { result.now ≡ take n self.old.rest.now }
        ensures rest { self.new.rest.now ≡ drop n self.old.rest.now }
    {
        let (text, rest) = self.rest.split_at(n.min(self.rest.len()));
        self.rest = rest;
        text
    }

    pub fn u8(&mut self) -> u8
        ensures value { result ≡ mem self.old.rest.now 0 }
        ensures rest { self.new.rest.now ≡ drop 1 self.old.rest.now }
    {
        let n = words::bytes::byte_at(self.rest, 0, 0);
        self.take(1);
        n
    }

    pub fn word<T: Word>(&mut self) -> T
        ensures value { T.value result ≡ le_at T.WIDTH (mem self.old.rest.now) 0 }
        ensures rest { self.new.rest.now ≡ drop T.WIDTH self.old.rest.now }
    {
        let n = words::bytes::word_at(self.rest, 0);
        self.take(T::WIDTH);
        n
    }
}

// The first `n` bytes, as far as there are such.
pub fn head<'a>(s: &'a [u8], n: usize) -> &'a [u8]
    ensures { result.now ≡ take n s.now }
{
    &s[..n.min(s.len())]
}

// The input's first bytes, other than zeros, so that what a call leaves shows.
pub fn stain(arena: &mut [u8], input: &[u8]) {
    let n = arena.len();
    words::bytes::copy(arena, 0, input, 0, n);
}

// The next `count` patches. A patch is a place (2 bytes), a length (1 byte, or 2 where lengths are `wide`) and so many bytes.
pub fn patches(bytes: &mut [u8], input: &mut Input, count: u16, wide: bool) {
    for _ in 0..count {
        let to = input.word::<u16>() as usize;
        let n = if wide {
            input.word::<u16>() as usize
        } else {
            input.u8() as usize
        };
        let text = input.take(n);
        words::bytes::copy(bytes, to, text, 0, n);
    }
}
