// Marks of the symbols whose walks are known to pass.
ghost use Rattle.std.specs.Prelude.{◌≡◌, true, ◌+◌, ◌*◌, ◌^◌, ◌<◌, IfSome};
ghost use Rattle.object.specs.Steps.Marks.{MarkAt, NewMark, MarksMore};

use crate::hash_tables::HashTable;

// Marks of symbols, a bit each: mark `j` is that of symbol `low + j * step`.
#[derive(Drop)]
pub(crate) struct Marks {
    pub(crate) words: [u64; 2048],
    pub(crate) low: usize,
    pub(crate) step: usize,
    ghost steps: { 0 < step },
}

impl Marks {
    // The number of the mark of symbol `s`, if it has one.
    fn mark_of(&self, s: usize) -> Option<usize>
        ensures { IfSome result (λ j. (j < 131072) × (s ≡ self.now.low + j * self.now.step)) }
    {
        if s < self.low {
            return None;
        }
        let d = s - self.low;
        if self.step == 1 {
            return (d < 131072).then_some(d);
        }
        let j = d / self.step;
        (d % self.step == 0 && j < 131072).then_some(j)
    }

    // Whether symbol `s` is marked.
    pub(crate) fn holds(&self, s: usize) -> bool
        ensures { result ≡ true → MarkAt self.now.words self.now.low self.now.step s }
    {
        self.mark_of(s)
            .is_some_and(|j| (self.words[j / 64] >> ((j % 64) as u32)) % 2 == 1)
    }

    // Marks symbol `s`, if it has a mark; whether it was marked. No one test: a word is written after the last.
    fn set(&mut self, s: usize) -> bool
        ensures { (self.new.low ≡ self.old.low) × (self.new.step ≡ self.old.step) × NewMark self.old.words self.new.words self.old.low self.old.step s }
    {
        let Some(j) = self.mark_of(s) else {
            return false;
        };
        let w = self.words[j / 64];
        let i = (j % 64) as u32;
        if (w >> i) % 2 == 1 {
            return true;
        }
        self.words[j / 64] = w | bit(i);
        false
    }

    // Marks the symbols of the walk from `word`, to its end or a marked one.
    pub(crate) fn set_walk(&mut self, image: &[u8], t: HashTable, word: u32)
        ensures { (self.new.low ≡ self.old.low) × (self.new.step ≡ self.old.step) × MarksMore image.now t self.old.low self.old.step self.old.words self.new.words word }
    {
        let mut s = word as usize;
        for _ in 0..crate::hash_tables::fuel_of(image, t) {
            if self.set(s) {
                return;
            }
            let w = crate::hash_tables::chain_word(image, t, s);
            if crate::hash_tables::is_last(t, w) {
                return;
            }
            s = crate::hash_tables::next_symbol(t, s, w);
        }
    }
}

// Bit `k` of a word.
fn bit(k: u32) -> u64
    requires { k < 64 }
    ensures { result ≡ 2 ^ k }
{
    1 << k
}
