// Addresses go to a list; words that fall past its end are dropped, and counted all the same.
ghost use Rattle.std.specs.Prelude.{◌≡◌, ◌+◌, ◌*◌, ◌^◌, ◌≤◌, ◌<◌, ◌∷◌, []};
ghost use Rattle.std.specs.Iterator.{UpTo};
ghost use Rattle.std.specs.Iterator.Runs.{WholeRun};
ghost use Rattle.words.specs.Memory.{mem};
ghost use Rattle.words.specs.Words.{le_at};
ghost use Rattle.start_stop.specs.StartStop.{function_of, words_of, starts_of, stops_of, start_list, stop_list};
ghost use Rattle.start_stop.specs.Steps.Rows.{row_at, FewWords, AllFew};
ghost use Rattle.start_stop.specs.Steps.Bound.{calls_by};
ghost use Rattle.start_stop.specs.Steps.Listed.{Put, Pushed};

use crate::bound::Bound;
use crate::rows::Array;

impl Array {
    // Word `i` of an array of these bytes.
    fn word(self, bytes: &[u8], i: usize) -> u64
        requires { i < 2 ^ 25 }
        ensures { result ≡ le_at 8 (mem bytes.now) (self.at + 8 * i) }
    {
        words::bytes::word_off(bytes, self.at, 8 * i)
    }
}

// A list of addresses, and how many went to it.
#[derive(Drop)]
struct Addresses<'a> {
    words: &'a mut [u64],
    used: usize,
}

impl Addresses<'_> {
    #[tactic(auto, using(crate::proofs::ListLaws::put_word, crate::proofs::ListLaws::put_past))]
    fn push(&mut self, address: u64)
        requires { self.old.used < 2 ^ 41 }
        ensures same_reference { self.new.words.ghost_name ≡ self.old.words.ghost_name }
        ensures pushed { Pushed (address ∷ []) self.old self.new }
    {
        if self.used < self.words.len() {
            self.words[self.used] = address;
        }
        self.used += 1;
    }

    // DT_INIT or DT_FINI: a value of 0 is none.
    #[tactic(auto, using(crate::proofs::ListLaws::put_none), unfolding(crate::specs::StartStop::function_of))]
    fn push_function(&mut self, base: u64, value: u64)
        requires { self.old.used < 2 ^ 41 }
        ensures same_reference { self.new.words.ghost_name ≡ self.old.words.ghost_name }
        ensures few { self.new.used ≤ self.old.used + 1 }
        ensures pushed { Pushed (function_of base value) self.old self.new }
    {
        if value != 0 {
            self.push(base.wrapping_add(value));
        }
    }

    // All of an iterator, one after another.
    fn extend<I: Iterator<Item = u64> + Drop>(&mut self, addresses: I)
        requires can { I.can_next addresses }
        requires ends { UpTo (I.remaining addresses) (2 ^ 25) }
        requires room { self.old.used < 2 ^ 40 }
        ensures same_reference { self.new.words.ghost_name ≡ self.old.words.ghost_name }
        ensures few { self.new.used ≤ self.old.used + 2 ^ 25 }
        ensures pushed { WholeRun I.next_gives addresses (λ p. Pushed p.items self.old self.new) }
    {
        for address in addresses {
            self.push(address);
        }
    }

    // The words of an array of these bytes, from first to last.
    fn push_array(&mut self, bytes: &[u8], array: Array)
        requires { (self.old.used < 2 ^ 40) × (array.count ≤ 2 ^ 25) }
        ensures same_reference { self.new.words.ghost_name ≡ self.old.words.ghost_name }
        ensures few { self.new.used ≤ self.old.used + 2 ^ 25 }
        ensures pushed { Pushed (words_of (mem bytes.now) array) self.old self.new }
    {
        self.extend((0..array.count).map(|i| array.word(bytes, i)));
    }

    // Object `k` is started: DT_INIT, then its init array from first to last.
    fn push_starts(&mut self, set: &Bound, k: usize)
        requires { (self.old.used < 2 ^ 39) × FewWords set.now.rows.now k }
        ensures same_reference { self.new.words.ghost_name ≡ self.old.words.ghost_name }
        ensures few { self.new.used ≤ self.old.used + 2 ^ 26 }
        ensures pushed { Pushed (starts_of (calls_by set.now k)) self.old self.new }
    {
        let row = set.row(k);
        self.push_function(set.base(k), row.init);
        self.push_array(set.bytes(k), row.inits);
    }

    // Object `k` is stopped: its fini array from last to first, then DT_FINI.
    fn push_stops(&mut self, set: &Bound, k: usize)
        requires { (self.old.used < 2 ^ 39) × FewWords set.now.rows.now k }
        ensures same_reference { self.new.words.ghost_name ≡ self.old.words.ghost_name }
        ensures few { self.new.used ≤ self.old.used + 2 ^ 26 }
        ensures pushed { Pushed (stops_of (calls_by set.now k)) self.old self.new }
    {
        let row = set.row(k);
        let bytes = set.bytes(k);
        self.extend((0..row.finis.count).rev().map(|i| row.finis.word(bytes, i)));
        self.push_function(set.base(k), row.fini);
    }
}

// The start list: the program's preinit array, then the objects in their order.
pub(crate) fn put_start(list: &mut [u64], set: &Bound) -> usize
    requires { ((row_at set.now.rows.now 1).preinits.count ≤ 2 ^ 25) × AllFew set.now.rows.now set.now.order.now }
    ensures { Put (start_list (calls_by set.now) set.now.order.now) 0 list.old list.new result }
{
    let mut addresses = Addresses {
        words: list,
        used: 0,
    };
    addresses.push_array(set.bytes(1), set.row(1).preinits);
    for k in set.order {
        addresses.push_starts(set, *k as usize);
    }
    addresses.used
}

// The stop list: the objects backwards.
pub(crate) fn put_stop(list: &mut [u64], set: &Bound) -> usize
    requires { AllFew set.now.rows.now set.now.order.now }
    ensures { Put (stop_list (calls_by set.now) set.now.order.now) 0 list.old list.new result }
{
    let mut addresses = Addresses {
        words: list,
        used: 0,
    };
    for k in set.order.iter().rev() {
        addresses.push_stops(set, *k as usize);
    }
    addresses.used
}
