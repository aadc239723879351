// How far binding has come, and the words of the report.
ghost use Rattle.std.specs.Prelude.{◌≡◌, None};
ghost use Rattle.binder.specs.Steps.Relocating.{noted, started, keeps, note_of, undefined_in, unresolved_of};

use object::symbol::Symbol;

// The answer of a search that is kept: the symbol of the object by its index, and the address that was found.
#[derive(Clone, Copy)]
pub struct Kept {
    pub symbol: u32,
    pub address: u64,
}

// How far binding has come. The report is lent beside it: a struct with both would have to say in each of nine contracts that its reference
// stays the same, as start_stop's `Addresses` does.
#[derive(Clone, Copy)]
pub struct Progress {
    // how many words the report has, and whether there was no room for one
    pub words: usize,
    pub full: bool,
    // the first object that has an undefined entry. No Option: object 0, the host, has no entries, and the definitions, too, say 0 for none
    pub undefined: u32,
    pub kept: Option<Kept>,
}

impl Progress {
    // Before any object's turn.
    pub(crate) fn new() -> Progress
        ensures { result ≡ started }
    {
        Progress {
            words: 0,
            full: false,
            undefined: 0,
            kept: None,
        }
    }

    // Before an object's turn no answer is kept: a symbol's index is the object's own.
    pub(crate) fn forget(&mut self)
        ensures { self.new ≡ keeps None self.old }
    {
        self.kept = None;
    }

    // Adds a word to the report, where there is room.
    #[tactic(auto, unfolding(crate::specs::Steps::Relocating::note_of))]
    pub(crate) fn note(&mut self, report: &mut [u32], w: u32)
        ensures { noted self.new report.new ≡ note_of w self.old report.old }
    {
        if self.words < report.len() {
            report[self.words] = w;
            self.words += 1;
        } else {
            self.full = true;
        }
    }

    // Object `k` has an undefined entry.
    fn mark_undefined(&mut self, k: u32)
        ensures { self.new ≡ undefined_in k self.old }
    {
        if self.undefined == 0 {
            self.undefined = k;
        }
    }

    // Entry `i` of object `k`, whose symbol was found nowhere: undefined, unless the symbol is weak.
    #[tactic(auto, unfolding(crate::specs::Steps::Relocating::unresolved_of))]
    pub(crate) fn unresolved(&mut self, report: &mut [u32], y: Symbol, k: u32, i: u32)
        ensures { noted self.new report.new ≡ unresolved_of y k i self.old report.old }
    {
        if object::symbol::binding(y) != 2 {
            self.note(report, std::num::wrapping_add_u32(0x6000_0000, i));
            self.mark_undefined(k);
        }
    }
}
