// Document 01's program, but for reading standard input and writing standard output.
#![tactic(auto)]

ghost use Rattle.std.specs.Prelude.{◌≡◌, ◌+◌, ◌*◌, ◌≤◌, ◌<◌, length, drop, replicate};
ghost use Rattle.words.specs.Memory.{tab, patch};
ghost use Rattle.binder.specs.declared.Policy.TheVariants.{Lenient};
ghost use Rattle.binder.specs.Verdict.{passed, refused};
ghost use Rattle.binder.specs.Setting.{supplied_at};
ghost use Rattle.binder.specs.Bind.{outcome, bind_of};
ghost use Rattle.program.specs.Program.{arena_address, word_in, answer_to, program_of, digit, digits, width_from, decimal_of, hex_line, hex_lines, refusal_line, answer_lines, lines_of, written, print};
ghost use Rattle.program.specs.Printing.{Prints};

use binder::{Policy, Refused};
use words::refusal::Refusal;

// The words of the sheet.
fn read_words(input: &[u8], sheet: &mut [u32])
    requires { length sheet.old ≤ 16383 }
    ensures { sheet.new ≡ tab (length sheet.old) (word_in input.now) }
{
    for (i, word) in sheet.iter_mut().enumerate() {
        *word = words::bytes::word_at::<u32>(input, 4 + 4 * i);
    }
}

// Binds a sheet of `count` words and the bytes that follow it, under the supplied words of the types.
fn bind_sheet(
    input: &[u8],
    count: usize,
    arena: &mut [u8],
    report: &mut [u32],
) -> Result<(), Refused>
    requires { (count ≤ 16383) × (4 + 4 * count ≤ length input.now) }
    ensures { outcome result arena.new report.new ≡ bind_of (supplied_at arena_address) (tab count (word_in input.now)) (drop (4 + 4 * count) input.now) (length arena.old) Lenient (length report.old) }
{
    let mut room = [0u32; 16383];
    let sheet = &mut room[..count];
    read_words(input, sheet);
    let mut types = [0u32; 64];
    binder::types::supply(&mut types);
    let start = 4 + 4 * count;
    binder::bind::bind(
        sheet,
        &input[start..],
        arena,
        0x1000_0000,
        Policy::Lenient,
        &types,
        report,
    )
}

// Refusal 1, which leaves zeros.
fn refuse(arena: &mut [u8], report: &mut [u32]) -> Result<(), Refused>
    ensures { outcome result arena.new report.new ≡ outcome (refused 1 0) (replicate (length arena.old) 0) (replicate (length report.old) 0) }
{
    arena.fill(0);
    report.fill(0);
    Err(Refused::new(Refusal::Sheet, 0))
}

// Binds the set that the input holds. 65,536 bytes hold a sheet of at most 16,383 words.
#[tactic(auto, using(crate::proofs::AnswerLaws::short_refused, crate::proofs::AnswerLaws::long_refused, crate::proofs::AnswerLaws::whole_bound))]
fn bind_input(input: &[u8], arena: &mut [u8], report: &mut [u32]) -> Result<(), Refused>
    ensures { outcome result arena.new report.new ≡ answer_to input.now (length arena.old) (length report.old) }
{
    let n = input.len();
    let count = words::bytes::word_at::<u32>(input, 0) as usize;
    if n < 4 + 4 * count || 65536 < n {
        return refuse(arena, report);
    }
    bind_sheet(input, count, arena, report)
}

fn digit_of(d: u32) -> u8
    requires { d < 16 }
    ensures { result ≡ digit d }
{
    if d < 10 {
        (b'0' as u32 + d) as u8
    } else {
        (b'a' as u32 + (d - 10)) as u8
    }
}

// The `N` low digits of a number in a base, the highest first.
// By hand: a `write!` of std promises its bytes only where it answers `Ok`, and no clause says that it does.
fn digits_of<const N: usize>(base: u32, v: u32) -> [u8; N]
    requires { (0 < base) × (base ≤ 16) }
    ensures { result ≡ digits base N v }
{
    let mut digits = [0u8; N];
    let mut rest = v;
    for i in (0..N).rev() {
        digits[i] = digit_of(rest % base);
        rest /= base;
    }
    digits
}

// How many decimal digits a number has.
fn width(v: u32) -> usize
    ensures { result ≡ width_from 9 1 v }
{
    v.max(1).ilog10() as usize + 1
}

// What is printed goes to the places of `out` from `at`; what does not fit is dropped.
// By hand: a `write!` of std promises its bytes only where it answers `Ok`, and no clause says that it does.
#[derive(Drop)]
struct Printer<'a> {
    out: &'a mut [u8],
    at: usize,
}

impl<'a> Printer<'a> {
    fn put(&mut self, text: &[u8])
        ensures { Prints self.old self.new text.now }
    {
        let out = &mut *self.out;
        let at = self.at;
        words::bytes::copy(out, at, text, 0, text.len());
        self.at = words::bytes::place(out.len(), at, text.len());
    }

    // A word of the report, on its line.
    fn put_word(&mut self, w: u32)
        ensures { Prints self.old self.new (hex_line w) }
    {
        let digits: [u8; 8] = digits_of(16, w);
        self.put(&digits);
        self.put(b"\n");
    }

    // Each word before the first 0.
    #[tactic(auto, using(crate::proofs::PrintLaws::print_none, words::proofs::NameLaws::name_stop), unfolding(crate::specs::Program::hex_lines))]
    fn put_words(&mut self, report: &[u32])
        requires { self.old.at ≤ length self.old.out.now }
        ensures { Prints self.old self.new (answer_lines passed report.now) }
    {
        for w in report {
            if *w == 0 {
                return;
            }
            self.put_word(*w);
        }
    }

    fn put_decimal(&mut self, v: u32)
        ensures { Prints self.old self.new (decimal_of v) }
    {
        let digits: [u8; 10] = digits_of(10, v);
        self.put(&digits[10 - width(v)..]);
    }

    fn put_refusal(&mut self, r: Refused)
        ensures { Prints self.old self.new (refusal_line r.number r.object) }
    {
        self.put(b"refused ");
        self.put_decimal(r.number);
        self.put(b" object ");
        self.put_decimal(r.object);
        self.put(b"\n");
    }

    fn put_answer(&mut self, answer: Result<(), Refused>, report: &[u32])
        requires { self.old.at ≤ length self.old.out.now }
        ensures { Prints self.old self.new (answer_lines answer report.now) }
    {
        match answer {
            Ok(()) => self.put_words(report),
            Err(r) => self.put_refusal(r),
        }
    }
}

// The answer is how many bytes are printed.
fn print_answer(out: &mut [u8], answer: Result<(), Refused>, report: &[u32]) -> usize
    ensures { written out.new result ≡ print (written out.old 0) (answer_lines answer report.now) }
{
    let mut printer = Printer { out, at: 0 };
    printer.put_answer(answer, report);
    printer.at
}

// Binds the set that the input holds, and fills `out` with the lines to print, as far as they fit. The answer is how many bytes that are.
pub fn run(input: &[u8], out: &mut [u8]) -> usize
    ensures { written out.new result ≡ print (written out.old 0) (lines_of (program_of input.now)) }
{
    let mut arena = [0u8; 32768];
    let mut report = [0u32; 1024];
    let answer = bind_input(input, &mut arena, &mut report);
    print_answer(out, answer, &report)
}
