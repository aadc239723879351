// What is handed in: the sheet and its byte slice, the arena's place, and refusals 1, 2 and 3.
ghost use Rattle.std.specs.Prelude.{◌≡◌, ◌≤◌, ◌<◌, length, take, drop, map, leb, get_or, IfSome, IfOk, Some, None};
ghost use Rattle.std.specs.List.{list_any, sum_by};
ghost use Rattle.words.specs.Names.{same_bytes};
ghost use Rattle.sheet.specs.Sheet.{kind_of, length_in, pair_ok, lib_words, total, sheet_ok, set_of, handed_in, arena_ok, no_input};
ghost use Rattle.sheet.specs.Steps.Objects.{duplicate_in, input_of};
ghost use Rattle.words.specs.Choice.{pick};

use arrayvec::ArrayVec;
use std::marker::Model;
use words::refusal::Refusal;

// An object as it is handed in: its file, the host's being its image, and its name; host and program have none.
#[derive(Clone, Copy, Default)]
pub struct Object<'a> {
    pub file: &'a [u8],
    pub name: &'a [u8],
}

// A set of at most 64 objects, by number; as a sheet hands it in, host, program and at most 62 libraries. Callers see a list.
#[derive(Clone, Drop)]
pub struct Set<'a> {
    objects: ArrayVec<Object<'a>, 64>,
}

impl<'a> Model for Set<'a> {
    ghost use Rattle.std.specs.Prelude.{List, map};
    ghost use Rattle.sheet.specs.Sheet.{Input};
    ghost use Rattle.sheet.specs.Steps.Objects.{input_of};

    ghost Value = { List Input };

    ghost view = { λ s. map input_of s.objects.items };
}

fn kind(w: u32) -> u32
    ensures { result ≡ kind_of w }
{
    w / 0x1000_0000
}

fn size(w: u32) -> usize
    ensures { (result ≡ length_in w) × (result < 268435456) }
{
    (w % 0x1000_0000) as usize
}

// Whether two words are a library's.
#[tactic(auto, unfolding(crate::specs::Sheet::pair_ok))]
fn pair_ok(f: u32, n: u32) -> bool
    ensures { result ≡ pair_ok f n }
{
    kind(f) == 3 && kind(n) == 4 && 1 <= size(n) && size(n) <= 255
}

// Whether the words are those of libraries, two by two.
fn libs_ok(libraries: &[u32]) -> bool
    ensures { result ≡ lib_words libraries.now }
{
    libraries.len() % 2 == 0 && libraries.chunks_exact(2).all(|p| pair_ok(p[0], p[1]))
}

// How many bytes the words name.
fn total(words: &[u32]) -> usize
    requires { length words.now ≤ 126 }
    ensures { result ≡ sum_by length_in words.now }
{
    words.iter().map(|w| size(*w)).sum()
}

// Whether refusal 1 is not met; `n` is the byte slice's length. A guard, and no one test: the tests speak of the words that it names.
#[tactic(auto, using(crate::proofs::SheetLaws::sheet_short, crate::proofs::SheetLaws::sheet_is, crate::proofs::SheetLaws::total_is))]
pub fn sheet_ok(sheet: &[u32], n: usize) -> bool
    ensures { result ≡ sheet_ok sheet.now n }
{
    let [host, program, libraries @ ..] = sheet else {
        return false;
    };
    kind(*host) == 1
        && kind(*program) == 2
        && libraries.len() <= 124
        && libs_ok(libraries)
        && total(sheet) == n
}

// Whether refusal 2 is not met.
#[tactic(auto, unfolding(crate::specs::Sheet::arena_ok))]
pub fn arena_ok(size: usize, address: u64) -> bool
    ensures { result ≡ arena_ok size address }
{
    address % 4096 == 0 && size <= 0x1000_0000 && address <= 0x8000_0000_0000_0000 - size as u64
}

// The objects of a sheet that is not refused: its byte slice, cut.
fn cut<'a>(sheet: &[u32], bytes: &'a [u8]) -> Set<'a>
    requires { (2 ≤ length sheet.now) × (length sheet.now ≤ 126) × (total sheet.now ≡ length bytes.now) }
    ensures is { result ≡ set_of sheet.now bytes.now }
    ensures two { 2 ≤ length result }
{
    let (host, rest) = bytes.split_at(size(sheet[0]));
    let (program, rest) = rest.split_at(size(sheet[1]));
    let mut objects = ArrayVec::new();
    objects.push(Object {
        file: host,
        name: &[],
    });
    objects.push(Object {
        file: program,
        name: &[],
    });
    let mut rest = rest;
    // a part starts where the one before it ends; a `for` over `chunks_exact(2)` was not tried: the invariant speaks of the words that are left
    let mut words = &sheet[2..];
    while let [f, n, others @ ..] = words {
        let f = size(*f);
        let n = size(*n);
        objects.push(Object {
            file: part_of(rest, 0, f),
            name: part_of(rest, f, n),
        });
        rest = part_of(rest, f + n, rest.len());
        words = others;
    }
    Set { objects }
}

impl<'a> Set<'a> {
    // The set of a sheet and its byte slice, or refusal 1.
    pub fn of(sheet: &[u32], bytes: &'a [u8]) -> Result<Set<'a>, Refusal>
        ensures is { result ≡ handed_in sheet.now bytes.now }
        ensures two { IfOk result (λ os. 2 ≤ length os) }
    {
        if !sheet_ok(sheet, bytes.len()) {
            return Err(Refusal::Sheet);
        }
        Ok(cut(sheet, bytes))
    }

    // The set of these objects; none where there are more than 64.
    pub fn from_objects(objects: &[Object<'a>]) -> Option<Set<'a>>
        ensures { result ≡ pick (leb (length objects.now) 64) (Some (map input_of objects.now)) None }
    {
        let objects = ArrayVec::try_from(objects).ok()?;
        Some(Set { objects })
    }

    // How many objects it has.
    pub fn len(&self) -> usize
        ensures is { result ≡ length self.now }
        ensures high { result ≤ 64 }
    {
        self.objects.len()
    }

    // The file of object k; empty where there is no such object.
    pub fn file(&self, k: usize) -> &'a [u8]
        ensures { result.now ≡ (get_or self.now k no_input).file }
    {
        self.objects.get(k).map_or(&[], |o| o.file)
    }

    // The name of object k, likewise.
    pub fn name(&self, k: usize) -> &'a [u8]
        ensures { result.now ≡ (get_or self.now k no_input).name }
    {
        self.objects.get(k).map_or(&[], |o| o.name)
    }

    // Refusal 3: the first library whose name an earlier one has.
    pub fn duplicate(&self) -> Option<usize>
        ensures is { result ≡ duplicate_in self.now }
        ensures few { IfSome result (λ k. k < 64) }
    {
        let objects = self.objects.as_slice();
        // no `find`: the proof does not close, as its test of a number past the end needs an object that has no name there
        for k in 2..objects.len() {
            if has_name(&objects[2..k], objects[k].name) {
                return Some(k);
            }
        }
        None
    }
}

// Whether one of the objects has this name.
fn has_name(objects: &[Object], name: &[u8]) -> bool
    ensures { result ≡ list_any (λ o. same_bytes name.now o.name.now) objects.now }
{
    objects.iter().any(|o| words::names::same(name, o.name))
}

// The `len` bytes from `at`, as far as there are any.
pub fn part_of<'a>(bytes: &'a [u8], at: usize, len: usize) -> &'a [u8]
    ensures { result.now ≡ take len (drop at bytes.now) }
{
    let rest = &bytes[at.min(bytes.len())..];
    &rest[..len.min(rest.len())]
}
