// Reads damaged and good objects from standard input and prints what the reader says of each, a line for each case: `refused N`, or the
// record, the hash of the bytes of the room, and what is asked of the object. tests/object_cases.py makes the cases and, without this
// crate, the expected lines; tests/compare_object.py hands in the files of sets.
//
// Numbers are little-endian. Input: where the cases start (4 bytes), how many there are (2), then the bases: a file's length (4), the
// length of its asks (2), how many asks (1), the asks, the file. A case: base (1), flags (1), room (4), file length (4), patches (1), asks
// (1); each patch is a place (2), a length (1) and bytes. An ask: 1, a length (1) and a name; or 2 to 9 and a number (4). Flag 1: the
// host; flag 2: the base's asks come first. Bytes of the room that no object is placed on hold the input's first bytes.
#![tactic(auto)]

use object::dynamic_fields::ObjectData;
use object::hash_tables::{Definition, HashTable};
use object::relocate::{Action, Field, Rela, Relr};
use object::symbol::Symbol;
use reading::read_full;
use std::io;
use testing::input::{Input, head, patches, stain};
use words::refusal::Refusal;

// What is printed are types of other crates, where this program's words for them do not belong: a function each, and no Display.

fn yes_or_no(b: bool) -> &'static str {
    if b { "yes" } else { "no" }
}

fn show_count(out: &impl Print, k: Option<usize>) -> io::Result<()> {
    match k {
        None => print!(out; " unknown"),
        Some(n) => print!(out; " {n}"),
    }
}

fn show_table(out: &impl Print, t: HashTable) -> io::Result<()> {
    match t {
        HashTable::Without => print!(out; " without"),
        HashTable::SysV {
            at,
            buckets,
            nchain,
        } => print!(out; " sysv {at} {buckets} {nchain}"),
        HashTable::Gnu {
            at,
            buckets,
            symoffset,
            bloomwords,
            shift,
        } => print!(out; " gnu {at} {buckets} {symoffset} {bloomwords} {shift}"),
    }
}

fn show_record(out: &impl Print, o: &ObjectData) -> io::Result<()> {
    print!(out;
        " {} {} {} {} {}",
        o.span,
        o.segments.len(),
        o.needed.len(),
        o.strings,
        o.symbols
    )?;
    show_count(out, o.known)?;
    show_table(out, o.table)?;
    print!(out;
        " {} {} {} {} {} {} {}",
        o.rela, o.relas, o.plt, o.plts, o.relr, o.relrs, o.align
    )
}

// A definition, and its address in an object at 0x10000000.
fn show_definition(out: &impl Print, d: Definition) -> io::Result<()> {
    let protected = yes_or_no(d.protected);
    let absolute = yes_or_no(d.absolute);
    let address = d.address_at(0x1000_0000);
    print!(out;
        " is {} {} {} {protected} {absolute} {address}",
        d.index, d.value, d.size
    )
}

fn show_answer(out: &impl Print, a: Option<Definition>) -> io::Result<()> {
    match a {
        None => print!(out; " absent"),
        Some(d) => show_definition(out, d),
    }
}

fn show_name(out: &impl Print, image: &[u8], o: &ObjectData, name: &[u8]) -> io::Result<()> {
    let gnu = words::hash::gnu_hash(name);
    let elf = words::hash::elf_hash(name);
    let view = object::dynamic_fields::view_of(o);
    show_answer(out, object::hash_tables::ask(image, view, name, gnu, elf))
}

fn show_symbol(out: &impl Print, y: Symbol) -> io::Result<()> {
    let exported = yes_or_no(object::symbol::is_exported(y));
    print!(out;
        " symbol {} {} {} {} {} {} {exported}",
        y.name, y.info, y.other, y.section, y.value, y.size
    )
}

fn show_checked(out: &impl Print, c: Result<Symbol, Refusal>) -> io::Result<()> {
    match c {
        Err(refusal) => print!(out; " refused {}", u32::from(refusal)),
        Ok(y) => show_symbol(out, y),
    }
}

fn show_action(out: &impl Print, a: Action) -> io::Result<()> {
    let name = match a {
        Action::Ignored => "ignored",
        Action::Passed => "passed",
        Action::Relative => "relative",
        Action::Symbolic(Field::Address) => "symbolic",
        Action::Symbolic(Field::Direct64) => "direct64",
        Action::Symbolic(Field::Pc64) => "pc64",
        Action::Symbolic(Field::Pc32) => "pc32",
        Action::Symbolic(Field::Direct32) => "direct32",
        Action::Symbolic(Field::Direct32S) => "direct32s",
        Action::Copy => "copy",
        Action::Irelative => "irelative",
        Action::Refused => "refused",
    };
    print!(out; " {name}")
}

fn show_rela(out: &impl Print, e: Rela) -> io::Result<()> {
    print!(out; " {} {} {} {}", e.place, e.rtype, e.symbol, e.addend)?;
    let w = object::relocate::supplied_word(e.rtype);
    show_action(out, object::relocate::action_of(w, e.rtype))
}

fn show_relr(out: &impl Print, e: Relr) -> io::Result<()> {
    match e {
        Relr::Address(at) => print!(out; " address {at}"),
        Relr::Bitmap(bits) => print!(out; " bitmap {bits}"),
    }
}

// The length and the hash of a need's name. Of the 64 needs and the 16 segments that there may be, one that is not there is all zeros.
fn show_need(out: &impl Print, image: &[u8], o: &ObjectData, i: usize) -> io::Result<()> {
    if i < 64 {
        let n = o.needed.get(i).copied().unwrap_or(0);
        let name = words::names::name_off(image, o.strings, n);
        print!(out; " {} {}", name.len(), words::hash::gnu_hash(name))?;
    }
    Ok(())
}

fn show_segment(out: &impl Print, o: &ObjectData, i: usize) -> io::Result<()> {
    if i < 16 {
        let s = o.segments.get(i).copied().unwrap_or_default();
        print!(out;
            " {} {} {} {} {} {}",
            s.offset, s.vaddr, s.filesz, s.memsz, s.flags, s.align
        )?;
    }
    Ok(())
}

// Whether a test of the object's bytes holds.
fn show_test(out: &impl Print, holds: bool) -> io::Result<()> {
    print!(out; " {}", yes_or_no(holds))
}

// What is asked of an object: a name, or a number of its symbols, its RELA, PLT or RELR entries, its needs, its segments or its bytes.
#[derive(Clone, Copy)]
enum Ask<'a> {
    Name(&'a [u8]),
    Symbol(u32),
    Rela(u32),
    Plt(u32),
    Relr(u32),
    Need(u32),
    Segment(u32),
    TableByte(u32),
    Writable(u32),
}

fn next_ask<'a>(input: &mut Input<'a>) -> Ask<'a> {
    let kind = input.u8();
    if kind == 1 {
        let n = input.u8() as usize;
        return Ask::Name(input.take(n));
    }
    let i = input.word::<u32>();
    match kind {
        2 => Ask::Symbol(i),
        3 => Ask::Rela(i),
        4 => Ask::Plt(i),
        5 => Ask::Relr(i),
        6 => Ask::Need(i),
        7 => Ask::Segment(i),
        8 => Ask::TableByte(i),
        _ => Ask::Writable(i),
    }
}

fn show_ask(out: &impl Print, image: &[u8], o: &ObjectData, ask: Ask) -> io::Result<()> {
    match ask {
        Ask::Name(name) => show_name(out, image, o, name),
        Ask::Symbol(i) => show_checked(out, object::entry_symbol::checked_symbol(image, o, i)),
        Ask::Rela(i) => show_rela(out, object::relocate::rela_at(image, o.rela, i)),
        Ask::Plt(i) => show_rela(out, object::relocate::rela_at(image, o.plt, i)),
        Ask::Relr(i) => show_relr(
            out,
            object::relocate::relr_of(object::relocate::relr_at(image, o.relr, i)),
        ),
        Ask::Need(i) => show_need(out, image, o, i as usize),
        Ask::Segment(i) => show_segment(out, o, i as usize),
        Ask::TableByte(i) => {
            let bounds = object::dynamic_fields::bounds_of(o);
            show_test(out, object::table_bytes::table_bytes(bounds, i as usize, 1))
        }
        // the eight bytes there are inside one writable segment
        Ask::Writable(i) => {
            let bounds = object::dynamic_fields::bounds_of(o);
            show_test(out, object::table_bytes::in_writable(bounds, i as usize, 8))
        }
    }
}

// So many asks, and the input where they begin.
#[derive(Clone, Copy)]
struct Asks<'a> {
    count: u8,
    input: Input<'a>,
}

impl<'a> Asks<'a> {
    fn show(self, out: &impl Print, image: &[u8], o: &ObjectData) -> io::Result<()> {
        let mut input = self.input;
        for _ in 0..self.count {
            let ask = next_ask(&mut input);
            show_ask(out, image, o, ask)?;
        }
        Ok(())
    }

    // The input after them.
    fn end(self) -> Input<'a> {
        let mut input = self.input;
        for _ in 0..self.count {
            next_ask(&mut input);
        }
        input
    }
}

// A file, and what is asked of each object that is loaded from it.
#[derive(Clone, Copy)]
struct Base<'a> {
    asks: Asks<'a>,
    file: &'a [u8],
}

fn next_base<'a>(input: &mut Input<'a>) -> Base<'a> {
    let n = input.word::<u32>() as usize;
    let m = input.word::<u16>() as usize;
    let count = input.u8();
    let asks = Asks {
        count,
        input: *input,
    };
    input.take(m);
    let file = input.take(n);
    Base { asks, file }
}

fn base_at<'a>(input: &'a [u8], k: u8) -> Base<'a> {
    let mut bases = Input { rest: input };
    bases.take(6);
    for _ in 0..k {
        next_base(&mut bases);
    }
    next_base(&mut bases)
}

fn refused(out: &impl Print, n: u32) -> io::Result<()> {
    println!(out; "refused {n}")
}

// A case: who loads the file, and what is asked of the object.
#[derive(Clone, Copy)]
struct Case<'a> {
    host: bool,
    shared: Asks<'a>,
    own: Asks<'a>,
}

impl<'a> Case<'a> {
    fn show(self, out: &impl Print, room: &[u8], o: &ObjectData) -> io::Result<()> {
        print!(out; "loaded")?;
        show_record(out, o)?;
        print!(out; " {}", words::hash::gnu_hash(room))?;
        let image = head(room, o.span);
        self.shared.show(out, image, o)?;
        self.own.show(out, image, o)?;
        println!(out)
    }

    // Loads the file into the room, and prints the case's line.
    fn load(self, out: &impl Print, room: &mut [u8], file: &[u8]) -> io::Result<()> {
        let read = object::object_data::check_headers(file, self.host).and_then(
            |checked| object::object_data::load(room, file, self.host, &checked),
        );
        match read {
            Ok(o) => self.show(out, room, &o),
            Err(refusal) => refused(out, refusal.into()),
        }
    }
}

// The next case, in the arena's last `room` bytes.
fn next_case(
    out: &impl Print,
    arena: &mut [u8],
    file: &mut [u8],
    input: &[u8],
    cases: &mut Input,
) -> io::Result<()> {
    let base = base_at(input, cases.u8());
    let flags = cases.u8();
    let room = cases.word::<u32>() as usize;
    let length = cases.word::<u32>() as usize;
    let changes = cases.u8();
    let count = cases.u8();
    words::bytes::copy(file, 0, base.file, 0, file.len());
    patches(file, cases, u16::from(changes), false);
    let mut shared = base.asks;
    if flags / 2 % 2 == 0 {
        shared.count = 0;
    }
    let own = Asks {
        count,
        input: *cases,
    };
    *cases = own.end();
    if arena.len() < room {
        return Ok(());
    }
    let from = arena.len() - room;
    let room = &mut arena[from..];
    stain(room, input);
    let host = flags % 2 == 1;
    Case { host, shared, own }.load(out, room, head(file, length))
}

fn run(out: &impl Print, arena: &mut [u8], file: &mut [u8], input: &[u8]) -> io::Result<()> {
    let mut start = Input { rest: input };
    let at = start.word::<u32>() as usize;
    let count = start.word::<u16>();
    let mut cases = Input { rest: input };
    cases.take(at);
    for _ in 0..count {
        next_case(out, arena, file, input, &mut cases)?;
    }
    Ok(())
}

fn main(rt: HostRuntime) -> io::Result<()> {
    let mut input = [0u8; 131072];
    let n = read_full(&mut rt.stdin(), &mut input)?;
    let mut file = [0u8; 65536];
    let mut arena = [0u8; 131072];
    run(&rt, &mut arena, &mut file, &input[..n])
}
