// Replays a list of sets from standard input: binds each, asks its queries, and prints a line for each call: the answer, the words of the
// report that are not 0, and the hash of the arena's bytes. tests/replay_list.py makes the list and the expected lines.
//
// Numbers are little-endian. Input: how many sets there are (2 bytes). A set: policy and an edit of the words of the types (1), address (8), arena length (4),
// report length (2), length of the set (4), patches (2), queries (1); then the patches, which change zeros into the set as document 01's
// program reads it, each a place (2), a length (2) and bytes; then the queries, each a requester (4), a length (1) and a name. Before each
// call the arena holds the input's first bytes, and before `bind` each bit of the report is 1. A set has at most 65,536 bytes, its sheet at
// most 130 words, its arena at most 262,144 bytes. The first byte is 0 for strict or 1 for lenient, plus 4 * t where the word of type t is to pass
// it over, or 4 * t + 2 where it is to refuse it; the other words are the supplied ones, so that 0 or 1 alone leaves them all.
#![tactic(auto)]

use binder::{Found, Policy, Refused};
use reading::read_full;
use std::io;
use testing::input::{Input, head, patches, stain};

// What is printed are types of other crates, where this program's words for them do not belong: a function each, and no Display.

fn show_answer(out: &impl Print, a: Result<(), Refused>) -> io::Result<()> {
    match a {
        Ok(()) => print!(out; "bound"),
        Err(r) => print!(out; "{r}"),
    }
}

fn show_reply(out: &impl Print, r: Result<Option<Found>, Refused>) -> io::Result<()> {
    match r {
        Ok(Some(f)) => print!(out; "found {} {} {}", f.object, f.symbol, f.address),
        Ok(None) => print!(out; "absent"),
        Err(r) => print!(out; "{r}"),
    }
}

fn show_words(out: &impl Print, report: &[u32]) -> io::Result<()> {
    for w in report {
        if *w != 0 {
            print!(out; " {w:08x}")?;
        }
    }
    Ok(())
}

fn show_arena(out: &impl Print, arena: &[u8]) -> io::Result<()> {
    println!(out; " arena {:08x}", words::hash::gnu_hash(arena))
}

// The supplied words of the types, of which one becomes pass, or refuse.
fn types_of(mark: u8) -> [u32; 64] {
    let mut types = [0u32; 64];
    binder::types::supply(&mut types);
    let t = mark / 4;
    if let Some(word) = types.get_mut(t as usize) {
        *word = u32::from(t)
            + if mark / 2 % 2 == 0 {
                0xa000_0000
            } else {
                0xb000_0000
            };
    }
    types
}

// What stands before a set's patches.
#[derive(Clone, Copy)]
struct Header {
    mark: u8,
    address: u64,
    arena: usize,
    report: usize,
    length: usize,
    patches: u16,
    queries: u8,
}

fn next_header(input: &mut Input) -> Header {
    let mark = input.u8();
    let address = input.word::<u64>();
    let arena = input.word::<u32>() as usize;
    let report = usize::from(input.word::<u16>());
    let length = input.word::<u32>() as usize;
    let patches = input.word::<u16>();
    let queries = input.u8();
    Header {
        mark,
        address,
        arena,
        report,
        length,
        patches,
        queries,
    }
}

// A set, and where and how its calls are made.
#[derive(Clone, Copy)]
struct Player<'a> {
    header: Header,
    sheet: &'a [u32],
    bytes: &'a [u8],
}

impl<'a> Player<'a> {
    fn bind(self, out: &impl Print, arena: &mut [u8]) -> io::Result<()> {
        let mut report = [0xffff_ffffu32; 1024];
        let report = &mut report[..self.header.report.min(1024)];
        let types = types_of(self.header.mark);
        let policy = if self.header.mark % 2 == 0 {
            Policy::Strict
        } else {
            Policy::Lenient
        };
        let a = binder::bind::bind(
            self.sheet,
            self.bytes,
            arena,
            self.header.address,
            policy,
            &types,
            report,
        );
        show_answer(out, a)?;
        show_words(out, report)?;
        show_arena(out, arena)
    }

    // The next query.
    fn ask(self, out: &impl Print, arena: &mut [u8], queries: &mut Input) -> io::Result<()> {
        let requester = queries.word::<u32>();
        let n = usize::from(queries.u8());
        let name = queries.take(n);
        let address = self.header.address;
        let r = binder::query::query(self.sheet, self.bytes, arena, address, requester, name);
        show_reply(out, r)?;
        show_arena(out, arena)
    }

    // The binding, and the queries, each in an arena that holds the input's first bytes.
    fn play(
        self,
        out: &impl Print,
        arena: &mut [u8],
        input: &[u8],
        queries: &mut Input,
    ) -> io::Result<()> {
        stain(arena, input);
        self.bind(out, arena)?;
        for _ in 0..self.header.queries {
            stain(arena, input);
            self.ask(out, arena, queries)?;
        }
        Ok(())
    }
}

// The next set, in as many of the arena's bytes as it asks for.
fn next_set(
    out: &impl Print,
    arena: &mut [u8],
    set: &mut [u8],
    input: &[u8],
    sets: &mut Input,
) -> io::Result<()> {
    let header = next_header(sets);
    set.fill(0);
    patches(set, sets, header.patches, true);
    let mut made = Input {
        rest: head(set, header.length),
    };
    let mut sheet = [0u32; 130];
    let count = (made.word::<u32>() as usize).min(130);
    for word in &mut sheet[..count] {
        *word = made.word::<u32>();
    }
    let player = Player {
        header,
        sheet: &sheet[..count],
        bytes: made.rest,
    };
    let n = header.arena.min(arena.len());
    player.play(out, &mut arena[..n], input, sets)
}

fn run(out: &impl Print, arena: &mut [u8], set: &mut [u8], input: &[u8]) -> io::Result<()> {
    let mut sets = Input { rest: input };
    for _ in 0..sets.word::<u16>() {
        next_set(out, arena, set, input, &mut sets)?;
    }
    Ok(())
}

fn main(rt: HostRuntime) -> io::Result<()> {
    let mut input = [0u8; 524288];
    let n = read_full(&mut rt.stdin(), &mut input)?;
    let mut set = [0u8; 65536];
    let mut arena = [0u8; 262144];
    run(&rt, &mut arena, &mut set, &input[..n])
}
