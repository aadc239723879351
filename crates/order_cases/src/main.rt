// Prints the orders of document 01's three cases, of a need that is named twice, of 62 libraries each of which names the next in all its
// 64 needs, and of 100 libraries with an empty table.
#![tactic(auto)]

use binder::order::arrange;
use std::io;

// An order is a slice of numbers, a type of the language: a function, and no Display.
fn show(out: &impl Print, order: &[u32]) -> io::Result<()> {
    for k in order {
        print!(out; "{k} ")?;
    }
    println!(out)
}

fn arrange_and_show(out: &impl Print, needs: &[u8], libraries: usize) -> io::Result<()> {
    show(out, &arrange(needs, libraries))
}

fn main(rt: HostRuntime) -> io::Result<()> {
    let mut needs = [0u8; 4096];
    // 2 needs 3 then 4
    needs[128] = 3;
    needs[129] = 4;
    arrange_and_show(&rt, &needs, 3)?;
    // 2 needs 3, 4, 3
    needs[130] = 3;
    arrange_and_show(&rt, &needs, 3)?;
    // 2 and 3 need each other
    needs[129] = 0;
    needs[130] = 0;
    needs[192] = 2;
    arrange_and_show(&rt, &needs, 2)?;
    // no libraries
    arrange_and_show(&rt, &needs, 0)?;
    // each needs the next
    for i in 128..4096 {
        needs[i] = (i / 64 + 1) as u8;
    }
    arrange_and_show(&rt, &needs, 62)?;
    // more libraries than there may be, and no table
    arrange_and_show(&rt, b"", 100)
}
