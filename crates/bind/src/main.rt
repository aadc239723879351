// Document 01's program. One byte more than the limit is read, so that input over it shows; 1,024 lines of 9 bytes fit `out`.
#![tactic(auto)]

use reading::read_full;
use std::io;

fn main(rt: HostRuntime) -> io::Result<()> {
    let mut buffer = [0u8; 65537];
    let n = read_full(&mut rt.stdin(), &mut buffer)?;
    let mut out = [0u8; 9216];
    let r = program::run(&buffer[..n], &mut out);
    rt.write_all(&out[..r])
}
