// Lists the capture on standard input (01, The listing). One byte more than a listing takes is read: it tells a
// long input.
#![tactic(auto)]

use std::io;
use std::io::{Read, Write};

fn main(rt: HostRuntime) -> io::Result<()> {
    let mut input = Vec::new(rt.alloc());
    rt.stdin().take(65537).read_to_end(&mut input)?;
    let mut text = [0u8; listing::ROOM];
    let length = listing::render(&input, &mut text).unwrap();
    rt.stdout().write_all(&text[..length])
}
