//! Reads frames from standard input, a line of hexadecimal digits each, and writes a line of answer for each to standard output as they come.
#![tactic(auto)]

use frames::serve::serve;
use std::io;
use std::io::BufReader;

// so many bytes are read at once
const CHUNK: usize = 1 << 16;

fn main(rt: HostRuntime) -> io::Result<()> {
    let heap = rt.alloc();
    let mut input = BufReader::with_capacity(heap, CHUNK, rt.reader())?;
    serve(heap, &mut input, &mut rt.stdout())
}
