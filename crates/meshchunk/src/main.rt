// Reads a work file on standard input and prints its mesh after its log, or the refusal.
#![tactic(auto)]

use chunk::{ANSWER_BYTES, answer_file};
use std::io;
use vectors::read_full;

// One byte more than a work file may have: a longer file is bad by its first bytes.
const READ_BYTES: usize = 8_193;

fn main(rt: HostRuntime) -> io::Result<()> {
    let mut bytes = [0u8; READ_BYTES];
    let mut out = [0u8; ANSWER_BYTES];
    let n = read_full(&mut rt.reader(), &mut bytes)?;
    let end = answer_file(&bytes[..n], &mut out);
    rt.write_all(&out[..end])
}
