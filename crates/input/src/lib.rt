// What the programs over `still` begin with: standard input as a head and a total, the arguments, and a table to lend.
#![tactic(auto)]

ghost use Rattle.std.specs.Prelude.{◌≡◌, length};
ghost use Rattle.io.specs.Counts.{IsPrefixLen};
ghost use Rattle.input.specs.inner.Within.{AtLeast, Within};

use std::env::{Env, FillError};
use std::io::Read;

// A table of just the words that a file needs.
pub fn new_table() -> [u32; 11280]
    ensures { 11280 ≡ length result }
{
    [0; 11280]
}

// Counts on to the end of what is read, or tells that a read failed. It stops at 2^62, far past any file.
fn count_on<R: Read>(reader: &mut R, kept: u64) -> Option<u64>
    ensures { AtLeast kept result }
{
    let mut buffer = io::large_buffer();
    let mut total = kept;
    // A while: how often it reads is not known before.
    while total < 4611686018427387904 {
        let n = reader.read(&mut buffer).ok()?;
        if n == 0 {
            return Some(total);
        }
        total += n as u64;
    }
    Some(total)
}

// How many bytes stand at the start of the head that was lent, and how many there were in all.
#[derive(Clone, Copy)]
pub struct Input {
    pub here: usize,
    pub total: u64,
}

// Reads standard input to its end: fills the head that is lent, and counts what follows; nothing where a read fails. One that
// fails while the head is filled, counting on meets again.
pub fn read_input(rt: &HostRuntime, head: &mut [u8]) -> Option<Input>
    ensures { Within head.new result }
{
    let here = io::read_full(0, head);
    let total = count_on(&mut rt.stdin(), here as u64)?;
    Some(Input { here, total })
}

// How many arguments there are, the program's own name among them.
pub fn argument_count(rt: &impl Env) -> usize {
    for i in 0..usize::MAX {
        if !has_argument(rt, i) {
            return i;
        }
    }
    usize::MAX
}

fn has_argument(rt: &impl Env, i: usize) -> bool {
    let mut text = [0u8; 1];
    let got = rt.arg(i, &mut text);
    !matches!(got, Err(FillError::NotPresent))
}

// Puts argument i at the start of text and returns its length, or 0 where there is none or it is longer than text.
pub fn argument(rt: &impl Env, i: usize, text: &mut [u8]) -> usize
    ensures { IsPrefixLen result text.new }
{
    rt.arg(i, text).unwrap_or(0)
}

// What a program says where a read failed.
pub fn print_failed() {
    io::write_all(2, b"standard input cannot be read\n");
}
