// A session on a program's streams, plain or explained. It answers what it has read before it waits for more. A read or a write
// that fails is told on standard error and ends it: the line that has been begun is not carried out.
#![tactic(auto)]

mod explained;
mod plain;
mod style;

ghost use Rattle.std.specs.Prelude.{◌≡◌, ◌≤◌, length};

use explained::Explained;
use plain::Plain;
use std::io::{Read, Write};
use stream::{Got, Streams};
use style::{Style, Unwritten};

// What is read at once, the guests' memory, and the room for answers. The first and the last could be any other numbers: what does not
// fit is answered in several turns.
pub const INPUT: usize = 16384;

pub const MEMORY: usize = 32768;

pub const ANSWERS: usize = 262144;

// The `ensures` gives only the length, which lending it as a slice needs.
pub fn room() -> [u8; ANSWERS]
    ensures { 262144 ≡ length result }
{
    [0; ANSWERS]
}

#[derive(Clone, Copy)]
pub enum Mode {
    Plain,
    Explained,
}

// Reads, and answers what came, until the input ends, or a read or a write fails. A proved loop has to end, and nothing says that the
// input does: this one has more turns than any run uses up.
fn run_styled<S: Style, R: Read, W: Write, E: Print>(
    style: &S,
    streams: &mut Streams<R, W, E>,
    mem: &mut [u8],
    input: &mut [u8],
    out: &mut [u8],
) -> Result<(), Unwritten>
    requires { 96 ≤ length out.old }
{
    let mut feeder = session::begin();
    for _ in 0..u64::MAX {
        match stream::read_some(streams, input, b"chaldrev: standard input") {
            Got::Bytes(n) => feeder = style.answer_piece(streams, feeder, mem, &input[..n], out)?,
            Got::Again => {}
            Got::End => return style.answer_end(streams, feeder, mem, out),
            Got::Failed => return Ok(()),
        }
    }
    Ok(())
}

pub fn run<R: Read, W: Write, E: Print>(
    streams: &mut Streams<R, W, E>,
    mode: Mode,
    mem: &mut [u8],
    input: &mut [u8],
    out: &mut [u8],
)
    requires { 96 ≤ length out.old }
{
    // What failed has been told.
    let _ = match mode {
        Mode::Plain => run_styled(&Plain, streams, mem, input, out),
        Mode::Explained => run_styled(&Explained, streams, mem, input, out),
    };
}
