// Each line, its answer, and what the answer means.
ghost use Rattle.std.specs.Prelude.{◌≡◌, [], ◌∷◌, ◌<◌, ◌≤◌, length, slice_index, IfOk, IfSome};
ghost use Rattle.rules.specs.Text.{line_feed};
ghost use Rattle.session.specs.Feeding.{AllFed};

use crate::plain::Plain;
use crate::style::{Style, Unwritten, write_text};
use reasons::ROOM;
use session::{Feeder, LINE};
use std::io::Write;
use stream::Streams;

// A byte that would do something to a terminal, or nothing that can be seen, stands as a question mark.
fn shown(b: u8) -> u8 {
    if matches!(b, b' '..=b'~') { b } else { b'?' }
}

// Puts the line as it is shown to the front of out, as much of it as has room, and gives the number of its bytes.
fn show(line: &[u8], out: &mut [u8]) -> usize
    ensures { result ≤ length out.new }
{
    for (to, b) in out.iter_mut().zip(line) {
        *to = shown(*b);
    }
    line.len().min(out.len())
}

// An answer, and behind it what it means.
fn write_answer<R, W: Write, E: Print>(
    streams: &mut Streams<R, W, E>,
    line: &[u8],
    answer: &[u8],
) -> Result<(), Unwritten> {
    let mut reason = [0u8; ROOM];
    let n = reasons::put_reason(line, answer, &mut reason);
    write_text(streams, b"    ")?;
    write_text(streams, answer)?;
    write_text(streams, b"    ")?;
    write_text(streams, &reason[..n])
}

fn write_line<R, W: Write, E: Print>(
    streams: &mut Streams<R, W, E>,
    line: &[u8],
    out: &mut [u8],
) -> Result<(), Unwritten> {
    let n = show(line, out);
    write_text(streams, &out[..n])?;
    write_text(streams, b"\n")
}

// The end of a line, which is what the feeder holds: the line is written before it is carried out.
fn explain_line<R, W: Write, E: Print>(
    streams: &mut Streams<R, W, E>,
    feeder: Feeder,
    mem: &mut [u8],
    out: &mut [u8],
) -> Result<Feeder, Unwritten>
    requires { 96 ≤ length out.old }
    ensures { IfOk result (λ after. AllFed feeder mem.old (line_feed ∷ []) after mem.new) }
{
    let line = &feeder.line[..feeder.held.min(LINE)];
    write_line(streams, line, out)?;
    let fed = session::feed(feeder, mem, b"\n", out);
    write_answer(streams, line, &out[..fed.written])?;
    Ok(fed.feeder)
}

// Where the first line of a piece ends.
fn line_end(piece: &[u8]) -> Option<usize>
    ensures { IfSome result (λ n. (n < length piece.now) × (slice_index piece.now n ≡ line_feed)) }
{
    piece.iter().position(|b| *b == b'\n')
}

// Line by line: what stands before a line's end, as plain input, and then the end.
fn explain_piece<R, W: Write, E: Print>(
    streams: &mut Streams<R, W, E>,
    feeder: Feeder,
    mem: &mut [u8],
    piece: &[u8],
    out: &mut [u8],
) -> Result<Feeder, Unwritten>
    requires { 96 ≤ length out.old }
    ensures { IfOk result (λ after. AllFed feeder mem.old piece.now after mem.new) }
{
    let mut left = feeder;
    let mut rest = piece;
    while let Some(n) = line_end(rest) {
        left = Plain.answer_piece(streams, left, mem, &rest[..n], out)?;
        left = explain_line(streams, left, mem, out)?;
        rest = &rest[n + 1..];
    }
    Plain.answer_piece(streams, left, mem, rest, out)
}

#[derive(Drop)]
pub(crate) struct Explained;

impl Style for Explained {
    fn answer_piece<R, W: Write, E: Print>(
        &self,
        streams: &mut Streams<R, W, E>,
        feeder: Feeder,
        mem: &mut [u8],
        piece: &[u8],
        out: &mut [u8],
    ) -> Result<Feeder, Unwritten> {
        explain_piece(streams, feeder, mem, piece, out)
    }

    fn answer_end<R, W: Write, E: Print>(
        &self,
        streams: &mut Streams<R, W, E>,
        feeder: Feeder,
        mem: &mut [u8],
        out: &mut [u8],
    ) -> Result<(), Unwritten> {
        if feeder.held != 0 {
            explain_line(streams, feeder, mem, out)?;
        }
        Ok(())
    }
}
