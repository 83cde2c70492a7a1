// Loads the image of each line of standard input, and prints the image that its tables are written as. For bench/run, and for the gate, in
// which every accepted image has to come back as it went in. A refused image prints what loading answers, any other line `bad`.
#![tactic(auto)]

ghost use Rattle.std.specs.Prelude.{◌≡◌, ◌+◌, ◌*◌, ◌≤◌, length};

use rules::Tables;
use std::io::Write;
use stream::{Got, Streams};
use text::Line;

const INPUT: usize = 16384;

// As many bytes as are kept of a line: one more than the longest has.
const LINE: usize = 2049;

// Room for answers, and the most that one takes.
const ANSWERS: usize = 65536;

const ANSWER: usize = 4096;

// What a write that fails is told as.
const OUTPUT: &[u8] = b"rewrite: standard output";

// Each byte as two digits, from the place `from` on.
fn put_pairs(bytes: &[u8], from: usize, out: &mut [u8])
    requires { from + 2 * length bytes.now ≤ length out.old }
    ensures { length out.new ≡ length out.old }
{
    for (i, b) in bytes.iter().enumerate() {
        out[from + 2 * i] = text::digit_byte(*b / 16);
        out[from + 2 * i + 1] = text::digit_byte(*b % 16);
    }
}

// An image line from the place at on; gives the place behind it.
fn put_image(bytes: &[u8], at: usize, out: &mut [u8]) -> usize
    requires { at + (2 * length bytes.now + 7) ≤ length out.old }
    ensures { (result ≡ at + (2 * length bytes.now + 7)) × (length out.new ≡ length out.old) }
{
    out[at..at + 6].copy_from_slice(b"image ");
    put_pairs(bytes, at + 6, out);
    let end = at + 6 + 2 * bytes.len();
    out[end] = b'\n';
    end + 1
}

fn put_written(tables: Tables, at: usize, out: &mut [u8]) -> usize
    requires { at + 4096 ≤ length out.old }
    ensures { (result ≤ length out.new) × (length out.new ≡ length out.old) }
{
    let mut image = [0u8; 1024];
    match writer::write_image(tables, &mut image) {
        // No more is written than there is room for: the test is for the slice's sake.
        Ok(n) if n <= 1024 => put_image(&image[..n], at, out),
        _ => at,
    }
}

fn put_image_line(line: &[u8], at: usize, out: &mut [u8]) -> usize
    requires { at + 4096 ≤ length out.old }
    ensures { (result ≤ length out.new) × (length out.new ≡ length out.old) }
{
    let loaded = session::load_line(line);
    match loaded.answer {
        Ok(()) => put_written(loaded.tables, at, out),
        Err(_) => text::put_loading(loaded.answer, at, out),
    }
}

fn put_line(line: &[u8], at: usize, out: &mut [u8]) -> usize
    requires { at + 4096 ≤ length out.old }
    ensures { (result ≤ length out.new) × (length out.new ≡ length out.old) }
{
    match text::parse_line(line) {
        Line::Image => put_image_line(line, at, out),
        Line::Bad | Line::Event(_) => text::put_bad(at, out),
    }
}

// Where there is no room for one more answer, writes those that there are; gives the place for the next.
fn with_room<R, W: Write, E: Print>(streams: &mut Streams<R, W, E>, at: usize, out: &[u8]) -> usize
    requires { (at ≤ length out.now) × (4096 ≤ length out.now) }
    ensures { result + 4096 ≤ length out.now }
{
    if out.len() - at < ANSWER {
        stream::write_all(streams, &out[..at], OUTPUT);
        return 0;
    }
    at
}

// Answers the lines of a piece; gives how many bytes of a line that has not ended are held.
fn answer_piece<R, W: Write, E: Print>(
    streams: &mut Streams<R, W, E>,
    piece: &[u8],
    line: &mut [u8],
    before: usize,
    out: &mut [u8],
) -> usize
    requires { 4096 ≤ length out.old }
    ensures { length out.new ≡ length out.old }
{
    let mut held = before.min(line.len());
    let mut at = 0;
    for b in piece {
        if *b != b'\n' {
            if held < line.len() {
                line[held] = *b;
                held += 1;
            }
            continue;
        }
        at = with_room(streams, at, out);
        at = put_line(&line[..held], at, out);
        held = 0;
    }
    stream::write_all(streams, &out[..at], OUTPUT);
    held
}

fn main(rt: HostRuntime) {
    let mut streams = Streams {
        input: rt.stdin(),
        output: rt.stdout(),
        errors: rt.stderr(),
    };
    let mut input = [0u8; INPUT];
    let mut line = [0u8; LINE];
    let mut out = [0u8; ANSWERS];
    let mut held = 0;
    // A proved loop has to end, and nothing says that the input does: this one has more turns than any run uses up.
    for _ in 0..u64::MAX {
        match stream::read_some(&mut streams, &mut input, b"rewrite: standard input") {
            Got::Bytes(n) => held = answer_piece(
                &mut streams,
                &input[..n],
                &mut line,
                held,
                &mut out,
            ),
            Got::Again => {}
            Got::End | Got::Failed => return,
        }
    }
}
