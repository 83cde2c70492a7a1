// The program plan: a plan or an image line on standard input, the other form on standard output. A read that fails is told on standard
// error, and nothing is printed then.
#![tactic(auto)]

ghost use Rattle.std.specs.Prelude.{◌≡◌, ◌≤◌, length, IfSome};

use plans::ROOM;
use std::io::Read;
use stream::{Got, Streams};

// No input needs more bytes to be answered: 97 lines of 2,048 bytes and a line feed.
const INPUT: usize = 198753;

// Reads standard input to its end, or until the buffer is full, and gives how many bytes there are; none where a read failed. A proved
// loop has to end, and a read can be interrupted any number of times: this one has more turns than any run uses up.
fn read_all<R: Read, W, E: Print>(streams: &mut Streams<R, W, E>, buf: &mut [u8]) -> Option<usize>
    ensures { IfSome result (λ n. n ≤ length buf.new) }
{
    let mut done = 0;
    for _ in 0..u64::MAX {
        if done == buf.len() {
            return Some(done);
        }
        match stream::read_some(streams, &mut buf[done..], b"chaldrev: standard input") {
            Got::Bytes(n) => done += n,
            Got::Again => {}
            Got::End => return Some(done),
            Got::Failed => return None,
        }
    }
    Some(done)
}

fn main(rt: HostRuntime) {
    let mut streams = Streams {
        input: rt.stdin(),
        output: rt.stdout(),
        errors: rt.stderr(),
    };
    let mut input = [0u8; INPUT];
    let Some(n) = read_all(&mut streams, &mut input) else {
        return;
    };
    let mut out = [0u8; ROOM];
    let length = plans::answer(&input[..n], &mut out);
    stream::write_all(&mut streams, &out[..length], b"chaldrev: standard output");
}
