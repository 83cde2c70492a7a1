// The session program: a session on standard input and output.
#![tactic(auto)]

use console::{INPUT, MEMORY, Mode};
use stream::Streams;

fn main(rt: HostRuntime) {
    let mut streams = Streams {
        input: rt.stdin(),
        output: rt.stdout(),
        errors: rt.stderr(),
    };
    let mut mem = [0u8; MEMORY];
    let mut input = [0u8; INPUT];
    let mut out = console::room();
    console::run(&mut streams, Mode::Plain, &mut mem, &mut input, &mut out);
}
