// What a session cannot show: scrubs past their cap, the TSB lists that are kept, and tables that break a rule. A session's lines
// over longer memory, with words of its own for the rest; docs/session/README.md says what each prints.
#![tactic(auto)]

mod draft;
mod lent;
mod lists;
mod say;
mod step;

use lent::{FILL, MEMORY};
use std::io;
use std::io::Read;

fn main(rt: HostRuntime) -> io::Result<()> {
    let mut mem = [FILL; MEMORY];
    let mut input = Vec::new(rt.alloc());
    rt.stdin().read_to_end(&mut input)?;
    let mut bench = step::begin();
    for line in input.split_inclusive(|b| *b == b'\n') {
        let line = line.strip_suffix(b"\n").unwrap_or(line);
        step::run_line(&rt, &mut bench, &mut mem, line)?;
    }
    Ok(())
}
