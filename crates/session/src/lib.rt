// A session, on slices: lines in, answers out. A program reads, feeds what it read, and writes what that gave.
#![tactic(auto)]

mod ask;
mod feeder;
mod reply;

pub use ask::load_line;
pub use feeder::{Fed, Feeder, LINE, begin, feed, finish};
