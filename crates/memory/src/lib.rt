// A guest's memory through its extents: which ranges are its own, where they lie on the host, and what is read and
// written there.
#![tactic(auto)]

mod extents;
mod guest;
mod runs;

pub use extents::range_valid;
pub use guest::{bytes, number, write_at, zero_at};
pub use runs::{word_bytes, write};
