// What every call of a plant stands on: what it gives back, what that makes of the plant's record, and an entry put into a ring.
// A call that reaches memory takes it lent. It reads the plant's record, and tells what it changes of it.
#![tactic(auto)]

mod change;
mod parts;
mod rings;

pub use change::{Change, CpuChange, Done, change_plant, cpu_after, done_by, plant_after, told};
pub use parts::{all_disabled, at_tail, cpu_at_tail};
pub use rings::put_entry;
