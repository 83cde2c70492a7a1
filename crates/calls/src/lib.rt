// The plant's events, and among them its calls: which of them there are, and the crate that answers each. The host asks
// `cpu_of` and `plant_event` alone.
#![tactic(auto)]

mod dispatch;
mod functions;
mod own;
mod plant;

pub use own::cpu_of;
pub use plant::plant_event;
