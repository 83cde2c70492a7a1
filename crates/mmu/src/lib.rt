// The calls of the memory management unit: TSB lists, and the statistics address.
#![tactic(auto)]

mod statistics;
mod tsb;

pub use statistics::{mmustat_conf, mmustat_info};
pub use tsb::{mmu_tsb_ctx0, mmu_tsb_ctxnon0};
