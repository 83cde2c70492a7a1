// The rule on tables (101), and the rule on the memory that is lent with them (102).
#![tactic(auto)]

mod blank;
mod keep;
mod lent;
mod lists;
mod right;
mod settings;

pub use keep::keep_rules;
pub use lent::long_enough;
