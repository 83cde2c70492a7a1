// Why a line of a session is bad, and what a status means, in words.
#![tactic(auto)]

mod fault;
mod fields;
mod image;
mod line;
mod put;
mod reason;
mod words;

pub use fault::{Fault, Word};
pub use line::why_bad;
pub use put::ROOM;
pub use reason::put_reason;
pub use words::{put_meaning, put_why};
