// The session program's text, on slices: a line's bytes in, an answer's bytes out.
#![tactic(auto)]

mod digits;
mod event;
mod fields;
mod line;
mod number;
mod piece;
mod print;
mod put;

pub use fields::{FIELDS, Fields, read_fields};
pub use line::{Line, image_bytes, parse_line};
pub use number::{digit_of, read_number};
pub use piece::{piece_end, same_text};
pub use print::{
    loading_numbers, numbers_of, put_answer, put_bad, put_loading, put_numbers, write_status,
};
pub use put::{digit_byte, put_number, put_text};
