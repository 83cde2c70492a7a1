// What the session program prints: "all lower-case hex, no leading zeros", numbers parted by one space.
ghost use Rattle.std.specs.Prelude.{◌≡◌, ◌+◌, ◌≤◌, length};
ghost use Rattle.std.proofs.lemmas.List.Edits.{sets};
ghost use Rattle.rules.specs.Statuses.{status_of, numbers, image_numbers, loading_numbers, write_status};
ghost use Rattle.rules.specs.Text.{hex};
ghost use Rattle.text.specs.Printed.{numbers_text, answer_text, loading_text, bad_text};

use crate::put::{put_number, put_text};
use rules::{Answer, ImageRefusal, Refusal, WriteRefusal};

// (Functions, and no From, which only the crate of the type, rules, could have: it is plain data.)
#[tactic(auto, unfolding(rules::specs::Statuses::status_of))]
fn status_of(why: Refusal) -> u64
    ensures { result ≡ status_of why }
{
    match why {
        Refusal::ENOCPU => 1,
        Refusal::ENORADDR => 2,
        Refusal::EBADPGSZ => 4,
        Refusal::EBADTSB => 5,
        Refusal::EINVAL => 6,
        Refusal::EBADTRAP => 7,
        Refusal::EBADALIGN => 8,
        Refusal::EWOULDBLOCK => 9,
        Refusal::ENOTSUPPORTED => 13,
        Refusal::BadTables => 101,
        Refusal::ShortMemory => 102,
        Refusal::NoCaller => 103,
        Refusal::NoSource => 104,
    }
}

// An answer's status and four values.
#[tactic(auto, unfolding(rules::specs::Statuses::numbers))]
pub fn numbers_of(answer: Answer) -> [u64; 5]
    ensures { result ≡ numbers answer }
{
    match answer {
        Answer::Done => [0, 0, 0, 0, 0],
        Answer::One(v) => [0, v, 0, 0, 0],
        Answer::Two(v, w) => [0, v, w, 0, 0],
        Answer::Refused(why) => [status_of(why), 0, 0, 0, 0],
    }
}

// The status of a refused image, and the place that it tells.
#[tactic(auto, unfolding(rules::specs::Statuses::image_numbers))]
fn image_numbers(why: ImageRefusal) -> [u64; 3]
    ensures { result ≡ image_numbers why }
{
    match why {
        ImageRefusal::ImageShort => [110, 0, 0],
        ImageRefusal::HeaderOrCount(guest) => [111, guest as u64, 0],
        ImageRefusal::ExtentNumbers(guest, at) => [112, guest as u64, at as u64],
        ImageRefusal::ExtentOrder(guest, at) => [113, guest as u64, at as u64],
        ImageRefusal::PagesShared(guest, at) => [114, guest as u64, at as u64],
        ImageRefusal::SourceTwice(guest, at) => [115, guest as u64, at as u64],
        ImageRefusal::FillOrBehind(guests) => [116, guests as u64, 0],
    }
}

// The status and two values that loading answers.
#[tactic(auto, unfolding(rules::specs::Statuses::loading_numbers))]
pub fn loading_numbers(answer: Result<(), ImageRefusal>) -> [u64; 3]
    ensures { result ≡ loading_numbers answer }
{
    match answer {
        Ok(()) => [0, 0, 0],
        Err(why) => image_numbers(why),
    }
}

// The status of a refused writing.
#[tactic(auto, unfolding(rules::specs::Statuses::write_status))]
pub fn write_status(why: WriteRefusal) -> u64
    ensures { result ≡ write_status why }
{
    match why {
        WriteRefusal::BadTables => 101,
        WriteRefusal::NoGuest => 105,
        WriteRefusal::ShortBuffer => 106,
    }
}

// Writes n from the place at on, and gives the place behind it.
fn put_hex(n: u64, at: usize, out: &mut [u8]) -> usize
    requires { at + length (hex n) ≤ length out.old }
    ensures { (result ≡ at + length (hex n)) × (out.new ≡ sets out.old at (hex n)) }
{
    put_number(n, 16, at, out)
}

// The first count numbers and a line feed. Each number is written with a space behind it, and the line feed over the last space.
pub fn put_numbers(ns: [u64; 5], count: usize, from: usize, out: &mut [u8]) -> usize
    requires { (1 ≤ count) × (count ≤ 5) × (from + 96 ≤ length out.old) }
    ensures { (result ≡ from + length (numbers_text count ns)) × (out.new ≡ sets out.old from (numbers_text count ns)) }
{
    let mut at = from;
    for n in &ns[..count] {
        at = put_hex(*n, at, out);
        out[at] = b' ';
        at += 1;
    }
    out[at - 1] = b'\n';
    at
}

// The answer to an event. Each put gives the place behind what it wrote.
pub fn put_answer(answer: Answer, at: usize, out: &mut [u8]) -> usize
    requires { at + 96 ≤ length out.old }
    ensures { (result ≡ at + length (answer_text answer)) × (out.new ≡ sets out.old at (answer_text answer)) }
{
    put_numbers(numbers_of(answer), 5, at, out)
}

// The answer to an image: the first three of five numbers.
pub fn put_loading(answer: Result<(), ImageRefusal>, at: usize, out: &mut [u8]) -> usize
    requires { at + 96 ≤ length out.old }
    ensures { (result ≡ at + length (loading_text answer)) × (out.new ≡ sets out.old at (loading_text answer)) }
{
    let [status, one, two] = loading_numbers(answer);
    put_numbers([status, one, two, 0, 0], 3, at, out)
}

// The answer to a line that is none.
pub fn put_bad(at: usize, out: &mut [u8]) -> usize
    requires { at + 96 ≤ length out.old }
    ensures { (result ≡ at + length bad_text) × (out.new ≡ sets out.old at bad_text) }
{
    put_text(b"bad\n", at, out)
}
