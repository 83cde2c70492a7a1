// Why a line is bad.
ghost use Rattle.std.specs.Prelude.{◌≡◌, []};
ghost use Rattle.rules.specs.Text.{pieces};
ghost use Rattle.reasons.specs.Faults.{word_of, last_byte, why_line, why_bad};

use crate::fault::{Fault, Word};
use crate::fields::why_fields;
use crate::image::why_image;
use text::{piece_end, same_text};

// The event that a first word names.
#[tactic(auto, using(crate::proofs::NamedLaws::named))]
fn word_of(text: &[u8]) -> Option<Word>
    ensures { result ≡ word_of text.now }
{
    match text {
        b"call" => Some(Word::Call),
        b"head" => Some(Word::Head),
        b"raise" => Some(Word::Raise),
        b"load" => Some(Word::Load),
        b"store" => Some(Word::Store),
        b"hit" => Some(Word::Hit),
        _ => None,
    }
}

// Of a line that is not too long: its first word, and what follows it.
fn why_line(s: &[u8]) -> Option<Fault>
    ensures { result ≡ why_line (pieces [] s.now) }
{
    let end = piece_end(s, 0);
    if same_text(&s[..end], b"image") {
        return why_image(s, end);
    }
    match word_of(&s[..end]) {
        None => Some(Fault::OtherWord),
        Some(word) => why_fields(s, end, word),
    }
}

#[tactic(auto, unfolding(crate::specs::Faults::last_byte))]
fn last_byte(s: &[u8]) -> u8
    ensures { result ≡ last_byte s.now }
{
    match s.last() {
        None => 0,
        Some(b) => *b,
    }
}

// What is wrong with a line, without its line feed; None where it is good.
pub fn why_bad(line: &[u8]) -> Option<Fault>
    ensures { result ≡ why_bad line.now }
{
    if 2048 < line.len() {
        return Some(Fault::TooLong);
    }
    let fault = why_line(line)?;
    if last_byte(line) == b'\r' {
        return Some(Fault::CarriageReturn);
    }
    Some(fault)
}
