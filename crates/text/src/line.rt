// What a line says.
ghost use Rattle.std.specs.Prelude.{◌≡◌, ◌≤◌, length, drop};
ghost use Rattle.std.proofs.lemmas.List.Edits.{sets};
ghost use Rattle.rules.specs.Text.{parse, image_or};
ghost use Rattle.text.specs.Pieces.{image_at};
ghost use Rattle.text.specs.Lines.{told, image_of};

use crate::digits::read_image;
use crate::event::event_line;
use crate::piece::piece_end;
use rules::Event;

// The bytes of an image are read by image_bytes.
#[derive(Clone, Copy, PartialEq, Eq)]
pub enum Line {
    Bad,
    Image,
    Event(Event),
}

// An image line whose first word ends at `end`. Its bytes go into a buffer that is dropped: only whether they are right is asked.
fn image_line(s: &[u8], end: usize) -> Line
    requires { (end ≤ length s.now) × (length s.now ≤ 2048) }
    ensures { result ≡ told (image_or (image_at (drop end s.now))) }
{
    let mut bytes = [0; 1024];
    match read_image(s, end, &mut bytes) {
        None => Line::Bad,
        Some(_) => Line::Image,
    }
}

// A line without its line feed.
#[tactic(auto, using(crate::proofs::LineLaws::parsed))]
pub fn parse_line(s: &[u8]) -> Line
    ensures { result ≡ told (parse s.now) }
{
    if 2048 < s.len() {
        return Line::Bad;
    }
    let end = piece_end(s, 0);
    let word = &s[..end];
    match word {
        b"image" => image_line(s, end),
        _ => event_line(s, end),
    }
}

// Writes the bytes of an image line to the front of out, and gives their number: 0, with nothing written, for any other line.
pub fn image_bytes(s: &[u8], out: &mut [u8; 1024]) -> usize
    ensures { (result ≡ length (image_of (parse s.now)))
        × (out.new ≡ sets out.old 0 (image_of (parse s.now))) }
{
    match parse_line(s) {
        Line::Image => read_image(s, piece_end(s, 0), out).unwrap_or(0),
        Line::Bad | Line::Event(_) => 0,
    }
}
