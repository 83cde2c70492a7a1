// The reason for what the session printed for a line.
ghost use Rattle.std.specs.Prelude.{◌≡◌};
ghost use Rattle.rules.specs.Text.{field};
ghost use Rattle.reasons.specs.Words.{status_text, unfed, first_piece, fed, reason_by, reason};
ghost use Rattle.reasons.specs.Put.{Put};

use crate::line::why_bad;
use crate::put::ROOM;
use crate::words::{put_meaning, put_why};
use text::{piece_end, put_text, read_number, same_text};

// A status as it is printed.
fn put_status(text: &[u8], out: &mut [u8; ROOM]) -> usize
    ensures { Put out.old out.new 0 result (fed (status_text (field text.now))) }
{
    match read_number(text) {
        None => put_text(b"no status of the rules\n", 0, out),
        Some(status) => put_meaning(status, out),
    }
}

// An answer's first piece: bad, or a status.
fn put_reason_by(line: &[u8], text: &[u8], out: &mut [u8; ROOM]) -> usize
    ensures { Put out.old out.new 0 result (fed (reason_by line.now text.now)) }
{
    if same_text(text, b"bad") {
        return put_why(why_bad(line), out);
    }
    put_status(text, out)
}

// An answer without its line feed.
#[tactic(auto, using(crate::proofs::WordLaws::feeds))]
fn unfed(answer: &[u8]) -> &[u8]
    ensures { result.now ≡ unfed answer.now }
{
    match answer {
        [front @ .., b'\n'] => front,
        _ => answer,
    }
}

fn put_reason_of(line: &[u8], text: &[u8], out: &mut [u8; ROOM]) -> usize
    ensures { Put out.old out.new 0 result (fed (reason_by line.now (first_piece text.now))) }
{
    let end = piece_end(text, 0);
    put_reason_by(line, &text[..end], out)
}

// Writes to the front of out why the session answered a line so, with a line feed, and gives the number of bytes it wrote. The line
// stands without its line feed, the answer with or without its own.
pub fn put_reason(line: &[u8], answer: &[u8], out: &mut [u8; ROOM]) -> usize
    ensures { Put out.old out.new 0 result (reason line.now answer.now) }
{
    put_reason_of(line, unfed(answer), out)
}
