// How a program answers.
ghost use Rattle.std.specs.Prelude.{◌≤◌, length, IfOk};
ghost use Rattle.session.specs.Feeding.{AllFed};

use session::Feeder;
use std::io::Write;
use stream::Streams;

// A write failed, which has been told.
#[derive(Drop)]
pub(crate) struct Unwritten;

// What a style makes of the input, and of its end.
pub(crate) trait Style {
    // Feeds all of a piece, and writes the answers. No byte is lost: unless a write failed, the session stands where every byte of the
    // piece leaves it.
    fn answer_piece<R, W: Write, E: Print>(
        &self,
        streams: &mut Streams<R, W, E>,
        feeder: Feeder,
        mem: &mut [u8],
        piece: &[u8],
        out: &mut [u8],
    ) -> Result<Feeder, Unwritten>
        requires { 96 ≤ length out.old }
        ensures { IfOk result (λ after. AllFed feeder mem.old piece.now after mem.new) };

    // The end of the input answers a last line that has no line feed.
    fn answer_end<R, W: Write, E: Print>(
        &self,
        streams: &mut Streams<R, W, E>,
        feeder: Feeder,
        mem: &mut [u8],
        out: &mut [u8],
    ) -> Result<(), Unwritten>
        requires { 96 ≤ length out.old };
}

// Writes all of a text.
pub(crate) fn write_text<R, W: Write, E: Print>(
    streams: &mut Streams<R, W, E>,
    text: &[u8],
) -> Result<(), Unwritten> {
    let n = stream::write_all(streams, text, b"chaldrev: standard output");
    if n == text.len() {
        Ok(())
    } else {
        Err(Unwritten)
    }
}
