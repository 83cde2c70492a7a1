// The answers alone.
ghost use Rattle.std.specs.Prelude.{◌≤◌, length, IfOk};
ghost use Rattle.session.specs.Feeding.{AllFed};

use crate::style::{Style, Unwritten, write_text};
use session::Feeder;
use std::io::Write;
use stream::Streams;

#[derive(Drop)]
pub(crate) struct Plain;

impl Style for Plain {
    // In as many turns as the room for answers asks for.
    fn answer_piece<R, W: Write, E: Print>(
        &self,
        streams: &mut Streams<R, W, E>,
        feeder: Feeder,
        mem: &mut [u8],
        piece: &[u8],
        out: &mut [u8],
    ) -> Result<Feeder, Unwritten> {
        let mut left = feeder;
        let mut from = 0;
        // A while: a turn takes as many bytes as the feed did, so no index is counted.
        while from < piece.len() {
            let fed = session::feed(left, mem, &piece[from..], out);
            write_text(streams, &out[..fed.written])?;
            left = fed.feeder;
            from += fed.taken;
        }
        Ok(left)
    }

    fn answer_end<R, W: Write, E: Print>(
        &self,
        streams: &mut Streams<R, W, E>,
        feeder: Feeder,
        mem: &mut [u8],
        out: &mut [u8],
    ) -> Result<(), Unwritten> {
        let fed = session::finish(feeder, mem, out);
        write_text(streams, &out[..fed.written])
    }
}
