// A program's standard input and output. What fails is told on standard error, and is never taken for the end of the input.
#![tactic(auto)]

ghost use Rattle.std.specs.Prelude.{◌≡◌, ◌<◌, ◌≤◌, length, take};
ghost use Rattle.std.specs.Io.KnownBytes.{Appends, Consumes, IsAtEnd};
ghost use Rattle.stream.specs.Streams.{IsPrefixLen, got_of, bytes_of};

use std::io::{Error, ErrorKind, Read, Write};

// What a program reads and writes, and where it tells what failed: standard input, output and error, or what stands for them. Nothing
// is flushed, so an output has to keep nothing back, as standard output does.
#[derive(Drop)]
pub struct Streams<R, W, E> {
    pub input: R,
    pub output: W,
    pub errors: E,
}

// What a read came to: so many bytes, at least one, at the front of the buffer; the end of the input; nothing, since a signal came
// first; a failure. Each asks for something else, so they are four cases: Result and Option, one in the other, would name none of them.
#[derive(Drop)]
pub enum Got {
    Bytes(usize),
    End,
    Again,
    Failed,
}

// The number of bytes that came, or the kind of the failure.
fn got_of(read: Result<usize, ErrorKind>) -> Got
    ensures { result ≡ got_of read }
{
    match read {
        Ok(0) => Got::End,
        Ok(n) => Got::Bytes(n),
        Err(ErrorKind::Interrupted) => Got::Again,
        Err(_) => Got::Failed,
    }
}

// What failed, and why. Where that cannot be written there is nowhere left to tell it.
fn tell<E: Print>(errors: &E, what: &[u8], error: &Error) {
    let _ = errors.write_all(what);
    let _ = errors.println(format_args!(": {error}"));
}

// Reads once. A failure is told as what. No byte is lost: those that are no longer to be read are at the front of the buffer. With room
// in it, the end is told only where nothing is left.
pub fn read_some<R: Read, W, E: Print>(
    streams: &mut Streams<R, W, E>,
    buf: &mut [u8],
    what: &[u8],
) -> Got
    ensures counted { IsPrefixLen (bytes_of result) buf.new }
    ensures taken { Consumes (R.remaining streams.old.input) (R.remaining streams.new.input) (take (bytes_of result) buf.new) }
    ensures ended { result ≡ Got.End → 0 < length buf.new → IsAtEnd (R.remaining streams.new.input) }
{
    match streams.input.read(buf) {
        Ok(n) => got_of(Ok(n)),
        Err(error) => {
            let kind = error.kind();
            // A signal came before any byte did: the call can be made again.
            if kind != ErrorKind::Interrupted {
                tell(&streams.errors, what, &error);
            }
            got_of(Err(kind))
        }
    }
}

// Writes bytes, and tells how many of them were written, which are the first: all, unless a write failed. A failure is told as what;
// a closed pipe is not, since nobody reads the output any more. A proved loop has to end, and a write can be interrupted any number of
// times: this one has more turns than any run uses up.
pub fn write_all<R, W: Write, E: Print>(
    streams: &mut Streams<R, W, E>,
    bytes: &[u8],
    what: &[u8],
) -> usize
    ensures counted { result ≤ length bytes.now }
    ensures written { Appends (W.contents streams.old.output) (W.contents streams.new.output) (take result bytes.now) }
{
    let mut done = 0;
    for _ in 0..u64::MAX {
        if done == bytes.len() {
            return done;
        }
        match streams.output.write(&bytes[done..]) {
            Ok(0) => {
                tell(&streams.errors, what, &Error::from(ErrorKind::WriteZero));
                return done;
            }
            Ok(n) => done += n,
            Err(error) => match error.kind() {
                ErrorKind::Interrupted => {}
                ErrorKind::BrokenPipe => return done,
                _ => {
                    tell(&streams.errors, what, &error);
                    return done;
                }
            },
        }
    }
    done
}
