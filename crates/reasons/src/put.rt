// A number, written behind a text.
ghost use Rattle.std.specs.Prelude.{◌+◌, ◌≤◌, length};
ghost use Rattle.reasons.specs.Words.{decimal};
ghost use Rattle.reasons.specs.Put.{Put};

use text::put_number;

// As many bytes as the longest text takes, and more.
pub const ROOM: usize = 256;

// Writes a number in decimal.
pub(crate) fn put_decimal(n: usize, at: usize, out: &mut [u8; ROOM]) -> usize
    requires { at + length (decimal n) ≤ 256 }
    ensures { Put out.old out.new at result (decimal n) }
{
    put_number(n as u64, 10, at, out)
}
