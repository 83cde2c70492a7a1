// An image line: the word, and each byte as two digits.
ghost use Rattle.std.specs.Prelude.{[], ◌∷◌, ◌+◌, ◌*◌, ◌<◌, ◌≤◌, length};
ghost use Rattle.rules.specs.Text.{digit_byte};
ghost use Rattle.rules.specs.Plan.{digit_pairs, image_line};
ghost use Rattle.text.specs.Put.{Put};

use crate::line::{ROOM, put_first};

// The two digits of a byte.
fn put_pair(high: u8, low: u8, at: usize, out: &mut [u8; ROOM]) -> usize
    requires { (high < 16) × (low < 16) × (at + 2 ≤ 8192) }
    ensures { Put out.old out.new at result (digit_byte high ∷ digit_byte low ∷ []) }
{
    out[at] = text::digit_byte(high);
    out[at + 1] = text::digit_byte(low);
    at + 2
}

// Bytes, the high digit of each first.
fn put_pairs(bytes: &[u8], from: usize, out: &mut [u8; ROOM]) -> usize
    requires { from + 2 * length bytes.now ≤ 8192 }
    ensures { Put out.old out.new from result (digit_pairs bytes.now) }
{
    let mut at = from;
    for b in bytes {
        at = put_pair(*b / 16, *b % 16, at, out);
    }
    at
}

pub(crate) fn put_image_line(bytes: &[u8], out: &mut [u8; ROOM]) -> usize
    requires { length bytes.now ≤ 1024 }
    ensures { Put out.old out.new 0 result (image_line bytes.now) }
{
    let from = put_first(b"image", 0, out);
    let end = put_pairs(bytes, from, out);
    out[end] = b'\n';
    end + 1
}
