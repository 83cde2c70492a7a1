// An image in a line: "any number of hex digits, none included, its spaces skipped".
ghost use Rattle.std.specs.Prelude.{◌≡◌, List, ℕ, ◌≤◌, length, drop, Some};
ghost use Rattle.std.specs.Option.{option_map};
ghost use Rattle.std.proofs.lemmas.List.Edits.{sets};
ghost use Rattle.text.specs.Pieces.{image_at};

use crate::number::digit_of;

// Reads the image that is left from the place from on into out, and gives the number of its bytes; None where a byte is no digit,
// or the digits are odd in number. A first digit waits in high for the second one of its byte.
pub(crate) fn read_image(s: &[u8], from: usize, out: &mut [u8; 1024]) -> Option<usize>
    requires { (from ≤ length s.now) × (length s.now ≤ 2048) }
    ensures size { result ≡ option_map length (image_at (drop from s.now)) }
    ensures bytes { (bytes : List ℕ) → image_at (drop from s.now) ≡ Some bytes
        → out.new ≡ sets out.old 0 bytes }
{
    let mut n = 0;
    let mut high = None;
    for b in &s[from..] {
        if *b == b' ' {
            continue;
        }
        let d = digit_of(*b)?;
        match high {
            None => high = Some(d),
            Some(first) => {
                out[n] = first * 16 + d;
                n += 1;
                high = None;
            }
        }
    }
    match high {
        None => Some(n),
        Some(_) => None,
    }
}
