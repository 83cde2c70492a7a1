// An image in a line: hex digits, even in number.
ghost use Rattle.std.specs.Prelude.{◌≡◌, ◌≤◌, length, drop};
ghost use Rattle.text.specs.Pieces.{unspaced};
ghost use Rattle.reasons.specs.Faults.{why_image};

use crate::fault::Fault;
use text::digit_of;

// The image that is left from the place from on. odd: a digit waits for the second one of its byte.
pub(crate) fn why_image(s: &[u8], from: usize) -> Option<Fault>
    requires { from ≤ length s.now }
    ensures { result ≡ why_image (unspaced (drop from s.now)) }
{
    let mut odd = false;
    for b in &s[from..] {
        if *b == b' ' {
            continue;
        }
        if digit_of(*b).is_none() {
            return Some(Fault::NoDigit);
        }
        odd = !odd;
    }
    if odd {
        return Some(Fault::OddDigits);
    }
    None
}
