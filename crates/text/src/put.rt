// Texts and numbers, written from a place on. Each put gives the place behind what it wrote.
ghost use Rattle.std.specs.Prelude.{◌≡◌, ◌+◌, ◌<◌, ◌≤◌, length};
ghost use Rattle.rules.specs.Text.{digit_byte};
ghost use Rattle.text.specs.Put.{Put, numeral};

pub fn put_text(text: &[u8], at: usize, out: &mut [u8]) -> usize
    requires { at + length text.now ≤ length out.old }
    ensures { Put out.old out.new at result text.now }
{
    let end = at + text.len();
    out[at..end].copy_from_slice(text);
    end
}

// A digit, in lower case.
pub fn digit_byte(d: u8) -> u8
    requires { d < 16 }
    ensures { result ≡ digit_byte d }
{
    if d < 10 { 0x30 + d } else { 0x57 + d }
}

// n in a base, its leading digits first.
// (The base is an argument: tried as a const parameter, with which rattle's own part of the proof of a recursion does not check.)
pub fn put_number(n: u64, base: u64, at: usize, out: &mut [u8]) -> usize
    requires { (2 ≤ base) × (base ≤ 16) × (at + length (numeral base n) ≤ length out.old) }
    ensures { Put out.old out.new at result (numeral base n) }
{
    if n < base {
        out[at] = digit_byte(n as u8);
        return at + 1;
    }
    let last = put_number(n / base, base, at, out);
    out[last] = digit_byte((n % base) as u8);
    last + 1
}
