// A field of a stream of bits: bytes as bits in a row, most significant bit first, across the borders of bytes.
#![tactic(auto)]

ghost use Rattle.std.specs.Prelude.{◌≡◌, ◌+◌, ◌-◌, ◌*◌, ◌/◌, ◌%◌, ◌^◌, ◌<◌, ◌≤◌, length};
ghost use Rattle.rules.specs.Bits.{field_at};
ghost use Rattle.bits.specs.Field.{field_of};

mod put;

pub use put::put_field;

// The place in its byte of the bit at `at`.
fn in_byte(at: u64) -> u32
    ensures { result ≡ at % 8 }
{
    (at & 7) as u32
}

// Bit k of a byte, from the top; k counts on past the byte's end.
fn bit_of(byte: u8, k: u32) -> u32
    ensures { result ≡ byte / 2 ^ (7 - k % 8) % 2 }
{
    (u32::from(byte) >> (7 - (k & 7))) & 1
}

// One more bit on the right.
fn pushed(v: u32, bit: u32) -> u32
    requires { (v < 2 ^ 31) × (bit < 2) }
    ensures { result ≡ v * 2 + bit }
{
    (v << 1) | bit
}

// The n bits from bit `at` on, which the bytes have.
pub fn number_at(s: &[u8], at: u64, n: u32) -> u32
    requires { (n ≤ 28) × (at + n ≤ 8 * length s.now) }
    ensures { result ≡ field_at s.now at n }
{
    let first = (at >> 3) as usize;
    let start = in_byte(at);
    let mut v = 0;
    for k in 0..n {
        let p = start + k;
        v = pushed(v, bit_of(s[first + (p >> 3) as usize], p));
    }
    v
}

// The n bits from bit `at` on; None where the bytes end before the last of them, or they are more than 28.
// The bytes needed are counted from the first one: the sum `at + n` could wrap.
pub fn field_at(s: &[u8], at: u64, n: u32) -> Option<u32>
    ensures { result ≡ field_of s.now at n }
{
    if 28 < n {
        return None;
    }
    let first = (at >> 3) as usize;
    let need = ((in_byte(at) + n + 7) >> 3) as usize;
    if s.len() < first + need {
        return None;
    }
    Some(number_at(s, at, n))
}
