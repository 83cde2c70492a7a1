// The writer of a field: the last bits of a number into bytes as bits in a row, most significant bit first.
ghost use Rattle.std.specs.Prelude.{◌≡◌, ◌+◌, ◌-◌, ◌*◌, ◌/◌, ◌%◌, ◌^◌, ◌<◌, ◌≤◌, length};
ghost use Rattle.rules.specs.Bits.{bits_of};
ghost use Rattle.bits.specs.Put.{put_bits};

use crate::in_byte;

// The k bits of v above its last `below` bits.
fn part_of(v: u64, below: u32, k: u32) -> u32
    requires { (1 ≤ k) × (k ≤ 8) × (below + k ≤ 64) }
    ensures { result ≡ v / 2 ^ below % 2 ^ k }
{
    ((v >> below) & ((1 << k) - 1)) as u32
}

// A byte whose bits before bit `from` stay, whose next k bits are `part`, and whose bits behind them are 0.
fn byte_with(byte: u8, from: u32, k: u32, part: u32) -> u8
    requires { (from + k ≤ 8) × (1 ≤ k) × (part < 2 ^ k) }
    ensures { result ≡ byte / 2 ^ (8 - from) * 2 ^ (8 - from) + part * 2 ^ (8 - from - k) }
{
    (((u32::from(byte) >> (8 - from)) << (8 - from)) | (part << (8 - from - k))) as u8
}

// Writes the n last bits of v from bit `at` on, most significant first. The bits behind them in their last byte become 0.
// Byte by byte, from the byte and the place in it on: the sum `at + n` could wrap.
pub fn put_field(out: &mut [u8], at: u64, n: u32, v: u64)
    requires { (n ≤ 64) × (at + n ≤ 8 * length out.old) }
    ensures { out.new ≡ put_bits out.old at (bits_of n v) }
{
    let mut i = (at >> 3) as usize;
    let mut from = in_byte(at);
    let mut left = n;
    // The measure is what is left to write: a `for` over the bytes would have to treat a field of no bits apart.
    while 0 < left {
        let k = (8 - from).min(left);
        let part = part_of(v, left - k, k);
        out[i] = byte_with(out[i], from, k, part);
        i += 1;
        from = 0;
        left -= k;
    }
}
