// A guest's memory by real address: each range is valid, and followed piece by piece over its extents.
ghost use Rattle.std.specs.Prelude.{◌≡◌, true, ◌<◌, ◌≤◌, ◌^◌, length, replicate};
ghost use Rattle.rules.specs.Limits.{extent_limit};
ghost use Rattle.rules.specs.Real.{valid, byte_at, number_of, bytes_from, apply};
ghost use Rattle.memory.specs.Cells.{one};
ghost use Rattle.memory.specs.Ready.{present, Ready};

use crate::extents::{Piece, piece_at};
use crate::runs::{number_in, write, zero};
use rules::{Extents, Host, Real};

// Fills out with the bytes from a real address on.
#[tactic(auto, using(crate::proofs::Walks::walks, crate::proofs::Walks::walk_read), unfolding(rules::specs::Real::bytes_from))]
fn read_at(e: Extents, mem: &[u8], real: Real, out: &mut [u8])
    requires extents_le_extent_limit { e.extents ≤ extent_limit }
    requires ready { Ready (present e) (length mem.now) }
    requires out_value { valid (present e) real.0 (length out.old) ≡ true }
    ensures { out.new ≡ bytes_from (byte_at (present e) mem.now) real.0 (length out.old) }
{
    let mut i = 0;
    // a while: a turn goes on by a whole piece, so no index is counted
    while i < out.len() {
        let Piece { at: Host(at), len } = piece_at(e, Real(real.0 + i as u64), out.len() - i);
        out[i..i + len].copy_from_slice(&mem[at..at + len]);
        i += len;
    }
}

// The N bytes from a real address on.
pub fn bytes<const N: usize>(e: Extents, mem: &[u8], real: Real) -> [u8; N]
    requires extents_le_extent_limit { e.extents ≤ extent_limit }
    requires ready { Ready (present e) (length mem.now) }
    requires real_value { valid (present e) real.0 N ≡ true }
    ensures { result ≡ bytes_from (byte_at (present e) mem.now) real.0 N }
{
    let mut out = [0u8; N];
    read_at(e, mem, real, &mut out);
    out
}

// The number that the K bytes from a real address on make.
#[tactic(auto, using(crate::proofs::Walks::number_read))]
pub fn number<const K: usize>(e: Extents, mem: &[u8], real: Real) -> u64
    requires k_bound { K ≤ 8 }
    requires extents_le_extent_limit { e.extents ≤ extent_limit }
    requires ready { Ready (present e) (length mem.now) }
    requires real_value { valid (present e) real.0 K ≡ true }
    ensures { (result ≡ number_of (byte_at (present e) mem.now) real.0 K) × (result < 256 ^ K) }
{
    number_in(&bytes::<K>(e, mem, real))
}

// Writes src from a real address on.
#[tactic(auto, using(crate::proofs::Walks::walks), unfolding(rules::specs::Real::put_bytes))]
pub fn write_at(e: Extents, mem: &mut [u8], real: Real, src: &[u8])
    requires extents_le_extent_limit { e.extents ≤ extent_limit }
    requires ready { Ready (present e) (length mem.old) }
    requires src_value { valid (present e) real.0 (length src.now) ≡ true }
    ensures { mem.new ≡ apply (present e) mem.old (one real.0 src.now) }
{
    let mut i = 0;
    // a while: as in read_at
    while i < src.len() {
        let Piece { at: Host(at), len } = piece_at(e, Real(real.0 + i as u64), src.len() - i);
        write(mem, at, &src[i..i + len]);
        i += len;
    }
}

// Zeroes n bytes from a real address on.
#[tactic(auto, using(crate::proofs::Walks::walks), unfolding(rules::specs::Real::put_bytes))]
pub fn zero_at(e: Extents, mem: &mut [u8], real: Real, n: usize)
    requires extents_le_extent_limit { e.extents ≤ extent_limit }
    requires ready { Ready (present e) (length mem.old) }
    requires n_value { valid (present e) real.0 n ≡ true }
    ensures { mem.new ≡ apply (present e) mem.old (one real.0 (replicate n 0)) }
{
    let mut i = 0;
    // a while: as in read_at
    while i < n {
        let left = n - i;
        let Piece { at: Host(at), len } = piece_at(e, Real(real.0 + i as u64), left);
        zero(mem, at, len);
        i += len;
    }
}
