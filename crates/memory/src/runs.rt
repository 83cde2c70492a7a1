// The host's memory by offset: runs of bytes, and the big-endian numbers that they make.
ghost use Rattle.std.specs.Prelude.{◌≡◌, ◌+◌, ◌<◌, ◌≤◌, ◌^◌, length, replicate};
ghost use Rattle.std.proofs.lemmas.List.Edits.{sets};
ghost use Rattle.rules.specs.Real.{number_of, word_bytes};
ghost use Rattle.memory.specs.Cells.{cell};

// Copies src into mem from the offset at.
#[tactic(auto, using(crate::proofs::Stores::copy_stores))]
pub fn write(mem: &mut [u8], at: usize, src: &[u8])
    requires { at + length src.now ≤ length mem.old }
    ensures { mem.new ≡ sets mem.old at src.now }
{
    mem[at..at + src.len()].copy_from_slice(src);
}

// Zeroes n bytes of mem from the offset at.
#[tactic(auto, using(crate::proofs::Stores::fill_stores))]
pub(crate) fn zero(mem: &mut [u8], at: usize, n: usize)
    requires { at + n ≤ length mem.old }
    ensures { mem.new ≡ sets mem.old at (replicate n 0) }
{
    mem[at..at + n].fill(0);
}

// The number that bytes make, most significant first.
#[tactic(auto, using(crate::proofs::Numbers::number_more, crate::proofs::Numbers::number_below, crate::proofs::Numbers::number_end), unfolding(rules::specs::Real::number_of))]
pub(crate) fn number_in(bytes: &[u8]) -> u64
    requires { length bytes.now ≤ 8 }
    ensures { (result ≡ number_of (cell bytes.now) 0 (length bytes.now)) × (result < 256 ^ length bytes.now) }
{
    let mut v = 0;
    for b in bytes {
        v = v * 256 + u64::from(*b);
    }
    v
}

// The bytes of a word, most significant first.
#[tactic(auto, unfolding(rules::specs::Real::word_bytes))]
pub fn word_bytes(v: u64) -> [u8; 8]
    ensures { result ≡ word_bytes v }
{
    v.to_be_bytes()
}
