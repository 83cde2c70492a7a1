// Which real addresses are a guest's own, and where they lie on the host. A range is followed piece by piece: what of it lies in
// one extent is one run of host bytes.
ghost use Rattle.std.specs.Prelude.{◌≡◌, cond, ◌+◌, ◌^◌, ◌<◌, ◌≤◌};
ghost use Rattle.rules.specs.Limits.{extent_limit};
ghost use Rattle.rules.specs.Real.{low, high, host_offset, holds, reach, valid};
ghost use Rattle.memory.specs.Ready.{present};
ghost use Rattle.memory.specs.Pieces.{part_of, piece_of};

use rules::{Extent, Extents, Host, PAGE_SIZE, Real};

const PAGE: u64 = PAGE_SIZE as u64;

// The extent's first real address.
fn first(x: Extent) -> u64
    ensures { result ≡ low x }
{
    u64::from(x.real) * PAGE
}

// The real address past its last.
fn end(x: Extent) -> u64
    ensures { result ≡ high x }
{
    (u64::from(x.real) + u64::from(x.count)) * PAGE
}

// Whether a real address is one of the extent's.
fn inside(x: Extent, real: Real) -> bool
    ensures { result ≡ holds x real.0 }
{
    first(x) <= real.0 && real.0 < end(x)
}

// The host offset of a real address of the extent.
fn through(x: Extent, real: Real) -> Host
    requires { (low x ≤ real.0) × (real.0 < high x) }
    ensures { result ≡ host_offset x real }
{
    Host((u64::from(x.host) * PAGE + (real.0 - first(x))) as usize)
}

// The end of the extent, if it has the address that was reached; else that address.
fn onward(x: Extent, at: u64) -> u64
    ensures { result ≡ cond (holds x at) (high x) at }
{
    if inside(x, Real(at)) { end(x) } else { at }
}

// How far every address from base on lies in some extent: one step an extent, in the order of the list. The list is taken out, since
// of a slice of the parameter's own all of the record is stored anew, and an extent waits for it.
#[tactic(auto, using(crate::proofs::Holds::onward_on, crate::proofs::Holds::onward_end))]
fn reached(e: Extents, base: u64) -> u64
    requires { e.extents ≤ extent_limit }
    ensures { result ≡ reach (present e) base }
{
    let list = e.extent;
    let mut at = base;
    for x in &list[..e.extents as usize] {
        at = onward(*x, at);
    }
    at
}

// Whether each byte of the range lies in some extent of the guest. No sum of base and len is made, so none can wrap.
#[tactic(auto, using(crate::proofs::Reached::reach_from, crate::proofs::Reached::valid_is))]
pub fn range_valid(e: Extents, base: u64, len: u64) -> bool
    requires { e.extents ≤ extent_limit }
    ensures { result ≡ valid (present e) base len }
{
    let at = reached(e, base);
    len <= at - base
}

// A run of host bytes: where it starts, and how many there are.
#[derive(Clone, Copy)]
pub(crate) struct Piece {
    pub at: Host,
    pub len: usize,
}

// Of the len bytes from a real address of the extent on, those that lie in it.
#[tactic(auto, using(crate::proofs::Holds::part_is))]
fn part(x: Extent, real: Real, len: usize) -> Piece
    requires { (low x ≤ real.0) × (real.0 < high x) }
    ensures { (result ≡ part_of x real.0 len) × (real.0 + result.len < 2 ^ 64) }
{
    let rest = (end(x) - real.0) as usize;
    Piece {
        at: through(x, real),
        len: len.min(rest),
    }
}

// The first piece of the len bytes from a real address on: those in the extent that has the address, or none if no extent has. The
// address behind the piece is a number of 64 bits, so that one can go on from there. The list is taken out as in reached.
#[tactic(auto, using(crate::proofs::Holds::piece_found, crate::proofs::Holds::piece_on, crate::proofs::Holds::piece_none))]
pub(crate) fn piece_at(e: Extents, real: Real, len: usize) -> Piece
    requires { e.extents ≤ extent_limit }
    ensures { (result ≡ piece_of (present e) real.0 len) × (real.0 + result.len < 2 ^ 64) }
{
    let list = e.extent;
    for x in &list[..e.extents as usize] {
        if inside(*x, real) {
            return part(*x, real, len);
        }
    }
    Piece {
        at: Host(0),
        len: 0,
    }
}
