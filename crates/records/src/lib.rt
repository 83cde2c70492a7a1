// What a call asks of a record before it is kept. The calls that set a record and the check of the tables both ask here, so that
// a record in the tables is "as its call would accept it". And each record as it is after loading.
#![tactic(auto)]

pub mod blank;

ghost use Rattle.std.specs.Prelude.{◌≡◌, ◌≤◌};
ghost use Rattle.rules.specs.Limits.{extent_limit};
ghost use Rattle.rules.specs.Kept.{present};
ghost use Rattle.rules.specs.Real.{valid};
ghost use Rattle.rules.specs.Scan.{power_of_two◌from◌to◌};
ghost use Rattle.rules.specs.Queues.{new_ring};
ghost use Rattle.rules.specs.Memory.{new_statistics};
ghost use Rattle.rules.specs.Tsb.{is_page_index, ◌is_inside◌, judged_tsb};
ghost use Rattle.records.specs.Verdict.{verdict_of};
ghost use Rattle.records.specs.Masks.{lowest_index};

use rules::{Extents, Refusal, Tsb};

// A number of entries: a power of two from `least` to `most`.
#[tactic(auto, using(crate::proofs::Powers::one_bit))]
fn power_of_two(n: u64, least: u64, most: u64) -> bool
    ensures { result ≡ (power_of_two n from least to most) }
{
    n.is_power_of_two() && least <= n && n <= most
}

// A ring of n entries from base on, as 0x14 accepts it.
#[tactic(auto, unfolding(rules::specs::Queues::new_ring, crate::specs::Verdict::verdict_of))]
pub fn judge_ring(e: Extents, base: u64, n: u64) -> Result<(), Refusal>
    requires { e.extents ≤ extent_limit }
    ensures { result ≡ verdict_of (new_ring (valid (present e)) base n) }
{
    if !power_of_two(n, 2, 256) {
        return Err(Refusal::EINVAL);
    }
    let size = 64 * n;
    if base % size != 0 {
        return Err(Refusal::EBADALIGN);
    }
    if !memory::range_valid(e, base, size) {
        return Err(Refusal::ENORADDR);
    }
    Ok(())
}

// A statistics address, as 0x102 accepts it.
#[tactic(auto, unfolding(rules::specs::Memory::new_statistics, crate::specs::Verdict::verdict_of))]
pub fn judge_statistics(e: Extents, address: u64) -> Result<(), Refusal>
    requires { e.extents ≤ extent_limit }
    ensures { result ≡ verdict_of (new_statistics (valid (present e)) address) }
{
    if address == 0 {
        return Ok(());
    }
    if address % 64 != 0 {
        return Err(Refusal::EBADALIGN);
    }
    if !memory::range_valid(e, address, 512) {
        return Err(Refusal::ENORADDR);
    }
    Ok(())
}

// Page indexes 0, 1, 3 and 5.
#[tactic(auto, unfolding(rules::specs::Tsb::is_page_index))]
pub fn is_page_index(k: u64) -> bool
    ensures { result ≡ is_page_index k }
{
    matches!(k, 0 | 1 | 3 | 5)
}

// The bits that a page mask may have, which are those of the page indexes.
const ALLOWED: u32 = 0x2b;

// No bit of a page mask lies outside 0x2b.
#[tactic(auto, using(crate::proofs::Masks::inside_by_mask))]
fn inside_mask(mask: u32) -> bool
    ensures { result ≡ (mask is_inside 0x2b) }
{
    mask & !ALLOWED == 0
}

// A page index, and the lowest bit set in the mask: with k zeros below it, it is bit k. A mask of 0 has 32 zeros; 32 is no page index.
#[tactic(auto, using(crate::proofs::Masks::lowest_counted), unfolding(crate::specs::Masks::lowest_index))]
fn is_lowest_index(mask: u32, index: u16) -> bool
    ensures { result ≡ lowest_index mask index }
{
    is_page_index(u64::from(index)) && u32::from(index) == mask.trailing_zeros()
}

// A TSB descriptor, as 0x20 and 0x21 accept it.
#[tactic(auto, unfolding(rules::specs::Tsb::judged_tsb, crate::specs::Masks::lowest_index, crate::specs::Verdict::verdict_of))]
pub fn judge_tsb(e: Extents, t: Tsb) -> Result<(), Refusal>
    requires { e.extents ≤ extent_limit }
    ensures { result ≡ verdict_of (judged_tsb (valid (present e)) t) }
{
    if !is_page_index(u64::from(t.index)) || t.mask == 0 || !inside_mask(t.mask) {
        return Err(Refusal::EBADPGSZ);
    }
    let entries = u64::from(t.entries);
    if t.associativity != 1 || !power_of_two(entries, 512, 1_048_576) {
        return Err(Refusal::EBADTSB);
    }
    if t.context != 0 || !is_lowest_index(t.mask, t.index) {
        return Err(Refusal::EINVAL);
    }
    let size = 16 * entries;
    if t.base % size != 0 {
        return Err(Refusal::EBADALIGN);
    }
    if !memory::range_valid(e, t.base, size) {
        return Err(Refusal::ENORADDR);
    }
    Ok(())
}
