// A TSB hit on a cpu: it is counted in the buffer at the cpu's statistics address. No record changes.
#![tactic(auto)]

ghost use Rattle.std.specs.Prelude.{◌≡◌, ℕ, ◌+◌, ◌%◌, ◌^◌, ◌≤◌, true, [], ◌∷◌, length};
ghost use Rattle.rules.specs.declared.Plant.{Plant as PlantRecord};
ghost use Rattle.rules.specs.Limits.{extent_limit};
ghost use Rattle.rules.specs.Kept.{cpu_at};
ghost use Rattle.rules.specs.Real.{valid, byte_at, sight_of, number_of, apply};
ghost use Rattle.rules.specs.Hits.{hits_offset, adds, tsb_hit};
ghost use Rattle.memory.specs.Ready.{present, Ready};
ghost use Rattle.records.specs.Sound.{BufferSound};
ghost use Rattle.plants.specs.Follows.{Follows};

use plants::{Done, told};
use rules::{Answer, Cpu, Extents, Real, Refusal};

// The word at a real address and n, added modulo 2^64.
fn sum_at(extents: Extents, mem: &[u8], real: Real, n: u64) -> u64
    requires extents_le_extent_limit { extents.extents ≤ extent_limit }
    requires ready { Ready (present extents) (length mem.now) }
    requires real_value { valid (present extents) real.0 8 ≡ true }
    ensures { result ≡ (number_of (byte_at (present extents) mem.now) real.0 8 + n) % 2 ^ 64 }
{
    memory::number::<8>(extents, mem, real).wrapping_add(n)
}

// Where in the buffer the hits are counted: a half for each side, of it a half for each context, of that 16 bytes for each page index.
fn hits_offset(side: u64, context: u64, index: u64) -> u64
    requires { (side ≤ 1) × (context ≤ 1) × (index ≤ 5) }
    ensures { result ≡ hits_offset side context index }
{
    0x100 * side + 0x80 * context + 0x10 * index
}

// One hit of so many ticks more, in the hits word at a real address and the ticks word behind it. Both are read before one is written.
#[tactic(auto, using(crate::proofs::HitLaws::first_valid, crate::proofs::HitLaws::second_valid), unfolding(rules::specs::Real::word_bytes, rules::specs::Real::apply))]
fn count(extents: Extents, mem: &mut [u8], at: u64, ticks: u64)
    requires extents_le_extent_limit { extents.extents ≤ extent_limit }
    requires ready { Ready (present extents) (length mem.old) }
    requires at_value { valid (present extents) at 16 ≡ true }
    ensures { mem.new ≡ apply (present extents) mem.old
        (adds (byte_at (present extents) mem.old) at 1 ∷ adds (byte_at (present extents) mem.old) (at + 8) ticks ∷ []) }
{
    let behind = Real(at + 8);
    let hits_word = memory::word_bytes(sum_at(extents, mem, Real(at), 1));
    let ticks_word = memory::word_bytes(sum_at(extents, mem, behind, ticks));
    memory::write_at(extents, mem, Real(at), &hits_word);
    memory::write_at(extents, mem, behind, &ticks_word);
}

// own is the record of the cpu that hit.
#[tactic(auto, using(plants::proofs::OutcomeLaws::outcomes, crate::proofs::HitLaws::index_most), unfolding(rules::specs::Hits::tsb_hit, rules::specs::Real::apply))]
pub fn tsb_hit(
    extents: Extents,
    own: Cpu,
    mem: &mut [u8],
    side: u64,
    context: u64,
    index: u64,
    ticks: u64,
) -> Done
    requires extents_le_extent_limit { extents.extents ≤ extent_limit }
    requires ready { Ready (present extents) (length mem.old) }
    requires buffer_sound { BufferSound (valid (present extents)) own.statistics }
    ensures { (plant : PlantRecord) (cpu : ℕ) → cpu_at plant cpu ≡ own
        → Follows extents plant (tsb_hit (sight_of (present extents) mem.old) plant cpu side context index ticks)
        mem.old result mem.new }
{
    if side > 1 || context > 1 || !records::is_page_index(index) {
        return told(Answer::Refused(Refusal::EINVAL));
    }
    let address = own.statistics;
    if address == 0 {
        return told(Answer::Done);
    }
    let at = address + hits_offset(side, context, index);
    count(extents, mem, at, ticks);
    told(Answer::Done)
}
