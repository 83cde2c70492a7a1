// TSB lists: 0x20 and 0x21.
ghost use Rattle.std.specs.Prelude.{◌≡◌, true, ◌*◌, ◌<◌, ◌≤◌, length};
ghost use Rattle.rules.specs.declared.Plant.{Plant as PlantRecord};
ghost use Rattle.rules.specs.Limits.{cpu_limit, extent_limit, tsb_limit};
ghost use Rattle.rules.specs.Real.{valid, byte_at, sight_of};
ghost use Rattle.rules.specs.Tsb.{descriptor_at, new_tsbs, mmu_tsb_ctx0, mmu_tsb_ctxnon0};
ghost use Rattle.memory.specs.Ready.{present, Ready};
ghost use Rattle.plants.specs.Follows.{Follows};
ghost use Rattle.mmu.specs.Lists.{listed, ruled, set_tsbs};

use plants::{Change, CpuChange, Done, done_by, told};
use records::blank;
use rules::{Answer, Extents, Real, Refusal, TSBS, Tsb, Tsbs};

// The descriptor at a real address, all of it but the reserved word.
fn descriptor_at(extents: Extents, mem: &[u8], real: Real) -> Tsb
    requires extents_le_extent_limit { extents.extents ≤ extent_limit }
    requires ready { Ready (present extents) (length mem.now) }
    requires real_value { valid (present extents) real.0 32 ≡ true }
    ensures { result ≡ descriptor_at (byte_at (present extents) mem.now) real.0 }
{
    let at = real.0;
    Tsb {
        index: memory::number::<2>(extents, mem, real) as u16,
        associativity: memory::number::<2>(extents, mem, Real(at + 2)) as u16,
        entries: memory::number::<4>(extents, mem, Real(at + 4)) as u32,
        context: memory::number::<4>(extents, mem, Real(at + 8)) as u32,
        mask: memory::number::<4>(extents, mem, Real(at + 12)) as u32,
        base: memory::number::<8>(extents, mem, Real(at + 16)),
    }
}

// The descriptors from pointer on: the first bad one decides.
fn read_tsbs(extents: Extents, mem: &[u8], count: u8, pointer: u64) -> Result<Tsbs, Refusal>
    requires extents_le_extent_limit { (extents.extents ≤ extent_limit) × (count ≤ tsb_limit) }
    requires ready { Ready (present extents) (length mem.now) }
    requires count_value { valid (present extents) pointer (32 * count) ≡ true }
    ensures { listed (sight_of (present extents) mem.now) pointer count ≡ ruled result }
{
    let mut list = blank::tsbs();
    for i in 0..count {
        let t = descriptor_at(extents, mem, Real(pointer + 32 * u64::from(i)));
        records::judge_tsb(extents, t)?;
        list.tsb[i as usize] = t;
    }
    list.tsbs = count;
    Ok(list)
}

// The list that 0x20 and 0x21 set.
#[tactic(auto, unfolding(rules::specs::Tsb::new_tsbs, crate::specs::Lists::listed, crate::specs::Lists::ruled))]
fn new_tsbs(extents: Extents, mem: &[u8], ntsb: u64, pointer: u64) -> Result<Tsbs, Refusal>
    requires extents_le_extent_limit { extents.extents ≤ extent_limit }
    requires ready { Ready (present extents) (length mem.now) }
    ensures { new_tsbs (sight_of (present extents) mem.now) ntsb pointer ≡ ruled result }
{
    if ntsb == 0 {
        return Ok(blank::tsbs());
    }
    if ntsb > TSBS as u64 {
        return Err(Refusal::EINVAL);
    }
    if pointer % 8 != 0 {
        return Err(Refusal::EBADALIGN);
    }
    if !memory::range_valid(extents, pointer, 32 * ntsb) {
        return Err(Refusal::ENORADDR);
    }
    read_tsbs(extents, mem, ntsb as u8, pointer)
}

// What 0x20 and 0x21 share: a new list is read, and the change sets it. The plant's record is not read.
fn set_tsbs(extents: Extents, mem: &[u8], ntsb: u64, pointer: u64, change: Change) -> Done
    requires extents_le_extent_limit { extents.extents ≤ extent_limit }
    requires ready { Ready (present extents) (length mem.now) }
    ensures { (plant : PlantRecord) →
        Follows extents plant (set_tsbs (sight_of (present extents) mem.now) plant ntsb pointer change)
        mem.now result mem.now }
{
    match new_tsbs(extents, mem, ntsb, pointer) {
        Err(r) => told(Answer::Refused(r)),
        Ok(tsbs) => Done {
            tsbs,
            ..done_by(Answer::Done, change)
        },
    }
}

// 0x20: the list for context 0, whatever the plant's record is.
pub fn mmu_tsb_ctx0(extents: Extents, mem: &[u8], cpu: usize, ntsb: u64, pointer: u64) -> Done
    requires extents_le_extent_limit { extents.extents ≤ extent_limit }
    requires ready { Ready (present extents) (length mem.now) }
    requires cpu_lt_cpu_limit { cpu < cpu_limit }
    ensures { (plant : PlantRecord) →
        Follows extents plant (mmu_tsb_ctx0 (sight_of (present extents) mem.now) plant cpu ntsb pointer)
        mem.now result mem.now }
{
    let change = Change::Cpu(cpu, CpuChange::Ctx0);
    set_tsbs(extents, mem, ntsb, pointer, change)
}

// 0x21: the list for the other contexts, whatever the plant's record is.
pub fn mmu_tsb_ctxnon0(extents: Extents, mem: &[u8], cpu: usize, ntsb: u64, pointer: u64) -> Done
    requires extents_le_extent_limit { extents.extents ≤ extent_limit }
    requires ready { Ready (present extents) (length mem.now) }
    requires cpu_lt_cpu_limit { cpu < cpu_limit }
    ensures { (plant : PlantRecord) →
        Follows extents plant (mmu_tsb_ctxnon0 (sight_of (present extents) mem.now) plant cpu ntsb pointer)
        mem.now result mem.now }
{
    let change = Change::Cpu(cpu, CpuChange::Ctxnon0);
    set_tsbs(extents, mem, ntsb, pointer, change)
}
