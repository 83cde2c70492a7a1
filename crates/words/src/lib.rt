// Memory by whole pages and by words: scrub (0x31), sync (0x32), store and load. None of them reads or changes the plant's
// record, so the contracts hold for every plant.
#![tactic(auto)]

ghost use Rattle.std.specs.Prelude.{◌≡◌, ◌≤◌, length};
ghost use Rattle.rules.specs.declared.Plant.{Plant as PlantRecord};
ghost use Rattle.rules.specs.Limits.{extent_limit};
ghost use Rattle.rules.specs.Real.{valid, sight_of};
ghost use Rattle.rules.specs.Rulings.{Ruling, Outcome, outcome_of};
ghost use Rattle.rules.specs.Memory.{whole_pages, whole_word, mem_scrub, mem_sync, store_word, load_word};
ghost use Rattle.memory.specs.Ready.{present, Ready};
ghost use Rattle.plants.specs.Done.{quietly};
ghost use Rattle.plants.specs.Follows.{Follows};
ghost use Rattle.plants.specs.Judged.{judged};

use plants::{Done, told};
use rules::{Answer, Extents, PAGE_SIZE, Real, Refusal};

const PAGE: u64 = PAGE_SIZE as u64;

// A scrub zeroes at most so many bytes.
const SCRUB: u64 = 32768;

// What scrub and sync ask of a range.
#[tactic(auto, unfolding(rules::specs::Memory::whole_pages, plants::specs::Judged::judged))]
fn judge_pages(extents: Extents, address: u64, size: u64) -> Result<(), Refusal>
    requires { extents.extents ≤ extent_limit }
    ensures { (rest : Ruling Outcome) → whole_pages (valid (present extents)) address size rest ≡ judged result rest }
{
    if size == 0 {
        return Err(Refusal::EINVAL);
    }
    if address % PAGE != 0 || size % PAGE != 0 {
        return Err(Refusal::EBADALIGN);
    }
    if !memory::range_valid(extents, address, size) {
        return Err(Refusal::ENORADDR);
    }
    Ok(())
}

// What store and load ask of an address.
#[tactic(auto, unfolding(rules::specs::Memory::whole_word, plants::specs::Judged::judged))]
fn judge_word(extents: Extents, address: u64) -> Result<(), Refusal>
    requires { extents.extents ≤ extent_limit }
    ensures { (rest : Ruling Outcome) → whole_word (valid (present extents)) address rest ≡ judged result rest }
{
    if address % 8 != 0 {
        return Err(Refusal::EBADALIGN);
    }
    if !memory::range_valid(extents, address, 8) {
        return Err(Refusal::ENORADDR);
    }
    Ok(())
}

// 0x31: the first bytes of a range of pages become 0.
#[tactic(auto, using(plants::proofs::OutcomeLaws::outcomes, crate::proofs::WordLaws::scrub_first), unfolding(rules::specs::Memory::mem_scrub, plants::specs::Judged::judged, rules::specs::Real::apply))]
pub fn mem_scrub(extents: Extents, mem: &mut [u8], address: u64, size: u64) -> Done
    requires extents_le_extent_limit { extents.extents ≤ extent_limit }
    requires ready { Ready (present extents) (length mem.old) }
    ensures { (plant : PlantRecord) →
        Follows extents plant (mem_scrub (valid (present extents)) plant address size)
        mem.old result mem.new }
{
    match judge_pages(extents, address, size) {
        Err(r) => told(Answer::Refused(r)),
        Ok(()) => {
            let n = size.min(SCRUB);
            memory::zero_at(extents, mem, Real(address), n as usize);
            told(Answer::One(n))
        }
    }
}

// 0x32: nothing is kept back, so all of a range of pages is there at once.
#[tactic(auto, using(plants::proofs::OutcomeLaws::outcomes), unfolding(rules::specs::Memory::mem_sync, plants::specs::Judged::judged))]
pub fn mem_sync(extents: Extents, address: u64, size: u64) -> Done
    requires { extents.extents ≤ extent_limit }
    ensures { (plant : PlantRecord) → quietly plant result ≡ outcome_of plant (mem_sync (valid (present extents)) plant address size) }
{
    match judge_pages(extents, address, size) {
        Err(r) => told(Answer::Refused(r)),
        Ok(()) => told(Answer::One(size)),
    }
}

// A store of one word.
#[tactic(auto, using(crate::proofs::WordLaws::word_valid), unfolding(rules::specs::Memory::store_word, rules::specs::Real::word_bytes, plants::specs::Judged::judged, rules::specs::Real::apply, plants::specs::Changes::done_by, plants::specs::Changes::plant_after, plants::specs::Changes::changed_by))]
pub fn store_word(extents: Extents, mem: &mut [u8], address: u64, value: u64) -> Done
    requires extents_le_extent_limit { extents.extents ≤ extent_limit }
    requires ready { Ready (present extents) (length mem.old) }
    ensures { (plant : PlantRecord) →
        Follows extents plant (store_word (valid (present extents)) plant address value)
        mem.old result mem.new }
{
    match judge_word(extents, address) {
        Err(r) => told(Answer::Refused(r)),
        Ok(()) => {
            let word = memory::word_bytes(value);
            memory::write_at(extents, mem, Real(address), &word);
            told(Answer::Done)
        }
    }
}

// A load of one word.
#[tactic(auto, using(plants::proofs::OutcomeLaws::outcomes, crate::proofs::WordLaws::word_valid), unfolding(rules::specs::Memory::load_word, plants::specs::Judged::judged, rules::specs::Real::apply))]
pub fn load_word(extents: Extents, mem: &[u8], address: u64) -> Done
    requires extents_le_extent_limit { extents.extents ≤ extent_limit }
    requires ready { Ready (present extents) (length mem.now) }
    ensures { (plant : PlantRecord) →
        Follows extents plant (load_word (sight_of (present extents) mem.now) plant address)
        mem.now result mem.now }
{
    match judge_word(extents, address) {
        Err(r) => told(Answer::Refused(r)),
        Ok(()) => {
            let word = memory::number::<8>(extents, mem, Real(address));
            told(Answer::One(word))
        }
    }
}
