// Queues: 0x14, 0x15, 0x16 and the head write.
#![tactic(auto)]

ghost use Rattle.std.specs.Prelude.{◌≡◌, ℕ, ◌≤◌, ◌<◌, ◌-◌};
ghost use Rattle.rules.specs.Limits.{cpu_limit, extent_limit};
ghost use Rattle.rules.specs.Rulings.{outcome_of};
ghost use Rattle.rules.specs.declared.Plant.{Plant as PlantRecord};
ghost use Rattle.rules.specs.Kept.{present, cpu_at, queue_at, with_head};
ghost use Rattle.rules.specs.Real.{valid};
ghost use Rattle.rules.specs.Queues.{forward, cpu_qconf, cpu_qinfo, cpu_myid, write_head};
ghost use Rattle.plants.specs.Changes.{done_by};
ghost use Rattle.plants.specs.Done.{quietly, saying};
ghost use Rattle.queues.specs.Places.{place_of};
ghost use Rattle.queues.specs.Rings.{PlacesIn, PlacesSound, new_head, moved_of};

use plants::{Change, CpuChange, Done, done_by, told};
use rules::{Answer, Cpu, Extents, Plant, QueueRecord, Refusal, Ring};

// The place of a queue in the cpu's record, where the number is a queue's.
#[tactic(auto, unfolding(crate::specs::Places::place_of))]
fn place_of(queue: u64) -> Option<usize>
    ensures { result ≡ place_of queue }
{
    match queue {
        0x3c..=0x3f => Some((queue - 0x3c) as usize),
        _ => None,
    }
}

// Queue q of a cpu holds another record.
fn held_now(cpu: usize, q: usize, held: QueueRecord) -> Done
    ensures { result ≡ done_by Answer.Done (Change.Cpu cpu (CpuChange.Queue q held)) }
{
    done_by(Answer::Done, Change::Cpu(cpu, CpuChange::Queue(q, held)))
}

// 0x14: a queue's ring is set, or with n = 0 unset.
#[tactic(auto, using(plants::proofs::OutcomeLaws::outcomes, records::proofs::Told::ring_told, records::proofs::Told::entries_most), unfolding(rules::specs::Queues::cpu_qconf, crate::specs::Places::place_of))]
pub fn cpu_qconf(extents: Extents, plant: Plant, cpu: usize, queue: u64, base: u64, n: u64) -> Done
    requires { (extents.extents ≤ extent_limit) × (cpu < cpu_limit) }
    ensures { quietly plant result ≡ outcome_of plant (cpu_qconf (valid (present extents)) plant cpu queue base n) }
{
    let Some(q) = place_of(queue) else {
        return told(Answer::Refused(Refusal::EINVAL));
    };
    if n == 0 {
        return held_now(cpu, q, QueueRecord::Unset);
    }
    match records::judge_ring(extents, base, n) {
        Err(r) => told(Answer::Refused(r)),
        Ok(()) => {
            let ring = Ring {
                base,
                size: (64 * n) as u16,
                head: 0,
                tail: 0,
            };
            held_now(cpu, q, QueueRecord::Set(ring))
        }
    }
}

// 0x15: a queue's base and number of entries, both 0 if it is unset; own is the cpu's record, whatever else the plant's is.
#[tactic(auto, unfolding(rules::specs::Queues::cpu_qinfo, crate::specs::Places::place_of))]
pub fn cpu_qinfo(own: Cpu, queue: u64) -> Answer
    ensures { (plant : PlantRecord) (cpu : ℕ) → cpu_at plant cpu ≡ own → saying plant result ≡ outcome_of plant (cpu_qinfo plant cpu queue) }
{
    let Some(q) = place_of(queue) else {
        return Answer::Refused(Refusal::EINVAL);
    };
    match own.queue[q].held {
        QueueRecord::Unset => Answer::Two(0, 0),
        QueueRecord::Set(ring) => Answer::Two(ring.base, u64::from(ring.size / 64)),
    }
}

// 0x16: the cpu's own number, whatever the plant's record is.
#[tactic(auto, unfolding(rules::specs::Queues::cpu_myid))]
pub fn cpu_myid(cpu: usize) -> Answer
    ensures { (plant : PlantRecord) → saying plant result ≡ outcome_of plant (cpu_myid plant cpu) }
{
    Answer::One(cpu as u64)
}

// How far a place of the ring lies forward from its head.
fn forward_to(ring: Ring, to: u64) -> u64
    requires { (ring.head < ring.size) × (to < ring.size) }
    ensures { result ≡ forward ring to }
{
    let size = u64::from(ring.size);
    (to + size - u64::from(ring.head)) % size
}

// The one field of one ring is moved; the other three stay.
fn move_head(ring: &mut Ring, to: u16)
    ensures { ring.new ≡ with_head ring.old to }
{
    ring.head = to;
}

// The head moves forward, at most to the tail.
#[tactic(auto, unfolding(crate::specs::Rings::new_head, crate::specs::Rings::moved_of))]
fn head_moves(ring: Ring, value: u64) -> Result<Ring, Refusal>
    requires { PlacesIn ring }
    ensures { result ≡ moved_of (new_head ring value) }
{
    if value % 64 != 0 {
        return Err(Refusal::EBADALIGN);
    }
    if u64::from(ring.size) <= value {
        return Err(Refusal::EINVAL);
    }
    let there = forward_to(ring, value);
    let last = forward_to(ring, u64::from(ring.tail));
    if last < there {
        return Err(Refusal::EINVAL);
    }
    let mut next = ring;
    move_head(&mut next, value as u16);
    Ok(next)
}

// The head write: it moves the one field of one ring. Of the plant it reads the cpu's own record only.
#[tactic(auto, using(plants::proofs::OutcomeLaws::outcomes), unfolding(rules::specs::Queues::write_head, crate::specs::Places::place_of, crate::specs::Rings::new_head, crate::specs::Rings::moved_of))]
pub fn write_head(own: Cpu, cpu: usize, queue: u64, value: u64) -> Done
    requires { (cpu < cpu_limit) × (queue ≤ 0x3f → PlacesSound (queue_at own (queue - 0x3c))) }
    ensures { (plant : PlantRecord) → cpu_at plant cpu ≡ own → quietly plant result ≡ outcome_of plant (write_head plant cpu queue value) }
{
    let Some(q) = place_of(queue) else {
        return told(Answer::Refused(Refusal::EINVAL));
    };
    let QueueRecord::Set(ring) = own.queue[q].held else {
        return told(Answer::Refused(Refusal::EINVAL));
    };
    match head_moves(ring, value) {
        Err(r) => told(Answer::Refused(r)),
        Ok(after) => held_now(cpu, q, QueueRecord::Set(after)),
    }
}
