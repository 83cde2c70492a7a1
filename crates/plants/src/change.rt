// What an event changes of its plant's record. The record is 2,896 bytes, and a call that gave all of it back would copy it once
// for each function on its way; what it changes is small.
ghost use Rattle.std.specs.Prelude.{◌≡◌, ◌≤◌};
ghost use Rattle.rules.specs.Limits.{cpu_limit};
ghost use Rattle.plants.specs.Changes.{done_by, cpu_after, plant_after};

use crate::parts::{all_disabled, set_tails};
use rules::{Answer, CPUS, Cpu, Plant, QUEUES, QueueRecord, SOURCES, Source, Tsbs, Versions};

// A queue's record, a TSB list, which stands beside it in Done, or the statistics address.
#[derive(Clone, Copy)]
pub enum CpuChange {
    Queue(usize, QueueRecord),
    Ctx0,
    Ctxnon0,
    Statistics(u64),
}

// The versions, in Disabled with every source of the guest disabled; a cpu's record; a source's, in Delivered with the 0x3d
// queue of a cpu; or the tails of the 0x3c rings. Tails and TSB lists stand beside it in Done, since they are arrays.
#[derive(Clone, Copy)]
pub enum Change {
    Nothing,
    Versions(Versions),
    Disabled(Versions),
    Cpu(usize, CpuChange),
    Source(usize, Source),
    Delivered(usize, Source, usize, QueueRecord),
    Tails,
}

// What a call gives back: the answer, and what it changes.
#[derive(Clone, Copy)]
pub struct Done {
    pub answer: Answer,
    pub change: Change,
    pub tsbs: Tsbs,
    pub tails: [u16; CPUS],
}

// An answer, and a change that no list and no tails belong to.
#[tactic(auto, unfolding(crate::specs::Changes::done_by))]
pub fn done_by(answer: Answer, change: Change) -> Done
    ensures { result ≡ done_by answer change }
{
    Done {
        answer,
        change,
        tsbs: records::blank::tsbs(),
        tails: [0; CPUS],
    }
}

// An answer, with the record as it was.
pub fn told(answer: Answer) -> Done
    ensures { result ≡ done_by answer Change.Nothing }
{
    done_by(answer, Change::Nothing)
}

// A cpu's record after. A queue that is not there is not changed.
#[tactic(auto, unfolding(crate::specs::Changes::cpu_after))]
pub fn cpu_after(cpu: Cpu, change: CpuChange, tsbs: Tsbs) -> Cpu
    ensures { result ≡ cpu_after cpu tsbs change }
{
    let mut next = cpu;
    match change {
        CpuChange::Queue(q, held) => {
            if q < QUEUES {
                next.queue[q].held = held;
            }
        }
        CpuChange::Ctx0 => next.ctx0 = tsbs,
        CpuChange::Ctxnon0 => next.ctxnon0 = tsbs,
        CpuChange::Statistics(address) => next.statistics = address,
    }
    next
}

// Changes the plant's record where it stands: a session holds one plant for many events. A place that is not there is not changed.
#[tactic(auto, unfolding(crate::specs::Changes::plant_after, crate::specs::Changes::changed_by, rules::specs::Versions::all_disabled, rules::specs::Kept::with_source, rules::specs::Kept::with_queue, crate::specs::Changes::cpu_after))]
pub fn change_plant(plant: &mut Plant, done: Done)
    requires { plant.old.cpus ≤ cpu_limit }
    ensures { plant.new ≡ plant_after plant.old done }
{
    match done.change {
        Change::Nothing => {}
        Change::Versions(v) => plant.versions = v,
        Change::Disabled(v) => {
            plant.versions = v;
            plant.source = all_disabled(plant.source);
        }
        Change::Cpu(c, part) => {
            if c < CPUS {
                plant.cpu[c] = cpu_after(plant.cpu[c], part, done.tsbs);
            }
        }
        Change::Source(i, s) => {
            if i < SOURCES {
                plant.source[i] = s;
            }
        }
        Change::Delivered(i, s, c, held) => {
            if i < SOURCES && c < CPUS {
                plant.source[i] = s;
                plant.cpu[c] = cpu_after(plant.cpu[c], CpuChange::Queue(1, held), done.tsbs);
            }
        }
        Change::Tails => set_tails(plant, done.tails),
    }
}

// The plant's record after.
pub fn plant_after(plant: Plant, done: Done) -> Plant
    requires { plant.cpus ≤ cpu_limit }
    ensures { result ≡ plant_after plant done }
{
    let mut next = plant;
    change_plant(&mut next, done);
    next
}
