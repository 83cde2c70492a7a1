// Parts of a plant's record: what a ring, several cpus and all sources become.
ghost use Rattle.std.specs.Prelude.{◌≡◌, map, ◌≤◌};
ghost use Rattle.rules.specs.Limits.{cpu_limit};
ghost use Rattle.rules.specs.Kept.{with_tail};
ghost use Rattle.rules.specs.Versions.{disabled};
ghost use Rattle.plants.specs.Changes.{at_tail, cpu_at_tail, with_tails};

use rules::{CPUS, Cpu, Plant, QueueRecord, Ring, SOURCES, Source};

// Every source disabled.
pub fn all_disabled(source: [Source; SOURCES]) -> [Source; SOURCES]
    ensures { result ≡ map disabled source }
{
    source.map(|s| Source { enabled: 0, ..s })
}

// A ring with its tail there.
pub(crate) fn ring_at_tail(ring: Ring, tail: u16) -> Ring
    ensures { result ≡ with_tail ring tail }
{
    Ring { tail, ..ring }
}

// The same of a queue's record.
#[tactic(auto, unfolding(crate::specs::Changes::at_tail))]
pub fn at_tail(held: QueueRecord, tail: u16) -> QueueRecord
    ensures { result ≡ at_tail held tail }
{
    match held {
        QueueRecord::Unset => QueueRecord::Unset,
        QueueRecord::Set(ring) => QueueRecord::Set(ring_at_tail(ring, tail)),
    }
}

// A cpu with the tail of its 0x3c ring there.
#[tactic(auto, unfolding(crate::specs::Changes::cpu_at_tail))]
pub fn cpu_at_tail(cpu: Cpu, tail: u16) -> Cpu
    ensures { result ≡ cpu_at_tail cpu tail }
{
    let mut next = cpu;
    next.queue[0].held = at_tail(cpu.queue[0].held, tail);
    next
}

// Puts the tail of the 0x3c ring of each cpu that is there where the list says.
pub(crate) fn set_tails(plant: &mut Plant, tails: [u16; CPUS])
    requires { plant.old.cpus ≤ cpu_limit }
    ensures { plant.new ≡ with_tails plant.old tails }
{
    for c in 0..usize::from(plant.cpus) {
        plant.cpu[c] = cpu_at_tail(plant.cpu[c], tails[c]);
    }
}
