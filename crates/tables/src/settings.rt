// What a guest configured: each record unset or as its call would accept it.
ghost use Rattle.std.specs.Prelude.{◌≡◌, ◌≤◌, get_or};
ghost use Rattle.rules.specs.Limits.{extent_limit, queue_limit, cpu_limit, source_limit};
ghost use Rattle.rules.specs.Scan.{all_below};
ghost use Rattle.rules.specs.Kept.{blank_queue, cpu_at, source_at};
ghost use Rattle.rules.specs.Real.{valid};
ghost use Rattle.rules.specs.Tables.{list_right, place_right, ring_right, record_right, tsbs_right, cpu_right, cpu_blank, source_right, source_blank, plant_keeps};
ghost use Rattle.memory.specs.Ready.{present};

use crate::blank::{cpu_blank, source_blank, tsb_blank};
use crate::lists::{every, list_right};
use crate::right::{source_right, versions_right};
use records::{judge_ring, judge_statistics, judge_tsb};
use rules::{Cpu, Extents, Plant, QUEUES, Queue, QueueRecord, Ring, Tsbs};

// A head or tail: a multiple of 64 below the ring's size.
#[tactic(auto, unfolding(rules::specs::Tables::place_right))]
fn place_right(size: u16, at: u16) -> bool
    ensures { result ≡ place_right size at }
{
    at % 64 == 0 && at < size
}

#[tactic(auto, using(records::proofs::Told::accepts_is), unfolding(rules::specs::Tables::ring_right))]
fn ring_right(e: Extents, ring: Ring) -> bool
    requires { e.extents ≤ extent_limit }
    ensures { result ≡ ring_right (valid (present e)) ring }
{
    ring.size % 64 == 0
        && judge_ring(e, ring.base, u64::from(ring.size / 64)).is_ok()
        && place_right(ring.size, ring.head)
        && place_right(ring.size, ring.tail)
}

fn record_right(e: Extents, held: QueueRecord) -> bool
    requires { e.extents ≤ extent_limit }
    ensures { result ≡ record_right (valid (present e)) held }
{
    match held {
        QueueRecord::Unset => true,
        QueueRecord::Set(ring) => ring_right(e, ring),
    }
}

// The four queue records of a cpu.
fn queues_right(e: Extents, queues: [Queue; QUEUES]) -> bool
    requires { e.extents ≤ extent_limit }
    ensures { result ≡ all_below queue_limit (λ q. record_right (valid (present e)) (get_or queues q blank_queue).held) }
{
    every(&queues, |queue| record_right(e, queue.held))
}

fn tsbs_right(e: Extents, tsbs: Tsbs) -> bool
    requires { e.extents ≤ extent_limit }
    ensures { result ≡ tsbs_right (valid (present e)) tsbs }
{
    list_right(&tsbs.tsb, tsbs.tsbs, |t| judge_tsb(e, t).is_ok(), tsb_blank)
}

#[tactic(auto, using(records::proofs::Told::accepts_is), unfolding(rules::specs::Tables::cpu_right))]
fn cpu_right(e: Extents, cpu: Cpu) -> bool
    requires { e.extents ≤ extent_limit }
    ensures { result ≡ cpu_right (valid (present e)) cpu }
{
    queues_right(e, cpu.queue)
        & tsbs_right(e, cpu.ctx0)
        & tsbs_right(e, cpu.ctxnon0)
        & judge_statistics(e, cpu.statistics).is_ok()
}

fn cpus_right(e: Extents, plant: Plant) -> bool
    requires { e.extents ≤ extent_limit }
    ensures { result ≡ list_right cpu_limit plant.cpus (λ c. cpu_right (valid (present e)) (cpu_at plant c)) (λ c. cpu_blank (cpu_at plant c)) }
{
    list_right(&plant.cpu, plant.cpus, |cpu| cpu_right(e, cpu), cpu_blank)
}

fn sources_right(plant: Plant) -> bool
    ensures { result ≡ list_right source_limit plant.sources (λ i. source_right plant (source_at plant i)) (λ i. source_blank (source_at plant i)) }
{
    let cpus = plant.cpus;
    let major = plant.versions.interrupt;
    list_right(
        &plant.source,
        plant.sources,
        |s| source_right(cpus, major, s),
        source_blank,
    )
}

#[tactic(auto, unfolding(rules::specs::Tables::plant_keeps))]
pub(crate) fn plant_keeps(e: Extents, plant: Plant) -> bool
    requires { e.extents ≤ extent_limit }
    ensures { result ≡ plant_keeps (valid (present e)) plant }
{
    (1 <= plant.cpus) & versions_right(plant.versions) & cpus_right(e, plant) & sources_right(plant)
}
