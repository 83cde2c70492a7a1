// 0x42: a mondo to each cpu of a list.
#![tactic(auto)]

ghost use Rattle.std.specs.Prelude.{◌≡◌, true, false, ℕ, ◌*◌, ◌<◌, ◌≤◌, length, get_or, take};
ghost use Rattle.rules.specs.Limits.{extent_limit};
ghost use Rattle.rules.specs.Scan.{some_below};
ghost use Rattle.rules.specs.Real.{valid, byte_at, sight_of};
ghost use Rattle.rules.specs.Rulings.{Ruling, Outcome};
ghost use Rattle.rules.specs.Mondo.{listed_cpus, passed_over, is_caller, is_stranger, send_all, cpu_mondo_send};
ghost use Rattle.memory.specs.Ready.{present, Ready};
ghost use Rattle.records.specs.Sound.{Sound};
ghost use Rattle.plants.specs.Changes.{with_tails};
ghost use Rattle.plants.specs.Follows.{Follows};
ghost use Rattle.plants.specs.Judged.{judged};
ghost use Rattle.plants.specs.Put.{PutsIn, HeldSound};
ghost use Rattle.mondo.specs.Steps.{mondo_ranges, mondo_cpus, mondo_sent, send_in, Sends, tail_of, rings_of, tails_of, sent_by};

use plants::{Change, Done, at_tail, done_by, put_entry, told};
use rules::{Answer, CPUS, Extents, Plant, Queue, QueueRecord, Real, Refusal};

// The longest list.
const MONDOS: usize = 64;

// What sending has come to: the tails of the 0x3c rings, and whether nothing was left for want of room. Both say something whatever
// the other is, so they are no Option and no Result.
#[derive(Clone, Copy)]
struct Sent {
    tails: [u16; CPUS],
    all: bool,
}

// What is asked before the list is read.
#[tactic(auto, unfolding(crate::specs::Steps::mondo_ranges, plants::specs::Judged::judged))]
fn judge_ranges(extents: Extents, count: u64, list: u64, data: u64) -> Result<(), Refusal>
    requires { extents.extents ≤ extent_limit }
    ensures { (rest : Ruling Outcome) → mondo_ranges (valid (present extents)) count list «data» rest ≡ judged result rest }
{
    if count == 0 || count > MONDOS as u64 {
        return Err(Refusal::EINVAL);
    }
    if data % 64 != 0 || list % 2 != 0 {
        return Err(Refusal::EBADALIGN);
    }
    if !memory::range_valid(extents, data, 64) || !memory::range_valid(extents, list, 2 * count) {
        return Err(Refusal::ENORADDR);
    }
    Ok(())
}

// The cpus that a list names.
fn read_list(extents: Extents, mem: &[u8], list: u64, count: usize) -> [u16; MONDOS]
    requires extents_le_extent_limit { (extents.extents ≤ extent_limit) × (count ≤ 64) }
    requires ready { Ready (present extents) (length mem.now) }
    requires count_value { valid (present extents) list (2 * count) ≡ true }
    ensures { take count result ≡ listed_cpus (byte_at (present extents) mem.now) list count }
{
    let mut cpus = [0u16; MONDOS];
    for i in 0..count {
        let at = list + 2 * (i as u64);
        cpus[i] = memory::number::<2>(extents, mem, Real(at)) as u16;
    }
    cpus
}

// Whether an entry of a list is passed over.
fn passed_over(listed: u16) -> bool
    ensures { result ≡ passed_over listed }
{
    listed == 0xffff
}

// Whether an entry is the caller.
fn is_caller(listed: u16, cpu: usize) -> bool
    ensures { result ≡ is_caller cpu listed }
{
    !passed_over(listed) && usize::from(listed) == cpu
}

// Whether an entry is no cpuid of a guest with so many cpus.
fn is_stranger(listed: u16, limit: u8) -> bool
    ensures { result ≡ is_stranger limit listed }
{
    !passed_over(listed) && u16::from(limit) <= listed
}

// What is asked of the listed cpus.
fn judge_cpus(cpus: &[u16], cpu: usize, limit: u8) -> Result<(), Refusal>
    ensures { (rest : Ruling Outcome) → mondo_cpus (λ i. get_or cpus.now i 0) (length cpus.now) cpu limit rest ≡ judged result rest }
{
    if cpus.iter().any(|listed| is_caller(*listed, cpu)) {
        return Err(Refusal::EINVAL);
    }
    if cpus.iter().any(|listed| is_stranger(*listed, limit)) {
        return Err(Refusal::ENOCPU);
    }
    Ok(())
}

// The packet to one cpu's ring, and that queue's record after, if the ring has room; the cpu's place in the list is at mark and
// becomes 0xffff.
fn send_one(
    extents: Extents,
    held: QueueRecord,
    mem: &mut [u8],
    packet: &[u8; 64],
    mark: u64,
) -> Option<QueueRecord>
    requires extents_le_extent_limit { extents.extents ≤ extent_limit }
    requires ready { Ready (present extents) (length mem.old) }
    requires held_sound { HeldSound extents held }
    requires mark_value { valid (present extents) mark 2 ≡ true }
    ensures { PutsIn extents (send_in held packet.now mark) mem.old result mem.new }
{
    let after = put_entry(extents, held, mem, packet)?;
    memory::write_at(extents, mem, Real(mark), &[0xffu8; 2]);
    Some(after)
}

// Where the tail of a ring stands. A queue without a ring has none, and 0 is not looked at there.
#[tactic(auto, unfolding(crate::specs::Steps::tail_of))]
fn tail_of(held: QueueRecord) -> u16
    ensures { result ≡ tail_of held }
{
    match held {
        QueueRecord::Unset => 0,
        QueueRecord::Set(ring) => ring.tail,
    }
}

// The 0x3c queue of each cpu. A loop of CPUS turns lets the compiler read them where they are.
fn rings_of(plant: Plant) -> [Queue; CPUS]
    ensures { result ≡ rings_of plant }
{
    let unset = Queue {
        held: QueueRecord::Unset,
    };
    let mut rings = [unset; CPUS];
    for i in 0..CPUS {
        rings[i] = plant.cpu[i].queue[0];
    }
    rings
}

// The tails of the 0x3c rings as they are.
fn tails_of(rings: [Queue; CPUS]) -> [u16; CPUS]
    ensures { result ≡ tails_of rings }
{
    rings.map(|queue| tail_of(queue.held))
}

// The packet to each cpu of the list, in its order, but for the entries that are passed over. A cpu may stand there twice, so
// each ring is taken with its tail as it is by then.
fn send_all(
    extents: Extents,
    plant: Plant,
    mem: &mut [u8],
    cpus: &[u16],
    packet: &[u8; 64],
    list: u64,
) -> Sent
    requires sound { Sound extents plant (length mem.old) }
    requires count_in_bounds { length cpus.now ≤ 64 }
    requires by_index { (i : ℕ) → i < length cpus.now → is_stranger plant.cpus (get_or cpus.now i 0) ≡ false }
    requires count_value { valid (present extents) list (2 * length cpus.now) ≡ true }
    ensures { Sends extents (send_all plant cpus.now packet.now list)
        mem.old (record { plant = with_tails plant result.tails; all = result.all }) mem.new }
{
    let rings = rings_of(plant);
    let mut tails = tails_of(rings);
    let mut all = true;
    for (i, listed) in cpus.iter().enumerate() {
        if passed_over(*listed) {
            continue;
        }
        let cpu = usize::from(*listed);
        let now = at_tail(rings[cpu].held, tails[cpu]);
        let mark = list + 2 * (i as u64);
        match send_one(extents, now, mem, packet, mark) {
            Some(after) => tails[cpu] = tail_of(after),
            None => all = false,
        }
    }
    Sent { tails, all }
}

// An answer, with the tails of the 0x3c rings there.
#[tactic(auto, unfolding(crate::specs::Steps::sent_by, plants::specs::Changes::done_by))]
fn told_tails(answer: Answer, tails: [u16; CPUS]) -> Done
    ensures { result ≡ sent_by answer tails }
{
    let mut done = done_by(answer, Change::Tails);
    done.tails = tails;
    done
}

// List and data are read once, before any write.
fn send_listed(
    extents: Extents,
    plant: Plant,
    mem: &mut [u8],
    cpu: usize,
    count: usize,
    list: u64,
    data: u64,
) -> Done
    requires sound { Sound extents plant (length mem.old) }
    requires count_bound { count ≤ 64 }
    requires count_value { valid (present extents) list (2 * count) ≡ true }
    requires data_value { valid (present extents) «data» 64 ≡ true }
    ensures { Follows extents plant (mondo_sent (sight_of (present extents) mem.old) plant cpu count list «data»)
        mem.old result mem.new }
{
    let read = read_list(extents, mem, list, count);
    let cpus = &read[..count];
    match judge_cpus(cpus, cpu, plant.cpus) {
        Err(r) => told(Answer::Refused(r)),
        Ok(()) => {
            let packet = memory::bytes::<64>(extents, mem, Real(data));
            let sent = send_all(extents, plant, mem, cpus, &packet, list);
            if sent.all {
                return told_tails(Answer::Done, sent.tails);
            }
            told_tails(Answer::Refused(Refusal::EWOULDBLOCK), sent.tails)
        }
    }
}

// 0x42: the data to each cpu of a list.
pub fn cpu_mondo_send(
    extents: Extents,
    plant: Plant,
    mem: &mut [u8],
    cpu: usize,
    count: u64,
    list: u64,
    data: u64,
) -> Done
    requires { Sound extents plant (length mem.old) }
    ensures { Follows extents plant (cpu_mondo_send (sight_of (present extents) mem.old) plant cpu count list «data»)
        mem.old result mem.new }
{
    match judge_ranges(extents, count, list, data) {
        Err(r) => told(Answer::Refused(r)),
        Ok(()) => send_listed(extents, plant, mem, cpu, count as usize, list, data),
    }
}
