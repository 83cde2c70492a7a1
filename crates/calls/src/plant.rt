// What a plant does with an event of its own, as if it were alone.
ghost use Rattle.std.specs.Prelude.{◌≡◌, length};
ghost use Rattle.rules.specs.Kept.{cpu_at};
ghost use Rattle.rules.specs.Real.{sight_of};
ghost use Rattle.rules.specs.Host.{plant_rule};
ghost use Rattle.memory.specs.Ready.{present};
ghost use Rattle.records.specs.Sound.{Sound};
ghost use Rattle.plants.specs.Follows.{Follows};
ghost use Rattle.calls.specs.Own.{cpu_of};

use crate::dispatch::call;
use hits::tsb_hit;
use plants::{Done, told};
use queues::write_head;
use raise::raise_at;
use rules::{Answer, Call, Cpu, Device, Event, Extents, HeadWrite, Plant, Refusal, TsbHit};
use sources::source_named;
use words::{load_word, store_word};

#[tactic(auto, using(crate::proofs::OwnLaws::own_call), unfolding(rules::specs::Host::plant_rule))]
fn plant_call(extents: Extents, plant: Plant, own: Cpu, mem: &mut [u8], c: Call) -> Done
    requires sound { Sound extents plant (length mem.old) }
    requires own_value { own ≡ cpu_at plant (cpu_of plant (Event.Call c)) }
    ensures { Follows extents plant (plant_rule (sight_of (present extents) mem.old) plant (Event.Call c))
        mem.old result mem.new }
{
    if u64::from(plant.cpus) <= c.cpu {
        return told(Answer::Refused(Refusal::NoCaller));
    }
    call(extents, plant, own, mem, c)
}

#[tactic(auto, using(crate::proofs::OwnLaws::own_head, plants::proofs::OutcomeLaws::quiet), unfolding(rules::specs::Host::plant_rule))]
fn plant_head(extents: Extents, plant: Plant, own: Cpu, mem: &[u8], h: HeadWrite) -> Done
    requires sound { Sound extents plant (length mem.now) }
    requires own_value { own ≡ cpu_at plant (cpu_of plant (Event.Head h)) }
    ensures { Follows extents plant (plant_rule (sight_of (present extents) mem.now) plant (Event.Head h))
        mem.now result mem.now }
{
    if u64::from(plant.cpus) <= h.cpu {
        return told(Answer::Refused(Refusal::NoCaller));
    }
    write_head(own, h.cpu as usize, h.queue, h.value)
}

fn plant_raise(extents: Extents, plant: Plant, own: Cpu, mem: &mut [u8], d: Device) -> Done
    requires sound { Sound extents plant (length mem.old) }
    requires own_value { own ≡ cpu_at plant (cpu_of plant (Event.Raise d)) }
    ensures { Follows extents plant (plant_rule (sight_of (present extents) mem.old) plant (Event.Raise d))
        mem.old result mem.new }
{
    match source_named(plant, d.devhandle, d.devino) {
        None => told(Answer::Refused(Refusal::NoSource)),
        Some((i, source)) => raise_at(extents, plant, own, mem, i, source),
    }
}

#[tactic(auto, using(crate::proofs::OwnLaws::own_hit), unfolding(rules::specs::Host::plant_rule))]
fn plant_hit(extents: Extents, plant: Plant, own: Cpu, mem: &mut [u8], t: TsbHit) -> Done
    requires sound { Sound extents plant (length mem.old) }
    requires own_value { own ≡ cpu_at plant (cpu_of plant (Event.Hit t)) }
    ensures { Follows extents plant (plant_rule (sight_of (present extents) mem.old) plant (Event.Hit t))
        mem.old result mem.new }
{
    if u64::from(plant.cpus) <= t.cpu {
        return told(Answer::Refused(Refusal::NoCaller));
    }
    tsb_hit(extents, own, mem, t.side, t.context, t.index, t.ticks)
}

// own is the record of the cpu that the event looks at.
#[tactic(auto, unfolding(rules::specs::Host::plant_rule))]
pub fn plant_event(extents: Extents, plant: Plant, own: Cpu, mem: &mut [u8], event: Event) -> Done
    requires sound { Sound extents plant (length mem.old) }
    requires own_value { own ≡ cpu_at plant (cpu_of plant event) }
    ensures { Follows extents plant (plant_rule (sight_of (present extents) mem.old) plant event)
        mem.old result mem.new }
{
    match event {
        Event::Call(c) => plant_call(extents, plant, own, mem, c),
        Event::Head(h) => plant_head(extents, plant, own, mem, h),
        Event::Raise(d) => plant_raise(extents, plant, own, mem, d),
        Event::Load(l) => load_word(extents, mem, l.address),
        Event::Store(s) => store_word(extents, mem, s.address, s.value),
        Event::Hit(t) => plant_hit(extents, plant, own, mem, t),
    }
}
