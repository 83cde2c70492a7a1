// The cpu whose record an event looks at. Whoever holds the plant takes that record out and passes it beside the plant, so no
// function of this crate indexes into the plant's cpus.
ghost use Rattle.std.specs.Prelude.{◌≡◌, ◌≤◌};
ghost use Rattle.rules.specs.Limits.{source_limit};
ghost use Rattle.sources.specs.Seen.{named_in};
ghost use Rattle.calls.specs.Own.{cpu_below, target_of, cpu_of};

use rules::{CPUS, Device, Event, Plant};
use sources::source_named;

#[tactic(auto, unfolding(crate::specs::Own::cpu_below))]
fn below(cpu: u64) -> usize
    ensures { result ≡ cpu_below cpu }
{
    if cpu < CPUS as u64 { cpu as usize } else { 0 }
}

#[tactic(auto, unfolding(crate::specs::Own::target_of))]
fn target_of(plant: Plant, d: Device) -> usize
    requires { plant.sources ≤ source_limit }
    ensures { result ≡ target_of (named_in plant d.devhandle d.devino) }
{
    match source_named(plant, d.devhandle, d.devino) {
        None => 0,
        Some((_, s)) => below(u64::from(s.target)),
    }
}

// 0 where the event names no cpu below CPUS and no source.
#[tactic(auto, unfolding(crate::specs::Own::cpu_of))]
pub fn cpu_of(plant: Plant, event: Event) -> usize
    requires { plant.sources ≤ source_limit }
    ensures { result ≡ cpu_of plant event }
{
    match event {
        Event::Call(c) => below(c.cpu),
        Event::Head(h) => below(h.cpu),
        Event::Raise(d) => target_of(plant, d),
        Event::Load(_) | Event::Store(_) => 0,
        Event::Hit(t) => below(t.cpu),
    }
}
