// Which guest an event belongs to.
ghost use Rattle.std.specs.Prelude.{◌≡◌, ◌≤◌};
ghost use Rattle.rules.specs.Limits.{source_limit};
ghost use Rattle.rules.specs.Host.{owner_of};
ghost use Rattle.host.specs.Owners.{Counted, has_source, raise_owner};

use rules::{Device, Event, GUESTS, Guest, Plant, Tables};

#[tactic(auto, unfolding(crate::specs::Owners::has_source))]
fn has_source(plant: Plant, d: Device) -> bool
    requires { plant.sources ≤ source_limit }
    ensures { result ≡ has_source plant d }
{
    sources::sysino_of(plant, d.devhandle, d.devino).is_some()
}

// A raise belongs to the guest that has the source. A loop of GUESTS turns lets the compiler read the guests where they are.
fn raise_owner(guests: u8, guest: [Guest; GUESTS], d: Device) -> Option<u64>
    requires { Counted guests guest }
    ensures { result ≡ raise_owner guests guest d }
{
    let count = usize::from(guests);
    for g in 0..GUESTS {
        if count <= g {
            return None;
        }
        if has_source(guest[g].plant, d) {
            return Some(g as u64);
        }
    }
    None
}

// Every other event belongs to the guest that it names.
#[tactic(auto, unfolding(rules::specs::Host::owner_of, crate::specs::Owners::raise_owner, crate::specs::Owners::has_source))]
pub(crate) fn owner_of(tables: Tables, event: Event) -> Option<u64>
    requires { Counted tables.guests tables.guest }
    ensures { result ≡ owner_of tables event }
{
    match event {
        Event::Call(c) => Some(c.guest),
        Event::Head(h) => Some(h.guest),
        Event::Raise(d) => raise_owner(tables.guests, tables.guest, d),
        Event::Load(l) => Some(l.guest),
        Event::Store(s) => Some(s.guest),
        Event::Hit(t) => Some(t.guest),
    }
}
