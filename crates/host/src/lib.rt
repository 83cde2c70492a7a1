// The host's rule: what every event gives, for tables and memory of any content. It goes in three steps, which a session that
// keeps its tables takes one by one: the door (101, 102), the guest that answers (103, 104), and that guest's plant.
#![tactic(auto)]

mod door;
mod owner;
mod put;

ghost use Rattle.std.specs.Prelude.{◌≡◌};
ghost use Rattle.rules.specs.Host.{host_event};
ghost use Rattle.host.specs.Settles.{Settles};

pub use door::{door_of, seat_of};
use plants::plant_after;
use put::with_plant;
use rules::{Answer, Event, Refusal, Tables};

// What an event gives back: the answer, and the tables after.
#[derive(Clone, Copy, PartialEq, Eq)]
pub struct Settled {
    pub answer: Answer,
    pub tables: Tables,
}

fn refused(tables: Tables, refusal: Refusal) -> Settled
    ensures { result ≡ record { answer = Answer.Refused refusal; tables = tables } }
{
    Settled {
        answer: Answer::Refused(refusal),
        tables,
    }
}

pub fn event(tables: Tables, mem: &mut [u8], event: Event) -> Settled
    ensures { Settles (host_event tables mem.old event) result mem.new }
{
    let door = door_of(tables, mem.len());
    match seat_of(tables, door, event) {
        Err(r) => refused(tables, r),
        Ok(i) => {
            let guest = tables.guest[i];
            let plant = guest.plant;
            let own = plant.cpu[calls::cpu_of(plant, event)];
            let done = calls::plant_event(guest.extents, plant, own, mem, event);
            Settled {
                answer: done.answer,
                tables: with_plant(tables, i, plant_after(plant, done)),
            }
        }
    }
}
