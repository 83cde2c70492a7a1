// "Before anything": whether an event is refused at the door, and if not, which guest answers it.
ghost use Rattle.std.specs.Prelude.{◌≡◌, true, is_ok};
ghost use Rattle.rules.specs.Tables.{keep_rules};
ghost use Rattle.host.specs.Seats.{door_of, seat_for, seat_of};

use crate::owner::owner_of;
use rules::{Event, Refusal, Tables};

// 101, then 102, for memory of len bytes.
#[tactic(auto, unfolding(crate::specs::Seats::door_of))]
pub fn door_of(tables: Tables, len: usize) -> Result<(), Refusal>
    ensures { result ≡ door_of tables len }
{
    if !tables::keep_rules(tables) {
        return Err(Refusal::BadTables);
    }
    if !tables::long_enough(tables, len) {
        return Err(Refusal::ShortMemory);
    }
    Ok(())
}

// 104, or 103 for a guest that is not there.
#[tactic(auto, unfolding(crate::specs::Seats::seat_for))]
fn seat_for(guests: u8, owner: Option<u64>) -> Result<usize, Refusal>
    ensures { result ≡ seat_for guests owner }
{
    let g = owner.ok_or(Refusal::NoSource)?;
    if u64::from(guests) <= g {
        return Err(Refusal::NoCaller);
    }
    Ok(g as usize)
}

// Where an event is answered, at a guest that is there, if the door came to `door`.
#[tactic(auto, unfolding(crate::specs::Seats::seat_of))]
pub fn seat_of(tables: Tables, door: Result<(), Refusal>, event: Event) -> Result<usize, Refusal>
    requires { is_ok door ≡ true → keep_rules tables ≡ true }
    ensures { result ≡ seat_of tables door event }
{
    door?;
    seat_for(tables.guests, owner_of(tables, event))
}
