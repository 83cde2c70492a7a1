// The rule on tables (101): every guest that is there keeps it, and every place behind is blank.
ghost use Rattle.std.specs.Prelude.{◌≡◌};
ghost use Rattle.rules.specs.Limits.{guest_limit};
ghost use Rattle.rules.specs.Kept.{guest_at};
ghost use Rattle.rules.specs.Tables.{list_right, guest_keeps, guest_blank, keep_rules};

use crate::blank::guest_blank;
use crate::lists::list_right;
use crate::right::extents_keep;
use crate::settings::plant_keeps;
use partition::{pages_shared, source_twice};
use rules::{Guest, Tables};

// The extents first: the other rules of a guest speak of what is valid through them.
#[tactic(auto, using(crate::proofs::SoundTables::extents_few), unfolding(rules::specs::Tables::guest_keeps))]
fn guest_keeps(guest: Guest) -> bool
    ensures { result ≡ guest_keeps guest }
{
    extents_keep(guest.extents) && plant_keeps(guest.extents, guest.plant)
}

fn guests_right(tables: Tables) -> bool
    ensures { result ≡ list_right guest_limit tables.guests (λ g. guest_keeps (guest_at tables g)) (λ g. guest_blank (guest_at tables g)) }
{
    list_right(&tables.guest, tables.guests, guest_keeps, guest_blank)
}

#[tactic(auto, unfolding(rules::specs::Tables::keep_rules))]
pub fn keep_rules(tables: Tables) -> bool
    ensures { result ≡ keep_rules tables }
{
    guests_right(tables) & !pages_shared(tables) & !source_twice(tables)
}
