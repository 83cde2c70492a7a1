// The tables with one guest's plant replaced.
ghost use Rattle.std.specs.Prelude.{◌≡◌, ◌<◌};
ghost use Rattle.rules.specs.Limits.{guest_limit};
ghost use Rattle.rules.specs.Kept.{with_plant};

use rules::{Plant, Tables};

pub(crate) fn with_plant(tables: Tables, g: usize, plant: Plant) -> Tables
    requires { g < guest_limit }
    ensures { result ≡ with_plant tables g plant }
{
    let mut next = tables;
    next.guest[g].plant = plant;
    next
}
