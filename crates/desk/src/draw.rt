// The tables that the lines of a plan draw, one line at a time.
ghost use Rattle.std.specs.Prelude.{true, ◌≡◌, ◌<◌};
ghost use Rattle.rules.specs.Scan.{◌is_from◌to◌};
ghost use Rattle.rules.specs.Limits.{guest_limit, extent_limit, source_limit};
ghost use Rattle.rules.specs.declared.PlanLine.{PlanLine};
ghost use Rattle.rules.specs.Plan.{new_guest, more_extents, more_sources, some_guest, last_guest, with_last, drawing, bad_at, drawn};

use records::blank;
use rules::{
    Desk, EXTENTS, Extent, Extents, GUESTS, Guest, PlanLine, Plant, SOURCES, Source, Stage, Tables,
};

pub(crate) fn bad_at(n: usize, tables: Tables) -> Desk
    ensures { result ≡ bad_at n tables }
{
    Desk {
        stage: Stage::Bad(n),
        tables,
    }
}

// A guest of so many cpus, with nothing else yet.
fn new_guest(cpus: u8) -> Guest
    ensures { result ≡ new_guest cpus }
{
    Guest {
        extents: Extents {
            extents: 0,
            extent: blank::extents(),
        },
        plant: Plant {
            versions: blank::versions(),
            cpus,
            cpu: blank::cpus(),
            sources: 0,
            source: blank::sources(),
        },
    }
}

#[tactic(auto, unfolding(rules::specs::Plan::drawn))]
fn add_guest(n: usize, tables: Tables, cpus: u8) -> Desk
    ensures { result ≡ drawn n tables (Some (PlanLine.Guest cpus)) }
{
    let i = tables.guests as usize;
    if GUESTS <= i {
        return bad_at(n, tables);
    }
    let mut next = tables;
    next.guest[i] = new_guest(cpus);
    next.guests = tables.guests + 1;
    Desk {
        stage: Stage::Drawing,
        tables: next,
    }
}

// An extent more, behind those that are there.
fn more_extents(extents: Extents, x: Extent) -> Extents
    requires { extents.extents < extent_limit }
    ensures { result ≡ more_extents extents x }
{
    let i = extents.extents as usize;
    let mut next = extents;
    next.extent[i] = x;
    next.extents = extents.extents + 1;
    next
}

// A source more, behind those that are there. As more_extents, in a record of other fields: a trait over both would only name them.
fn more_sources(plant: Plant, s: Source) -> Plant
    requires { plant.sources < source_limit }
    ensures { result ≡ more_sources plant s }
{
    let i = plant.sources as usize;
    let mut next = plant;
    next.source[i] = s;
    next.sources = plant.sources + 1;
    next
}

// Whether there is a last guest, and its place is one of the tables.
fn some_guest(guests: u8) -> bool
    ensures { result ≡ (guests is_from 1 to guest_limit) }
{
    1 <= guests && guests <= GUESTS as u8
}

fn last_guest(tables: Tables) -> Guest
    requires { some_guest tables ≡ true }
    ensures { result ≡ last_guest tables }
{
    tables.guest[(tables.guests - 1) as usize]
}

// The tables with another last guest.
fn with_last(tables: Tables, guest: Guest) -> Desk
    requires { some_guest tables ≡ true }
    ensures { result ≡ drawing (with_last tables guest) }
{
    let i = (tables.guests - 1) as usize;
    let mut next = tables;
    next.guest[i] = guest;
    Desk {
        stage: Stage::Drawing,
        tables: next,
    }
}

#[tactic(auto, unfolding(rules::specs::Plan::drawn))]
fn add_extent(n: usize, tables: Tables, x: Extent) -> Desk
    ensures { result ≡ drawn n tables (Some (PlanLine.Extent x)) }
{
    if !some_guest(tables.guests) {
        return bad_at(n, tables);
    }
    let last = last_guest(tables);
    if EXTENTS <= last.extents.extents as usize {
        return bad_at(n, tables);
    }
    let guest = Guest {
        extents: more_extents(last.extents, x),
        plant: last.plant,
    };
    with_last(tables, guest)
}

// The same steps as add_extent, over another list and limit: one function for both would be given each step as a closure.
#[tactic(auto, unfolding(rules::specs::Plan::drawn))]
fn add_source(n: usize, tables: Tables, s: Source) -> Desk
    ensures { result ≡ drawn n tables (Some (PlanLine.Source s)) }
{
    if !some_guest(tables.guests) {
        return bad_at(n, tables);
    }
    let last = last_guest(tables);
    if SOURCES <= last.plant.sources as usize {
        return bad_at(n, tables);
    }
    let guest = Guest {
        extents: last.extents,
        plant: more_sources(last.plant, s),
    };
    with_last(tables, guest)
}

// What line n makes of the tables.
#[tactic(auto, unfolding(rules::specs::Plan::drawn))]
pub(crate) fn draw(n: usize, tables: Tables, line: Option<PlanLine>) -> Desk
    ensures { result ≡ drawn n tables line }
{
    match line {
        None => bad_at(n, tables),
        Some(PlanLine::Guest(cpus)) => add_guest(n, tables, cpus),
        Some(PlanLine::Extent(x)) => add_extent(n, tables, x),
        Some(PlanLine::Source(s)) => add_source(n, tables, s),
    }
}
