// "The records of absent guests, cpus, extents, sources and list places stay so": as they are after loading.
ghost use Rattle.std.specs.Prelude.{◌≡◌, get_or};
ghost use Rattle.rules.specs.Limits.{cpu_limit, source_limit};
ghost use Rattle.rules.specs.Scan.{all_below};
ghost use Rattle.rules.specs.Kept.{hollow_cpu, blank_source};
ghost use Rattle.rules.specs.Tables.{extent_blank, tsb_blank, cpu_blank, source_blank, extents_blank, plant_blank, guest_blank};

use crate::lists::every;
use records::blank;
use rules::{CPUS, Cpu, Extent, Extents, Guest, Plant, SOURCES, Source, Tsb};

#[tactic(auto, unfolding(rules::specs::Tables::extent_blank))]
pub(crate) fn extent_blank(x: Extent) -> bool
    ensures { result ≡ extent_blank x }
{
    x == blank::extent()
}

#[tactic(auto, unfolding(rules::specs::Tables::tsb_blank))]
pub(crate) fn tsb_blank(t: Tsb) -> bool
    ensures { result ≡ tsb_blank t }
{
    t == blank::tsb()
}

pub(crate) fn cpu_blank(cpu: Cpu) -> bool
    ensures { result ≡ cpu_blank cpu }
{
    cpu == blank::cpu()
}

#[tactic(auto, unfolding(rules::specs::Tables::source_blank))]
pub(crate) fn source_blank(s: Source) -> bool
    ensures { result ≡ source_blank s }
{
    s == blank::source()
}

fn extents_blank(e: Extents) -> bool
    ensures { result ≡ extents_blank e }
{
    (e.extents == 0) & every(&e.extent, extent_blank)
}

// One by one. Tried: `cpu == blank::cpus()`; the proof did not close, as it has the lengths of a cpu's own lists only where it has
// that cpu alone.
fn cpus_blank(cpu: [Cpu; CPUS]) -> bool
    ensures { result ≡ all_below cpu_limit (λ c. cpu_blank (get_or cpu c hollow_cpu)) }
{
    every(&cpu, cpu_blank)
}

fn sources_blank(source: [Source; SOURCES]) -> bool
    ensures { result ≡ all_below source_limit (λ i. source_blank (get_or source i blank_source)) }
{
    every(&source, source_blank)
}

#[tactic(auto, unfolding(rules::specs::Tables::versions_blank, rules::specs::Tables::plant_blank))]
fn plant_blank(plant: Plant) -> bool
    ensures { result ≡ plant_blank plant }
{
    (plant.versions == blank::versions())
        & (plant.cpus == 0)
        & (plant.sources == 0)
        & cpus_blank(plant.cpu)
        & sources_blank(plant.source)
}

#[tactic(auto, unfolding(rules::specs::Tables::guest_blank))]
pub(crate) fn guest_blank(guest: Guest) -> bool
    ensures { result ≡ guest_blank guest }
{
    extents_blank(guest.extents) & plant_blank(guest.plant)
}
