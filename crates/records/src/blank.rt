// Records as they are after loading: all is unset, disabled, idle and 0.
ghost use Rattle.std.specs.Prelude.{◌≡◌, replicate};
ghost use Rattle.rules.specs.Limits.{extent_limit, source_limit, cpu_limit, guest_limit};
ghost use Rattle.rules.specs.Kept.{blank_extent, blank_source, blank_tsb, blank_tsbs, blank_cpu, blank_guest, no_versions, no_guests};

use rules::{
    CPUS, Cpu, EXTENTS, Extent, Extents, GUESTS, Guest, Plant, QUEUES, Queue, QueueRecord, SOURCES,
    Source, TSBS, Tables, Tsb, Tsbs, Versions,
};

pub fn extent() -> Extent
    ensures { result ≡ blank_extent }
{
    Extent {
        real: 0,
        count: 0,
        host: 0,
    }
}

pub fn extents() -> [Extent; EXTENTS]
    ensures { result ≡ replicate extent_limit blank_extent }
{
    [extent(); EXTENTS]
}

pub fn source() -> Source
    ensures { result ≡ blank_source }
{
    Source {
        devhandle: 0,
        devino: 0,
        cookies: false,
        enabled: 0,
        state: 0,
        target: 0,
        cookie: 0,
    }
}

pub fn sources() -> [Source; SOURCES]
    ensures { result ≡ replicate source_limit blank_source }
{
    [source(); SOURCES]
}

pub fn versions() -> Versions
    ensures { result ≡ no_versions }
{
    Versions {
        sun4v: 0,
        core: 0,
        interrupt: 0,
        statistics: 0,
    }
}

pub fn tsb() -> Tsb
    ensures { result ≡ blank_tsb }
{
    Tsb {
        index: 0,
        associativity: 0,
        entries: 0,
        context: 0,
        mask: 0,
        base: 0,
    }
}

pub fn tsbs() -> Tsbs
    ensures { result ≡ blank_tsbs }
{
    Tsbs {
        tsbs: 0,
        tsb: [tsb(); TSBS],
    }
}

pub fn cpu() -> Cpu
    ensures { result ≡ blank_cpu }
{
    Cpu {
        queue: [Queue {
            held: QueueRecord::Unset,
        }; QUEUES],
        ctx0: tsbs(),
        ctxnon0: tsbs(),
        statistics: 0,
    }
}

pub fn cpus() -> [Cpu; CPUS]
    ensures { result ≡ replicate cpu_limit blank_cpu }
{
    [cpu(); CPUS]
}

pub fn guest() -> Guest
    ensures { result ≡ blank_guest }
{
    Guest {
        extents: Extents {
            extents: 0,
            extent: extents(),
        },
        plant: Plant {
            versions: versions(),
            cpus: 0,
            cpu: cpus(),
            sources: 0,
            source: sources(),
        },
    }
}

pub fn guests() -> [Guest; GUESTS]
    ensures { result ≡ replicate guest_limit blank_guest }
{
    [guest(); GUESTS]
}

#[tactic(auto, unfolding(rules::specs::Kept::no_guests))]
pub fn no_guests() -> Tables
    ensures { result ≡ no_guests }
{
    Tables {
        guests: 0,
        guest: guests(),
    }
}
