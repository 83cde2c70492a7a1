// Raise: a device interrupts.
#![tactic(auto)]

ghost use Rattle.std.specs.Prelude.{◌≡◌, ◌++◌, ◌<◌, length, replicate};
ghost use Rattle.rules.specs.Kept.{cpu_at, source_at};
ghost use Rattle.rules.specs.Real.{word_bytes};
ghost use Rattle.rules.specs.Sources.{raise_at};
ghost use Rattle.records.specs.Sound.{Sound};
ghost use Rattle.plants.specs.Follows.{Follows};
ghost use Rattle.raise.specs.Raised.{word_of, becoming, Delivers};

use plants::{Change, Done, done_by, put_entry, told};
use rules::{Answer, Cpu, Extents, Plant, Source};

// Word 0 of a source's entry: its cookie, or under 1.0 its sysino.
#[tactic(auto, unfolding(crate::specs::Raised::word_of))]
fn device_word(version: u8, i: usize, source: Source) -> u64
    ensures { result ≡ word_of version i source }
{
    if version == 2 {
        return source.cookie;
    }
    i as u64
}

// An entry of one word and seven zero words.
#[tactic(auto, unfolding(rules::specs::Real::word_bytes))]
fn entry_of(word: u64) -> [u8; 64]
    ensures { result ≡ word_bytes word ++ replicate 56 0 }
{
    let mut entry = [0u8; 64];
    entry[..8].copy_from_slice(&word.to_be_bytes());
    entry
}

// The state becomes what it is answered to be.
#[tactic(auto, unfolding(crate::specs::Raised::becoming))]
fn becomes(i: usize, source: Source, state: u8) -> Done
    ensures { result ≡ becoming i source state }
{
    let s = Source { state, ..source };
    done_by(Answer::One(u64::from(state)), Change::Source(i, s))
}

// The end of a raise of a source that is enabled and not delivered: an entry at the tail of the target's 0x3d ring, if it has room.
fn deliver(
    extents: Extents,
    plant: Plant,
    own: Cpu,
    mem: &mut [u8],
    i: usize,
    source: Source,
) -> Done
    requires sound { Sound extents plant (length mem.old) }
    requires i_lt_sources { i < plant.sources }
    requires source_value { source ≡ source_at plant i }
    requires own_value { own ≡ cpu_at plant source.target }
    requires delivers { Delivers source }
    ensures { Follows extents plant (raise_at plant i) mem.old result mem.new }
{
    let entry = entry_of(device_word(plant.versions.interrupt, i, source));
    let Some(after) = put_entry(extents, own.queue[1].held, mem, &entry) else {
        return becomes(i, source, 1);
    };
    let cpu = usize::from(source.target);
    let s = Source { state: 2, ..source };
    done_by(Answer::One(2), Change::Delivered(i, s, cpu, after))
}

// The source at position i is raised, and own is its target's record: delivered stays; enabled, it goes there; else it is received.
pub fn raise_at(
    extents: Extents,
    plant: Plant,
    own: Cpu,
    mem: &mut [u8],
    i: usize,
    source: Source,
) -> Done
    requires sound { Sound extents plant (length mem.old) }
    requires i_lt_sources { i < plant.sources }
    requires source_value { source ≡ source_at plant i }
    requires own_value { own ≡ cpu_at plant source.target }
    ensures { Follows extents plant (raise_at plant i) mem.old result mem.new }
{
    if source.state == 2 {
        return told(Answer::One(2));
    }
    if source.enabled != 1 {
        return becomes(i, source, 1);
    }
    deliver(extents, plant, own, mem, i, source)
}
