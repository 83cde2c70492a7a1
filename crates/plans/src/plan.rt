// A plan: the lines of each guest, its extents and its sources. What a function has room for is its own lines, of at most 23 bytes for a
// guest and 58 for an extent or a source, and the most that a line asks for.
ghost use Rattle.std.specs.Prelude.{◌≡◌, true, ◌+◌, ◌≤◌};
ghost use Rattle.rules.specs.Limits.{extent_limit, source_limit};
ghost use Rattle.rules.specs.Scan.{each_below};
ghost use Rattle.rules.specs.Kept.{extent_at, source_at};
ghost use Rattle.rules.specs.Tables.{keep_rules};
ghost use Rattle.rules.specs.Plan.{extent_line, source_line, guest_lines, plan_text};
ghost use Rattle.text.specs.Put.{Put};

use crate::line::{ROOM, put_word_line};
use rules::{Extent, Extents, Guest, Plant, Source, Tables};

#[tactic(auto, unfolding(rules::specs::Plan::extent_line))]
fn put_extent_line(x: Extent, at: usize, out: &mut [u8; ROOM]) -> usize
    requires { at + 103 ≤ 8192 }
    ensures { Put out.old out.new at result (extent_line x) }
{
    put_word_line(
        b"extent",
        [x.real as u64, x.count as u64, x.host as u64, 0, 0],
        3,
        at,
        out,
    )
}

#[tactic(auto, using(crate::proofs::LineLaws::bit_of), unfolding(rules::specs::Plan::source_line))]
fn put_source_line(s: Source, at: usize, out: &mut [u8; ROOM]) -> usize
    requires { at + 103 ≤ 8192 }
    ensures { Put out.old out.new at result (source_line s) }
{
    put_word_line(
        b"source",
        [
            s.devhandle as u64,
            s.devino as u64,
            u64::from(s.cookies),
            0,
            0,
        ],
        3,
        at,
        out,
    )
}

fn put_extent_lines(extents: Extents, from: usize, out: &mut [u8; ROOM]) -> usize
    requires { (extents.extents ≤ extent_limit) × (from + 509 ≤ 8192) }
    ensures { Put out.old out.new from result (each_below extents.extents (λ i. extent_line (extent_at extents i))) }
{
    let mut at = from;
    for x in &extents.extent[..extents.extents as usize] {
        at = put_extent_line(*x, at, out);
    }
    at
}

// As put_extent_lines, of a record of other fields: a trait over both, with its ghost members, would be longer than both loops.
fn put_source_lines(plant: Plant, from: usize, out: &mut [u8; ROOM]) -> usize
    requires { (plant.sources ≤ source_limit) × (from + 1031 ≤ 8192) }
    ensures { Put out.old out.new from result (each_below plant.sources (λ i. source_line (source_at plant i))) }
{
    let mut at = from;
    for s in &plant.source[..plant.sources as usize] {
        at = put_source_line(*s, at, out);
    }
    at
}

fn put_guest_lines(guest: Guest, at: usize, out: &mut [u8; ROOM]) -> usize
    requires { (guest.extents.extents ≤ extent_limit) × (guest.plant.sources ≤ source_limit) × (at + 1460 ≤ 8192) }
    ensures { Put out.old out.new at result (guest_lines guest) }
{
    let first = put_word_line(b"guest", [guest.plant.cpus as u64, 0, 0, 0, 0], 1, at, out);
    let behind = put_extent_lines(guest.extents, first, out);
    put_source_lines(guest.plant, behind, out)
}

// Tables that keep the rules have few enough of all.
pub(crate) fn put_plan(tables: Tables, out: &mut [u8; ROOM]) -> usize
    requires { keep_rules tables ≡ true }
    ensures { Put out.old out.new 0 result (plan_text tables) }
{
    let mut at = 0;
    for guest in &tables.guest[..tables.guests as usize] {
        at = put_guest_lines(*guest, at, out);
    }
    at
}
