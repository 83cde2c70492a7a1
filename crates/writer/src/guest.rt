// A guest's part of the image: its three counts, then its extents and its sources.
ghost use Rattle.std.specs.Prelude.{◌≡◌, ◌+◌, ◌*◌, ◌^◌, ◌<◌, ◌≤◌, length};
ghost use Rattle.rules.specs.Kept.{extent_at, source_at};
ghost use Rattle.rules.specs.Limits.{extent_limit, source_limit};
ghost use Rattle.rules.specs.Scan.{each_below};
ghost use Rattle.rules.specs.Widths.{counts_bits, extent_bits, source_bits};
ghost use Rattle.rules.specs.Writing.{extent_row, source_row, counts_row, guest_row};
ghost use Rattle.bits.specs.Put.{put_bits};

use rules::widths::{
    COOKIE_SUPPORT_AT, COOKIE_SUPPORT_WIDTH, COUNTS_BITS, CPUS_WIDTH, DEVHANDLE_WIDTH, DEVINO_AT,
    DEVINO_WIDTH, EXTENT_BITS, EXTENTS_AT, EXTENTS_WIDTH, HOST_PAGE_AT, HOST_PAGE_WIDTH,
    PAGE_COUNT_AT, PAGE_COUNT_WIDTH, REAL_PAGE_WIDTH, SOURCE_BITS, SOURCES_AT, SOURCES_WIDTH,
};
use rules::{Extent, Extents, Guest, Plant, Source};

// Each record is written by its own named widths, in the image's order: these three differ in all that they say.

// An extent from bit `at` on: real page 28 bits, page count 16, host page 16.
fn put_extent(out: &mut [u8], at: u64, x: Extent)
    requires { (at < 2 ^ 32) × (at + extent_bits ≤ 8 * length out.old) }
    ensures { out.new ≡ put_bits out.old at (extent_row x) }
{
    bits::put_field(out, at, REAL_PAGE_WIDTH, x.real as u64);
    bits::put_field(out, at + PAGE_COUNT_AT, PAGE_COUNT_WIDTH, x.count as u64);
    bits::put_field(out, at + HOST_PAGE_AT, HOST_PAGE_WIDTH, x.host as u64);
}

// A source from bit `at` on: devhandle 28 bits, devino 7, cookie support 1.
fn put_source(out: &mut [u8], at: u64, s: Source)
    requires { (at < 2 ^ 32) × (at + source_bits ≤ 8 * length out.old) }
    ensures { out.new ≡ put_bits out.old at (source_row s) }
{
    bits::put_field(out, at, DEVHANDLE_WIDTH, s.devhandle as u64);
    bits::put_field(out, at + DEVINO_AT, DEVINO_WIDTH, s.devino as u64);
    bits::put_field(
        out,
        at + COOKIE_SUPPORT_AT,
        COOKIE_SUPPORT_WIDTH,
        u64::from(s.cookies),
    );
}

// A guest's counts from bit `at` on: cpus 4 bits, extents 3, sources 5.
fn put_counts(out: &mut [u8], at: u64, guest: Guest)
    requires { (at < 2 ^ 32) × (at + counts_bits ≤ 8 * length out.old) }
    ensures { out.new ≡ put_bits out.old at (counts_row guest) }
{
    bits::put_field(out, at, CPUS_WIDTH, guest.plant.cpus as u64);
    bits::put_field(
        out,
        at + EXTENTS_AT,
        EXTENTS_WIDTH,
        guest.extents.extents as u64,
    );
    bits::put_field(
        out,
        at + SOURCES_AT,
        SOURCES_WIDTH,
        guest.plant.sources as u64,
    );
}

// The extents that are there, from bit `at` on.
fn put_extents(out: &mut [u8], at: u64, e: Extents)
    requires { (at < 2 ^ 31) × (e.extents ≤ extent_limit) × (at + extent_bits * e.extents ≤ 8 * length out.old) }
    ensures { out.new ≡ put_bits out.old at (each_below e.extents (λ i. extent_row (extent_at e i))) }
{
    for (i, x) in e.extent[..e.extents as usize].iter().enumerate() {
        put_extent(out, at + EXTENT_BITS * (i as u64), *x);
    }
}

// The sources that are there, from bit `at` on. As put_extents, of rows of another type and length: a trait of rows, with its
// ghost members and laws, would be longer than both loops.
fn put_sources(out: &mut [u8], at: u64, plant: Plant)
    requires { (at < 2 ^ 31) × (plant.sources ≤ source_limit) × (at + source_bits * plant.sources ≤ 8 * length out.old) }
    ensures { out.new ≡ put_bits out.old at (each_below plant.sources (λ i. source_row (source_at plant i))) }
{
    for (i, s) in plant.source[..plant.sources as usize].iter().enumerate() {
        put_source(out, at + SOURCE_BITS * (i as u64), *s);
    }
}

// How many bits a guest has, whatever its counts are.
pub(crate) fn guest_bits(guest: Guest) -> u64
    ensures { (result ≡ length (guest_row guest)) × (result < 2 ^ 15) }
{
    COUNTS_BITS
        + EXTENT_BITS * (guest.extents.extents as u64)
        + SOURCE_BITS * (guest.plant.sources as u64)
}

// A guest from bit `at` on.
pub(crate) fn put_guest(out: &mut [u8], at: u64, guest: Guest)
    requires at_bound { (at < 2 ^ 30) × (guest.extents.extents ≤ extent_limit) × (guest.plant.sources ≤ source_limit) }
    requires guest_bound { at + length (guest_row guest) ≤ 8 * length out.old }
    ensures { out.new ≡ put_bits out.old at (guest_row guest) }
{
    put_counts(out, at, guest);
    put_extents(out, at + COUNTS_BITS, guest.extents);
    put_sources(
        out,
        at + COUNTS_BITS + EXTENT_BITS * (guest.extents.extents as u64),
        guest.plant,
    );
}
