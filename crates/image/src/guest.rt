// A guest's part of the image: its three counts, then its extents and its sources.
ghost use Rattle.std.specs.Prelude.{◌≡◌, ℕ, ◌+◌, ◌*◌, ◌^◌, ◌<◌, ◌≤◌, length, replicate};
ghost use Rattle.rules.specs.declared.ImageRefusal.TheVariants.{HeaderOrCount};
ghost use Rattle.rules.specs.Limits.{extent_limit, source_limit};
ghost use Rattle.rules.specs.Rulings.{refused};
ghost use Rattle.rules.specs.Widths.{extent_bits, source_bits};
ghost use Rattle.rules.specs.Image.{◌bits_at◌of◌from◌to◌else◌, read_extent, read_source, filled, read_lists, read_guest, behind};
ghost use Rattle.image.specs.Answers.{Reaches, Reads, result_of};

use records::blank;
use rules::widths::{
    COOKIE_SUPPORT_AT, COOKIE_SUPPORT_WIDTH, COUNTS_BITS, CPUS_WIDTH, DEVHANDLE_WIDTH, DEVINO_AT,
    DEVINO_WIDTH, EXTENT_BITS, EXTENTS_AT, EXTENTS_WIDTH, HOST_PAGE_AT, HOST_PAGE_WIDTH,
    PAGE_COUNT_AT, PAGE_COUNT_WIDTH, REAL_PAGE_WIDTH, SOURCE_BITS, SOURCES_AT, SOURCES_WIDTH,
};
use rules::{CPUS, EXTENTS, Extent, Extents, Guest, ImageRefusal, Plant, SOURCES, Source};

// The n bits from bit `at` on, which are from lo to hi. Outside of these the refusal tells guest g.
pub(crate) fn read_count(
    s: &[u8],
    at: u64,
    n: u32,
    lo: u8,
    hi: u8,
    g: u8,
) -> Result<u8, ImageRefusal>
    requires { n ≤ 28 }
    ensures { result ≡ result_of (n bits_at at of s.now from lo to hi else HeaderOrCount g) }
{
    let v = bits::field_at(s, at, n).ok_or(ImageRefusal::ImageShort)?;
    if v < u32::from(lo) || u32::from(hi) < v {
        return Err(ImageRefusal::HeaderOrCount(g));
    }
    Ok(v as u8)
}

// The extent at bit `at`: real page 28 bits, page count 16, host page 16.
fn read_extent(s: &[u8], at: u64) -> Extent
    requires { Reaches s.now (at + extent_bits) }
    ensures { result ≡ read_extent s.now at }
{
    Extent {
        real: bits::number_at(s, at, REAL_PAGE_WIDTH),
        count: bits::number_at(s, at + PAGE_COUNT_AT, PAGE_COUNT_WIDTH) as u16,
        host: bits::number_at(s, at + HOST_PAGE_AT, HOST_PAGE_WIDTH) as u16,
    }
}

// The source at bit `at`: devhandle 28 bits, devino 7, cookie support 1.
fn read_source(s: &[u8], at: u64) -> Source
    requires { Reaches s.now (at + source_bits) }
    ensures { result ≡ read_source s.now at }
{
    Source {
        devhandle: bits::number_at(s, at, DEVHANDLE_WIDTH),
        devino: bits::number_at(s, at + DEVINO_AT, DEVINO_WIDTH) as u8,
        cookies: bits::number_at(s, at + COOKIE_SUPPORT_AT, COOKIE_SUPPORT_WIDTH) == 1,
        ..blank::source()
    }
}

// Fills the first k places of a blank list with what `read` gives for them.
fn read_list<T: Copy, F: Fn(usize) -> T>(list: &mut [T], k: u8, read: F)
    requires enough { k ≤ length list.old }
    requires callable { (i : ℕ) → i < k → F.pre read i }
    ensures { (size : ℕ) (blank : T) (f : ℕ → T) → list.old ≡ replicate size blank → Reads (F.post read) k f → list.new ≡ filled size blank f k }
{
    for i in 0..usize::from(k) {
        list[i] = read(i);
    }
}

// The bit behind lists that start at bit `at`.
fn behind_lists(at: u64, extents: u8, sources: u8) -> u64
    requires { at < 2 ^ 32 }
    ensures { result ≡ at + extent_bits * extents + source_bits * sources }
{
    at + EXTENT_BITS * u64::from(extents) + SOURCE_BITS * u64::from(sources)
}

// The bit behind a guest that starts at bit `at`.
pub(crate) fn behind(at: u64, guest: &Guest) -> u64
    requires { at < 2 ^ 31 }
    ensures { result ≡ behind at guest.now }
{
    behind_lists(at + COUNTS_BITS, guest.extents.extents, guest.plant.sources)
}

// A guest's lists from bit `at` on, behind its three counts. Their bits are all there, or none of them is read.
fn read_lists(s: &[u8], at: u64, cpus: u8, extents: u8, sources: u8) -> Result<Guest, ImageRefusal>
    requires { (at < 2 ^ 32) × (extents ≤ extent_limit) × (sources ≤ source_limit) }
    ensures { result ≡ result_of (read_lists s.now at cpus extents sources) }
{
    let end = behind_lists(at, extents, sources);
    if (s.len() as u64) < end.div_ceil(8) {
        return Err(ImageRefusal::ImageShort);
    }
    let mut extent = blank::extents();
    read_list(
        &mut extent,
        extents,
        |i| read_extent(s, at + EXTENT_BITS * i as u64),
    );
    let sources_at = at + EXTENT_BITS * u64::from(extents);
    let mut source = blank::sources();
    read_list(
        &mut source,
        sources,
        |i| read_source(s, sources_at + SOURCE_BITS * i as u64),
    );
    Ok(Guest {
        extents: Extents { extents, extent },
        plant: Plant {
            versions: blank::versions(),
            cpus,
            cpu: blank::cpus(),
            sources,
            source,
        },
    })
}

// Guest g at bit `at`: cpus 4 bits, extents 3, sources 5; then its lists.
pub(crate) fn read_guest(s: &[u8], g: u8, at: u64) -> Result<Guest, ImageRefusal>
    requires { at < 2 ^ 31 }
    ensures { result ≡ result_of (read_guest s.now g at) }
{
    let cpus = read_count(s, at, CPUS_WIDTH, 1, CPUS as u8, g)?;
    let extents = read_count(s, at + EXTENTS_AT, EXTENTS_WIDTH, 1, EXTENTS as u8, g)?;
    let sources = read_count(s, at + SOURCES_AT, SOURCES_WIDTH, 0, SOURCES as u8, g)?;
    read_lists(s, at + COUNTS_BITS, cpus, extents, sources)
}
