// The image's rules that are tried after the last field, over tables. Each answers the place of the first fault, with no condition
// on what it is given: extent k of the host is extent k % 7 of guest k / 7, and source k is source k % 16 of guest k / 16.
#![tactic(auto)]

ghost use Rattle.std.specs.Prelude.{◌≡◌, Bool, ℕ, ◌<◌};
ghost use Rattle.rules.specs.declared.Extents.{Extents};
ghost use Rattle.rules.specs.Scan.{some_below, first_below};
ghost use Rattle.rules.specs.Kept.{extent_at};
ghost use Rattle.rules.specs.Image.{extent_right, right_at, follows, ascend, first_breaking, share, shares_before, pages_shared, named_before, source_twice};
ghost use Rattle.partition.specs.Collected.{runs_of, names_of, alike};
ghost use Rattle.partition.specs.Rules.{Holds, Clashes};

use records::blank;
use rules::{EXTENTS, Extent, Extents, GUESTS, SOURCES, Tables};
use std::array;

// Real pages have 28 bits.
const REAL_PAGES: u64 = 0x1000_0000;

const HOST_PAGES: u64 = 65536;

// The places for runs of host pages on the host, and for sources.
pub const RUNS: usize = GUESTS * EXTENTS;

const NAMES: usize = GUESTS * SOURCES;

// What a place for a source names, where the guest has a source there.
#[derive(Clone, Copy, PartialEq, Eq)]
struct Name {
    devhandle: u32,
    devino: u8,
}

pub fn extent_right(x: Extent) -> bool
    ensures { result ≡ extent_right x }
{
    let count = u64::from(x.count);
    1 <= count && u64::from(x.real) + count <= REAL_PAGES && u64::from(x.host) + count <= HOST_PAGES
}

// Extent i of a guest. Past its places there is no page.
fn extent_at(e: Extents, i: usize) -> Extent
    ensures { result ≡ extent_at e i }
{
    e.extent.get(i).copied().unwrap_or(blank::extent())
}

fn right_at(e: Extents, i: usize) -> bool
    ensures { result ≡ right_at e i }
{
    extent_right(extent_at(e, i))
}

// Extent i starts at or past the end of the one before it.
fn follows(e: Extents, i: usize) -> bool
    ensures { result ≡ follows e i }
{
    if i == 0 {
        return true;
    }
    let before = extent_at(e, i - 1);
    u64::from(before.real) + u64::from(before.count) <= u64::from(extent_at(e, i).real)
}

pub fn ascend(e: Extents) -> bool
    ensures { result ≡ ascend e }
{
    (0..usize::from(e.extents)).all(|i| follows(e, i))
}

// The first extent on the host that breaks a rule: by guest, and then by position.
fn first_breaking<F: Fn(Extents, usize) -> bool>(t: Tables, holds: F) -> Option<usize>
    requires { F.IsAlwaysCallable holds }
    ensures { (rule : Extents → ℕ → Bool) → Holds (F.post holds) rule → result ≡ first_breaking rule t }
{
    (0..RUNS).find(|&k| {
        let e = &t.guest[k / EXTENTS].extents;
        let i = k % EXTENTS;
        i < usize::from(e.extents) && !holds(*e, i)
    })
}

pub fn wrong_numbers(t: Tables) -> Option<usize>
    ensures { result ≡ first_breaking right_at t }
{
    first_breaking(t, right_at)
}

pub fn out_of_order(t: Tables) -> Option<usize>
    ensures { result ≡ first_breaking follows t }
{
    first_breaking(t, follows)
}

// Of n places, the first that clashes with one before it: of two pairs that is the one whose later place comes first.
fn first_clash<F: Fn(usize, usize) -> bool>(n: usize, clash: F) -> Option<usize>
    requires { (i j : ℕ) → i < j → j < n → F.pre clash i j }
    ensures { (p : ℕ → ℕ → Bool) → Clashes (F.post clash) n p → result ≡ first_below n (λ j. some_below j (λ i. p i j)) }
{
    let mut found = None;
    'pairs: for j in 0..n {
        for i in 0..j {
            if clash(i, j) {
                found = Some(j);
                break 'pairs;
            }
        }
    }
    found
}

// Every run of host pages, side by side.
pub fn runs(t: Tables) -> [Extent; RUNS]
    ensures { result ≡ runs_of t }
{
    array::from_fn(|k| t.guest[k / EXTENTS].extents.extent[k % EXTENTS])
}

// Whether a host page belongs to both runs.
fn share(x: Extent, y: Extent) -> bool
    ensures { result ≡ share x y }
{
    let start = u32::from(x.host.max(y.host));
    let x_end = u32::from(x.host) + u32::from(x.count);
    let y_end = u32::from(y.host) + u32::from(y.count);
    start < x_end.min(y_end)
}

// The first run that shares a page with one before it.
pub fn shares_before(t: Tables) -> Option<usize>
    ensures { result ≡ shares_before t }
{
    let runs = runs(t);
    first_clash(RUNS, |i, j| share(runs[i], runs[j]))
}

pub fn pages_shared(t: Tables) -> bool
    ensures { result ≡ pages_shared t }
{
    shares_before(t).is_some()
}

// What every place for a source names, side by side.
fn names(t: Tables) -> [Option<Name>; NAMES]
    ensures { result ≡ names_of t }
{
    array::from_fn(|k| {
        let plant = &t.guest[k / SOURCES].plant;
        let s = plant.source[k % SOURCES];
        let name = Name {
            devhandle: s.devhandle,
            devino: s.devino,
        };
        (k % SOURCES < usize::from(plant.sources)).then_some(name)
    })
}

// Whether two places name one source.
fn alike(x: Option<Name>, y: Option<Name>) -> bool
    ensures { result ≡ alike x y }
{
    match (x, y) {
        (Some(x), Some(y)) => x == y,
        _ => false,
    }
}

// The first source that has the name of one before it.
pub fn named_before(t: Tables) -> Option<usize>
    ensures { result ≡ named_before t }
{
    let names = names(t);
    first_clash(NAMES, |i, j| alike(names[i], names[j]))
}

pub fn source_twice(t: Tables) -> bool
    ensures { result ≡ source_twice t }
{
    named_before(t).is_some()
}
