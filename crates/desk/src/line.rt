// A line of a plan: what its word and its numbers add.
ghost use Rattle.std.specs.Prelude.{true, ◌≡◌, ◌≤◌, length, take};
ghost use Rattle.rules.specs.Plan.{extent_of, extent_held, source_of, source_held, addition_of, plan_line};
ghost use Rattle.text.specs.Gathered.{ZeroFrom};

use rules::{Extent, PlanLine, Source};
use text::{FIELDS, piece_end, read_fields, same_text};

// Whether a table holds the numbers of an extent: the real page in 32 bits, the others in 16.
#[tactic(auto, unfolding(rules::specs::Plan::extent_held))]
fn extent_held(ns: [u64; FIELDS]) -> bool
    ensures { result ≡ extent_held ns }
{
    ns[0] < 0x1_0000_0000 && ns[1] < 0x1_0000 && ns[2] < 0x1_0000
}

// The test and the casts stand apart, as in the rule (a TryFrom with `?` was tried: its goals stayed open).
#[tactic(auto, unfolding(rules::specs::Plan::extent_held))]
fn extent_of(ns: [u64; FIELDS]) -> Extent
    requires { extent_held ns ≡ true }
    ensures { result ≡ extent_of ns }
{
    Extent {
        real: ns[0] as u32,
        count: ns[1] as u16,
        host: ns[2] as u16,
    }
}

// Whether a table holds the numbers of a source: the devhandle in 32 bits, the devino in 8, and cookie support as yes or no.
#[tactic(auto, unfolding(rules::specs::Plan::source_held))]
fn source_held(ns: [u64; FIELDS]) -> bool
    ensures { result ≡ source_held ns }
{
    ns[0] < 0x1_0000_0000 && ns[1] < 0x100 && ns[2] < 2
}

#[tactic(auto, unfolding(rules::specs::Plan::source_held))]
fn source_of(ns: [u64; FIELDS]) -> Source
    requires { source_held ns ≡ true }
    ensures { result ≡ source_of ns }
{
    Source {
        devhandle: ns[0] as u32,
        devino: ns[1] as u8,
        cookies: ns[2] == 1,
        enabled: 0,
        state: 0,
        target: 0,
        cookie: 0,
    }
}

// What a word and the first n numbers add. Those behind them are 0.
#[tactic(auto, using(crate::proofs::LineLaws::first))]
fn addition_of(word: &[u8], n: usize, ns: [u64; FIELDS]) -> Option<PlanLine>
    requires { (n ≤ length ns) × ZeroFrom n ns }
    ensures { result ≡ addition_of word.now (take n ns) }
{
    if same_text(word, b"guest") && n == 1 && ns[0] < 0x100 {
        return Some(PlanLine::Guest(ns[0] as u8));
    }
    if same_text(word, b"extent") && n == 3 && extent_held(ns) {
        return Some(PlanLine::Extent(extent_of(ns)));
    }
    if same_text(word, b"source") && n == 3 && source_held(ns) {
        return Some(PlanLine::Source(source_of(ns)));
    }
    None
}

// A line without its line feed.
pub fn plan_line(s: &[u8]) -> Option<PlanLine>
    ensures { result ≡ plan_line s.now }
{
    if 2048 < s.len() {
        return None;
    }
    let end = piece_end(s, 0);
    let read = read_fields(s, end)?;
    addition_of(&s[..end], read.numbers, read.number)
}
