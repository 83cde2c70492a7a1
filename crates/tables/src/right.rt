// What the tables must hold of the small records: "the image's rules", "versions as negotiable", and the rules of a source.
ghost use Rattle.std.specs.Prelude.{◌≡◌};
ghost use Rattle.rules.specs.Limits.{extent_limit};
ghost use Rattle.rules.specs.Kept.{extent_at};
ghost use Rattle.rules.specs.Image.{extent_right};
ghost use Rattle.rules.specs.Tables.{list_right, extent_blank, versions_right, cookie_right, enabled_right, extents_keep};
ghost use Rattle.tables.specs.Sources.{source_right_under};

use crate::blank::extent_blank;
use crate::lists::list_right;
use partition::{ascend, extent_right};
use rules::{Extents, Source, Versions};

// Devhandles have 28 bits and devinos 7.
const DEVHANDLES: u32 = 0x1000_0000;

const DEVINOS: u8 = 128;

#[tactic(auto, unfolding(rules::specs::Tables::versions_right))]
pub(crate) fn versions_right(v: Versions) -> bool
    ensures { result ≡ versions_right v }
{
    (v.sun4v <= 1) & (v.core <= 1) & (v.interrupt <= 2) & (v.statistics <= 1)
}

// major is the negotiated version of group 2.
#[tactic(auto, unfolding(rules::specs::Tables::cookie_right))]
fn cookie_right(major: u8, s: Source) -> bool
    ensures { result ≡ cookie_right major s }
{
    s.cookie == 0 || (2047 < s.cookie && major == 2 && s.cookies)
}

#[tactic(auto, unfolding(rules::specs::Tables::enabled_right))]
fn enabled_right(major: u8, s: Source) -> bool
    ensures { result ≡ enabled_right major s }
{
    s.enabled == 0 || !(major == 0 || (major == 2 && s.cookie == 0))
}

#[tactic(auto, unfolding(crate::specs::Sources::source_right_under))]
pub(crate) fn source_right(cpus: u8, major: u8, s: Source) -> bool
    ensures { result ≡ source_right_under cpus major s }
{
    (s.devhandle < DEVHANDLES)
        & (s.devino < DEVINOS)
        & (s.enabled <= 1)
        & (s.state <= 2)
        & (s.target < cpus)
        & cookie_right(major, s)
        & enabled_right(major, s)
}

fn places_right(e: Extents) -> bool
    ensures { result ≡ list_right extent_limit e.extents (λ i. extent_right (extent_at e i)) (λ i. extent_blank (extent_at e i)) }
{
    list_right(&e.extent, e.extents, extent_right, extent_blank)
}

#[tactic(auto, unfolding(rules::specs::Tables::extents_keep))]
pub(crate) fn extents_keep(e: Extents) -> bool
    ensures { result ≡ extents_keep e }
{
    (1 <= e.extents) & places_right(e) & ascend(e)
}
