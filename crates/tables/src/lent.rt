// The rule on memory (102).
ghost use Rattle.std.specs.Prelude.{◌≡◌, ◌+◌, ◌*◌, leb};
ghost use Rattle.rules.specs.Limits.{page_size};
ghost use Rattle.rules.specs.Host.{long_enough};

use partition::runs;
use rules::{Extent, PAGE_SIZE, Tables};

// Memory of n bytes has all the pages of the run.
fn run_within(n: usize, x: Extent) -> bool
    ensures { result ≡ leb ((x.host + x.count) * page_size) n }
{
    (usize::from(x.host) + usize::from(x.count)) * PAGE_SIZE <= n
}

pub fn long_enough(t: Tables, n: usize) -> bool
    ensures { result ≡ long_enough t n }
{
    runs(t).iter().all(|x| run_within(n, *x))
}
