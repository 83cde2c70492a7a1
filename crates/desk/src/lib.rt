// The lines of the planning desk's program: what each adds, and what they come to.
#![tactic(auto)]

mod draw;
mod line;
mod step;

ghost use Rattle.std.specs.Prelude.{◌≡◌, ◌+◌, ◌≤◌, ℕ, eqb, length, drop, position};
ghost use Rattle.rules.specs.Text.{line_feed};
ghost use Rattle.rules.specs.Plan.{fresh, desk_after};
ghost use Rattle.desk.specs.Ends.{line_length};

pub use line::plan_line;
use records::blank;
use rules::{Desk, Stage};

fn first_feed(s: &[u8]) -> Option<usize>
    ensures { result ≡ position (λ (b : ℕ). eqb b line_feed) s.now }
{
    s.iter().position(|b| *b == b'\n')
}

// The end of the line that starts at the place from: the next line feed, or the end of the input.
fn line_end(input: &[u8], from: usize) -> usize
    requires { from ≤ length input.now }
    ensures { result ≡ from + line_length (drop from input.now) }
{
    let rest = &input[from..];
    from + first_feed(rest).unwrap_or(rest.len())
}

#[tactic(auto, unfolding(rules::specs::Plan::fresh))]
fn fresh_desk() -> Desk
    ensures { result ≡ fresh }
{
    Desk {
        stage: Stage::Fresh,
        tables: blank::no_guests(),
    }
}

// The desk after every line of the input. n is the number of the line, and the first has number 1.
pub fn desk_after(input: &[u8]) -> Desk
    ensures { result ≡ desk_after input.now }
{
    let mut desk = fresh_desk();
    let mut n = 0;
    let mut from = 0;
    // A turn is a line, and not a byte: where the next one starts, only this one's end tells.
    while from < input.len() {
        n += 1;
        let end = line_end(input, from);
        desk = step::step(n, desk, &input[from..end]);
        from = if end < input.len() { end + 1 } else { end };
    }
    desk
}
