// A line more of the input: the first may be an image, and behind an image or a bad line no other counts.
ghost use Rattle.std.specs.Prelude.{◌≡◌};
ghost use Rattle.rules.specs.Image.{load};
ghost use Rattle.rules.specs.Text.{parse};
ghost use Rattle.rules.specs.Plan.{loaded_desk, begun, stepped};
ghost use Rattle.text.specs.Lines.{image_of};

use crate::draw::{bad_at, draw};
use crate::line::plan_line;
use rules::{Desk, Stage, Tables};
use text::Line;

// An image line does what it does in a session.
fn load_line(line: &[u8]) -> Desk
    ensures { result ≡ loaded_desk (load (image_of (parse line.now))) }
{
    let loaded = session::load_line(line);
    Desk {
        stage: Stage::Loaded(loaded.answer),
        tables: loaded.tables,
    }
}

// The first line.
fn begin(n: usize, tables: Tables, line: &[u8]) -> Desk
    ensures { result ≡ begun n tables line.now (parse line.now) }
{
    match text::parse_line(line) {
        Line::Image => load_line(line),
        Line::Bad | Line::Event(_) => draw(n, tables, plan_line(line)),
    }
}

// Line n.
#[tactic(auto, unfolding(rules::specs::Plan::stepped))]
pub(crate) fn step(n: usize, desk: Desk, line: &[u8]) -> Desk
    ensures { result ≡ stepped n desk line.now }
{
    match desk.stage {
        Stage::Fresh => begin(n, desk.tables, line),
        Stage::Drawing => draw(n, desk.tables, plan_line(line)),
        Stage::Loaded(_) => bad_at(n, desk.tables),
        Stage::Bad(k) => bad_at(k, desk.tables),
    }
}
