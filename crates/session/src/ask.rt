// What a line asks for, and of whom.
ghost use Rattle.std.specs.Prelude.{◌≡◌, true, is_ok};
ghost use Rattle.rules.specs.Tables.{keep_rules};
ghost use Rattle.rules.specs.Text.{parse};
ghost use Rattle.rules.specs.Image.{load};
ghost use Rattle.text.specs.Lines.{image_of};
ghost use Rattle.session.specs.Asking.{asked, asked_of};

use rules::{Answer, Event, Loaded, Refusal, Reply, Tables};
use text::Line;

// Nothing but the reply, as it is no line or an event that is refused at the door; an image; an event of a guest that is there.
#[derive(Clone, Copy, PartialEq, Eq)]
pub enum Asked {
    Said(Reply),
    Image,
    Guest(usize, Event),
}

#[tactic(auto, unfolding(crate::specs::Asking::asked_of))]
fn ask_event(tables: Tables, door: Result<(), Refusal>, event: Event) -> Asked
    requires { is_ok door ≡ true → keep_rules tables ≡ true }
    ensures { result ≡ asked_of tables door event }
{
    match host::seat_of(tables, door, event) {
        Err(r) => Asked::Said(Reply::Event(Answer::Refused(r))),
        Ok(g) => Asked::Guest(g, event),
    }
}

pub(crate) fn ask(tables: Tables, door: Result<(), Refusal>, line: &[u8]) -> Asked
    requires { is_ok door ≡ true → keep_rules tables ≡ true }
    ensures { result ≡ asked tables door (parse line.now) }
{
    match text::parse_line(line) {
        Line::Bad => Asked::Said(Reply::Bad),
        Line::Image => Asked::Image,
        Line::Event(event) => ask_event(tables, door, event),
    }
}

// Loads the image of an image line; of any other line, an empty one.
pub fn load_line(line: &[u8]) -> Loaded
    ensures { result ≡ load (image_of (parse line.now)) }
{
    let mut bytes = [0; 1024];
    let n = text::image_bytes(line, &mut bytes);
    image::load(&bytes[..n])
}
