// The planning desk's program, on slices: its input in, its output out.
#![tactic(auto)]

mod line;
mod picture;
mod plan;

ghost use Rattle.std.specs.Prelude.{◌≡◌, true, length};
ghost use Rattle.std.proofs.lemmas.List.Edits.{sets};
ghost use Rattle.rules.specs.Tables.{keep_rules};
ghost use Rattle.rules.specs.Writing.{write_rule};
ghost use Rattle.rules.specs.Plan.{written_text, loaded_text, desk_text, planned};
ghost use Rattle.text.specs.Put.{Put};
ghost use Rattle.plans.specs.Loads.{LoadsKeep};

pub use line::ROOM;
use rules::{Desk, ImageRefusal, Stage, Tables};

// The image of the tables, or why there is none.
fn put_written(tables: Tables, out: &mut [u8; ROOM]) -> usize
    ensures { Put out.old out.new 0 result (written_text (write_rule tables 1024)) }
{
    let mut image = [0; 1024];
    match writer::write_image(tables, &mut image) {
        Ok(n) => picture::put_image_line(&image[..n], out),
        Err(why) => text::put_numbers([text::write_status(why), 0, 0, 0, 0], 1, 0, out),
    }
}

// The plan of an image that was accepted, or what loading answered.
#[tactic(auto, unfolding(text::specs::Printed::loading_text))]
fn put_loaded(tables: Tables, answer: Result<(), ImageRefusal>, out: &mut [u8; ROOM]) -> usize
    requires { keep_rules tables ≡ true }
    ensures { Put out.old out.new 0 result (loaded_text tables answer) }
{
    match answer {
        Ok(()) => plan::put_plan(tables, out),
        Err(_) => text::put_loading(answer, 0, out),
    }
}

#[tactic(auto, unfolding(rules::specs::Plan::desk_text))]
fn put_desk(desk: Desk, out: &mut [u8; ROOM]) -> usize
    requires { LoadsKeep desk }
    ensures { Put out.old out.new 0 result (desk_text desk) }
{
    match desk.stage {
        Stage::Fresh | Stage::Drawing => put_written(desk.tables, out),
        Stage::Loaded(answer) => put_loaded(desk.tables, answer, out),
        Stage::Bad(n) => line::put_word_line(b"bad", [n as u64, 0, 0, 0, 0], 1, 0, out),
    }
}

// What the program prints for a whole input, at the front of out; gives its length.
#[tactic(auto, using(crate::proofs::DeskLaws::after_keeps), unfolding(rules::specs::Plan::planned))]
pub fn answer(input: &[u8], out: &mut [u8; ROOM]) -> usize
    ensures { (result ≡ length (planned input.now)) × (out.new ≡ sets out.old 0 (planned input.now)) }
{
    put_desk(desk::desk_after(input), out)
}
