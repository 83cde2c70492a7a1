// Input in pieces of any size. What a piece leaves unfinished is kept until the next one.
ghost use Rattle.std.specs.Prelude.{◌≡◌};
ghost use Rattle.session.specs.Feeding.{feed_of, Feeds, at_first, ending, room};

use crate::ask::{Asked, ask, load_line};
use crate::reply::{REPLY, put_reply};
use plants::change_plant;
use rules::{Reply, Tables};

// As many bytes as are kept of a line: one more than the longest has, which is enough to tell that it is too long.
pub const LINE: usize = 2049;

// The tables, and the first held bytes of a line that has not ended. An array with its length: no heap, and the definitions name both.
#[derive(Clone, Copy)]
pub struct Feeder {
    pub tables: Tables,
    pub line: [u8; LINE],
    pub held: usize,
}

// taken bytes of the piece were read, and written bytes of answers were given.
#[derive(Clone, Copy)]
pub struct Fed {
    pub feeder: Feeder,
    pub taken: usize,
    pub written: usize,
}

// A session "starts with no guest".
pub fn begin() -> Feeder
    ensures { result ≡ at_first }
{
    Feeder {
        tables: image::load(b"").tables,
        line: [0; LINE],
        held: 0,
    }
}

// Takes bytes of the piece while there is room for one more answer: any byte can end a line, and an answer has at most REPLY bytes.
// The door is looked at once, and again after each image: no event changes what it comes to.
// Guest g, who was asked last, is held apart from the tables, so that no guest is copied out of them and back for each event; it is
// put back for another guest and at the end. What a line asks for is seen from the tables as they are, since no event changes who
// owns a source.
pub fn feed(feeder: Feeder, mem: &mut [u8], piece: &[u8], out: &mut [u8]) -> Fed
    ensures { Feeds (feed_of feeder mem.old piece.now out.old)
        (room feeder mem.old piece.now out.old)
        out.old result mem.new out.new }
{
    let mut tables = feeder.tables;
    let mut line = feeder.line;
    let mut held = feeder.held.min(LINE);
    let mut door = host::door_of(tables, mem.len());
    let mut g = 0;
    let mut guest = tables.guest[0];
    let mut at = 0;
    let mut taken = piece.len();
    for (i, b) in piece.iter().enumerate() {
        if out.len() - at < REPLY {
            taken = i;
            break;
        }
        if *b != b'\n' {
            if held < LINE {
                line[held] = *b;
                held += 1;
            }
            continue;
        }
        match ask(tables, door, &line[..held]) {
            Asked::Said(reply) => at = put_reply(reply, out, at),
            Asked::Image => {
                let loaded = load_line(&line[..held]);
                tables = loaded.tables;
                door = host::door_of(tables, mem.len());
                g = 0;
                guest = tables.guest[0];
                at = put_reply(Reply::Image(loaded.answer), out, at);
            }
            Asked::Guest(h, event) => {
                if h != g {
                    tables.guest[g].plant = guest.plant;
                    g = h;
                    guest = tables.guest[g];
                }
                let c = calls::cpu_of(guest.plant, event);
                let own = guest.plant.cpu[c];
                let done = calls::plant_event(guest.extents, guest.plant, own, mem, event);
                change_plant(&mut guest.plant, done);
                at = put_reply(Reply::Event(done.answer), out, at);
            }
        }
        held = 0;
    }
    tables.guest[g] = guest;
    Fed {
        feeder: Feeder { tables, line, held },
        taken,
        written: at,
    }
}

// The end of the input ends a line that has been begun.
#[tactic(auto, unfolding(crate::specs::Feeding::ending))]
pub fn finish(feeder: Feeder, mem: &mut [u8], out: &mut [u8]) -> Fed
    ensures { Feeds (feed_of feeder mem.old (ending feeder.held) out.old)
        (room feeder mem.old (ending feeder.held) out.old)
        out.old result mem.new out.new }
{
    if feeder.held == 0 {
        return feed(feeder, mem, b"", out);
    }
    feed(feeder, mem, b"\n", out)
}
