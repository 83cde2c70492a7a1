// The line that is printed for a line.
ghost use Rattle.std.specs.Prelude.{◌≡◌, ◌+◌, ◌≤◌, length};
ghost use Rattle.std.proofs.lemmas.List.Edits.{sets};
ghost use Rattle.session.specs.Replies.{reply_text};

use rules::Reply;

// The longest reply, a status and four values of 16 digits, has 85 bytes.
pub const REPLY: usize = 96;

// The text of a reply, with the line feed, from the place at on; gives the place behind it.
#[tactic(auto, unfolding(crate::specs::Replies::reply_text, rules::specs::Session::text_of, text::specs::Printed::loading_text, text::specs::Printed::answer_text))]
pub(crate) fn put_reply(reply: Reply, out: &mut [u8], at: usize) -> usize
    requires { at + 96 ≤ length out.old }
    ensures { (result ≡ at + length (reply_text reply)) × (out.new ≡ sets out.old at (reply_text reply)) }
{
    match reply {
        Reply::Bad => text::put_bad(at, out),
        Reply::Image(answer) => text::put_loading(answer, at, out),
        Reply::Event(answer) => text::put_answer(answer, at, out),
    }
}
