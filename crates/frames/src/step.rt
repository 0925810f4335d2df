ghost use Rattle.std.specs.Prelude.{◌≡◌, ◌+◌, ◌*◌, ◌<◌, ◌≤◌, [], ◌∷◌, ◌++◌, length, is_ok, if◌then◌else◌, vec_len, vec_capacity, OnErr};
ghost use Rattle.text.specs.Lines.{lines_of};
ghost use Rattle.text.specs.Room.{LacksRoom, WrittenOrKept};
ghost use Rattle.codec.specs.Decoding.{decoded};
ghost use Rattle.frames.specs.Answering.{read_outcome, session_after, answer_text, answered};

use crate::answers::put_outcome;
use calls::{Answer, Place, Reason, Refusal};
use codec::read_call;
use std::alloc::AllocError;
use store::{Denial, Session};
use text::Lines;

// What becomes of a line.
fn take_line(session: &mut Session, line: &[u8]) -> Result<Answer, Denial>
    ensures answer { result ≡ read_outcome session.old (decoded line.now) }
    ensures after { session.new ≡ session_after session.old line.now }
{
    // A `Denial` at once: through `From`, by `?` or by `into`, an ordinary line takes a fifth more instructions.
    let Some(call) = read_call(line) else {
        return Err(Denial::Refused(Refusal::new(Reason::NotAFrame, Place::nowhere())));
    };
    session.call(call)
}

// Answers a line, with a newline, behind what the buffer holds. Without memory for the answer nothing changes.
#[tactic(auto, using(crate::proofs::Texts::outcome_short))]
pub fn answer_line(session: &mut Session, line: &[u8], out: &mut Vec<u8>) -> Result<(), AllocError>
    ensures behind { WrittenOrKept out.old out.new (answer_text session.old line.now ++ 10 ∷ []) result }
    ensures after { session.new ≡ (if is_ok result then session_after session.old line.now else session.old) }
    ensures refused_only_without_room { OnErr result (LacksRoom out.old 11) }
    ensures at_most_11_more { vec_len out.new ≤ vec_len out.old + 11 }
    ensures keeps_its_room { vec_capacity out.old ≤ vec_capacity out.new }
{
    out.reserve(11)?;
    let outcome = take_line(session, line);
    put_outcome(out, outcome);
    out.push_reserved(b'\n');
    Ok(())
}

// Answers all lines of an input, in their order, a line each, behind what the buffer holds. Without memory for the
// answers the buffer holds what it held before.
pub fn answer_all(input: &[u8], out: &mut Vec<u8>) -> Result<(), AllocError>
    ensures behind { WrittenOrKept out.old out.new (answered input.now) result }
    ensures one_answer_a_line { length (lines_of (answered input.now)) ≡ length (lines_of input.now) }
    ensures refused_only_without_room { OnErr result (LacksRoom out.old (11 * length (lines_of input.now))) }
{
    let start = out.len();
    let mut session = Session::new();
    for line in Lines::new(input) {
        if let Err(refused) = answer_line(&mut session, line.text, out) {
            out.truncate(start);
            return Err(refused);
        }
    }
    Ok(())
}
