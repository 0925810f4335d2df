ghost use Rattle.std.specs.Prelude.{◌≡◌, ◌++◌, is_ok, if◌then◌else◌, OnErr};
ghost use Rattle.calls.specs.Answers.{answer_bytes};
ghost use Rattle.text.specs.Hex.{hex};
ghost use Rattle.text.specs.Room.{HasRoom, LacksRoom, Gains, WrittenOrKept};
ghost use Rattle.frames.specs.Answering.{outcome_text};

use calls::{Answer, byte_or_255};
use std::alloc::AllocError;
use store::Denial;
use text::{put_hex, put_pair};

// The first byte of a granted call's answer; a refusal has its number there.
const GRANTED: u8 = 0;

// Writes what a granted call answers behind what the buffer holds, which has the room.
fn put_answer(out: &mut Vec<u8>, answer: Answer)
    requires { HasRoom out.old 10 }
    ensures { Gains out.old out.new (hex (answer_bytes answer)) }
{
    match answer {
        Answer::Done => put_hex(out, &[GRANTED]),
        Answer::Value(number) | Answer::Committed(number) => {
            let [a, b, c, d] = number.to_be_bytes();
            put_hex(out, &[GRANTED, a, b, c, d])
        }
        Answer::Obtained { source, supplier } => {
            put_hex(out, &[GRANTED, u8::from(source), byte_or_255(supplier)])
        }
        Answer::Delivered { objects, aborted } => put_hex(out, &[GRANTED, objects, aborted as u8]),
        Answer::PutDown { cut } => put_hex(out, &[GRANTED, cut as u8]),
        Answer::Cut { entries } => put_hex(out, &[GRANTED, entries]),
    }
}

// Writes what became of a call behind what the buffer holds, which has the room.
pub(crate) fn put_outcome(out: &mut Vec<u8>, outcome: Result<Answer, Denial>)
    requires { HasRoom out.old 10 }
    ensures { Gains out.old out.new (outcome_text outcome) }
{
    match outcome {
        Ok(answer) => put_answer(out, answer),
        Err(Denial::Refused(refusal)) => put_hex(out, &refusal.to_bytes()),
        Err(Denial::NotBuilt) => put_pair(out, b'.', b'.'),
    }
}

// Writes what became of a call behind what the buffer holds. Without memory for it the buffer stays as it was. (A function
// over what is written, for this and for frames, would be no plainer: it would take the room and a closure for these three lines.)
pub fn write_outcome(outcome: Result<Answer, Denial>, out: &mut Vec<u8>) -> Result<(), AllocError>
    ensures behind { WrittenOrKept out.old out.new (outcome_text outcome) result }
    ensures refused_only_without_room { OnErr result (LacksRoom out.old 10) }
{
    out.reserve(10)?;
    put_outcome(out, outcome);
    Ok(())
}
