ghost use Rattle.std.specs.Prelude.{◌≡◌, ◌++◌, is_ok, if◌then◌else◌, Some, OnErr, OnOk};
ghost use Rattle.text.specs.Room.{HasRoom, LacksRoom, Gains, WrittenOrKept};
ghost use Rattle.codec.specs.Decoding.{decoded};
ghost use Rattle.codec.specs.Frames.{frame, FitsFrame};

use crate::opcode::Opcode;
use calls::{Call, PageNumber, byte_or_255};
use std::alloc::AllocError;
use text::put_hex;

// Writes a call's frame behind what the buffer holds, which has the room. (One table, an arm for each call.)
fn put_call(out: &mut Vec<u8>, call: Call)
    requires { HasRoom out.old 16 }
    ensures behind { Gains out.old out.new (frame call) }
    ensures fits { FitsFrame call }
{
    match call {
        Call::Making {
            pages,
            benches,
            entries,
            bad,
        } => put_hex(
            out,
            &[
                Opcode::Making as u8,
                pages,
                benches,
                entries,
                byte_or_255(bad.map(PageNumber::number)),
            ],
        ),
        Call::Begin { bench } => put_hex(out, &[Opcode::Begin as u8, bench]),
        Call::Read {
            bench,
            page,
            object,
        } => put_hex(out, &[Opcode::Read as u8, bench, page, object]),
        Call::Write {
            bench,
            page,
            object,
            value,
        } => {
            let [a, b, c, d] = value.to_be_bytes();
            put_hex(out, &[Opcode::Write as u8, bench, page, object, a, b, c, d])
        }
        Call::Commit { bench } => put_hex(out, &[Opcode::Commit as u8, bench]),
        Call::Cancel { bench } => put_hex(out, &[Opcode::Cancel as u8, bench]),
        Call::Fetch { bench, page } => put_hex(out, &[Opcode::Fetch as u8, bench, page]),
        Call::Evict { bench, page } => put_hex(out, &[Opcode::Evict as u8, bench, page]),
        Call::Drop {
            bench,
            page,
            object,
        } => put_hex(out, &[Opcode::Drop as u8, bench, page, object]),
        Call::Deliver { bench, page } => put_hex(out, &[Opcode::Deliver as u8, bench, page]),
        Call::TakeUp { page } => put_hex(out, &[Opcode::TakeUp as u8, page]),
        Call::PutDown { cut_point } => put_hex(out, &[Opcode::PutDown as u8, cut_point]),
        Call::LetGo => put_hex(out, &[Opcode::LetGo as u8]),
        Call::Restart { bench } => put_hex(out, &[Opcode::Restart as u8, bench]),
        Call::Cut => put_hex(out, &[Opcode::Cut as u8]),
    }
}

// Writes a call's frame behind what the buffer holds. Without memory for it the buffer stays as it was. (For this and for
// answers a function over what is written would be no plainer: it would take the room and a closure for these three lines.)
#[tactic(auto, using(crate::proofs::Encoded::reads_back))]
pub fn write_frame(call: Call, out: &mut Vec<u8>) -> Result<(), AllocError>
    ensures behind { WrittenOrKept out.old out.new (frame call) result }
    ensures reads_back { OnOk result (decoded (frame call) ≡ Some call) }
    ensures refused_only_without_room { OnErr result (LacksRoom out.old 16) }
{
    out.reserve(16)?;
    put_call(out, call);
    Ok(())
}
