ghost use Rattle.std.specs.Prelude.{◌≡◌, ◌+◌, ◌*◌, ◌≤◌, length, is_some, IfSome};
ghost use Rattle.text.specs.Hex.{byte_at};
ghost use Rattle.codec.specs.Decoding.{has_shape};
ghost use Rattle.codec.specs.Raw.{RunOf, CutFrom};

use crate::opcode::Opcode;
use crate::raw::{RawFrame, Run};
use text::byte_value;

// The first byte of a line.
fn first_byte(line: &[u8]) -> Option<u8>
    ensures { result ≡ byte_at line.now 0 }
{
    match line {
        [high, low, ..] => byte_value(*high, *low),
        _ => None,
    }
}

// The digits of `count` bytes from byte `first` on.
fn run(line: &[u8], first: usize, count: usize) -> Run<'_>
    requires { 2 * first + 2 * count ≤ length line.now }
    ensures { RunOf line.now first count result }
{
    let place = 2 * first;
    let end = place + 2 * count;
    Run {
        digits: &line[place..end],
        place,
    }
}

// The digits of one byte.
fn byte(line: &[u8], index: usize) -> Run<'_>
    requires { 2 * index + 2 ≤ length line.now }
    ensures { RunOf line.now index 1 result }
{
    run(line, index, 1)
}

impl<'a> RawFrame<'a> {
    // Cuts a line that has the opcode and the length of a frame into its fields. (With the hint no fields are copied
    // where a call is read; without it reading one takes a third more instructions.)
    #[inline]
    pub fn cut(line: &'a [u8]) -> Option<RawFrame<'a>>
        ensures which { is_some result ≡ has_shape line.now }
        ensures parts { IfSome result (CutFrom line.now) }
    {
        let opcode = Opcode::new(first_byte(line)?)?;
        if line.len() != 2 * opcode.size() {
            return None;
        }
        let frame = match opcode {
            Opcode::Making => RawFrame::Making(
                byte(line, 1),
                byte(line, 2),
                byte(line, 3),
                byte(line, 4),
            ),
            Opcode::Begin => RawFrame::Begin(byte(line, 1)),
            Opcode::Read => RawFrame::Read(byte(line, 1), byte(line, 2), byte(line, 3)),
            Opcode::Write => RawFrame::Write(
                byte(line, 1),
                byte(line, 2),
                byte(line, 3),
                run(line, 4, 4),
            ),
            Opcode::Commit => RawFrame::Commit(byte(line, 1)),
            Opcode::Cancel => RawFrame::Cancel(byte(line, 1)),
            Opcode::Fetch => RawFrame::Fetch(byte(line, 1), byte(line, 2)),
            Opcode::Evict => RawFrame::Evict(byte(line, 1), byte(line, 2)),
            Opcode::Drop => RawFrame::Drop(byte(line, 1), byte(line, 2), byte(line, 3)),
            Opcode::Deliver => RawFrame::Deliver(byte(line, 1), byte(line, 2)),
            Opcode::TakeUp => RawFrame::TakeUp(byte(line, 1)),
            Opcode::PutDown => RawFrame::PutDown(byte(line, 1)),
            Opcode::LetGo => RawFrame::LetGo,
            Opcode::Restart => RawFrame::Restart(byte(line, 1)),
            Opcode::Cut => RawFrame::Cut,
        };
        Some(frame)
    }
}
