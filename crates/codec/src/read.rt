ghost use Rattle.std.specs.Prelude.{◌≡◌, IfSome, Some};
ghost use Rattle.calls.specs.declared.call.Call.{Call};
ghost use Rattle.codec.specs.Decoding.{decoded};
ghost use Rattle.codec.specs.Frames.{frame, FitsFrame};

use crate::raw::RawFrame;
use calls::Call;

// The call whose frame the line is, if it is one.
pub fn read_call(line: &[u8]) -> Option<Call>
    ensures value { result ≡ decoded line.now }
    ensures is_its_frame { IfSome result (λ c. line.now ≡ frame c) }
    ensures reads_every_frame { (c : Call) → FitsFrame c → line.now ≡ frame c → result ≡ Some c }
{
    RawFrame::cut(line)?.call()
}
