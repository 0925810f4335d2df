// Calls and their frames: a line is cut into fields and these are decoded; a call is written as its frame.
#![tactic(auto)]

mod opcode;
pub mod raw;
mod read;
mod write;

pub use raw::{RawFrame, Run};
pub use read::read_call;
pub use write::write_frame;
