// The frame step: lines in, answers out. What it is made of, the reader of lines and the frames of calls, is passed on.
#![tactic(auto)]

mod answers;
mod step;

pub use answers::write_outcome;
pub use codec::{RawFrame, Run, read_call, write_frame};
pub use step::{answer_all, answer_line};
pub use text::{Line, Lines};
