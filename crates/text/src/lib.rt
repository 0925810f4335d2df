// Text: the lines of an input, and bytes as pairs of digits.
#![tactic(auto)]

mod digits;
pub mod lines;
mod put;

pub use digits::byte_value;
pub use lines::{Line, Lines};
pub use put::{put_hex, put_pair};
