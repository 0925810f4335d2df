ghost use Rattle.std.specs.Prelude.{◌+◌, ◌^◌, ◌<◌, length};

pub mod reading;

// A line of the input, without its newline, and its number, from 1.
#[derive(Clone, Copy, Debug, PartialEq, Eq)]
pub struct Line<'a> {
    pub text: &'a [u8],
    pub number: usize,
}

// A reader of the lines of an input: what is left of it, and how many lines it has handed out. (Of its own: std's `split` hands
// out an empty line behind a last newline, and `split_inclusive` leaves the newline on, so that it would take a strip of each line
// and a count beside it, and be no plainer.)
#[derive(Drop)]
pub struct Lines<'a> {
    rest: &'a [u8],
    count: usize,
    ghost countable: { count + length rest.now < 2 ^ 64 },
}
