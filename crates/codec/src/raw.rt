mod cut;
mod decode;

// A run of digits: a part of a line, and its place there, counted in bytes from the line's start.
#[derive(Clone, Copy, Debug, PartialEq, Eq)]
pub struct Run<'a> {
    pub digits: &'a [u8],
    pub place: usize,
}

// A line that has the opcode and the length of a frame, cut into its fields. They stand in the line's order, which is that
// of the call's fields, and are not decoded yet. (Beside `Call`, and not one enum over the type of its fields: a call's fields have
// names and several types.)
#[derive(Clone, Copy)]
pub enum RawFrame<'a> {
    Making(Run<'a>, Run<'a>, Run<'a>, Run<'a>),
    Begin(Run<'a>),
    Read(Run<'a>, Run<'a>, Run<'a>),
    Write(Run<'a>, Run<'a>, Run<'a>, Run<'a>),
    Commit(Run<'a>),
    Cancel(Run<'a>),
    Fetch(Run<'a>, Run<'a>),
    Evict(Run<'a>, Run<'a>),
    Drop(Run<'a>, Run<'a>, Run<'a>),
    Deliver(Run<'a>, Run<'a>),
    TakeUp(Run<'a>),
    PutDown(Run<'a>),
    LetGo,
    Restart(Run<'a>),
    Cut,
}
