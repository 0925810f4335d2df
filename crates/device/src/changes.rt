ghost use Rattle.std.specs.Prelude.{◌≡◌};
ghost use Rattle.device.specs.Changes.{named, distinct, proper, stamped};
ghost use Rattle.device.specs.Logs.{admission};

use crate::fault::DeviceFault;
use crate::object::ObjectId;
use crate::record::{Change, Entry, Record};

// Does the list name this object?
fn names(changes: &[Change], id: ObjectId) -> bool
    ensures { result ≡ named changes.now id.page id.object }
{
    changes.iter().any(|c| c.id == id)
}

// Are they different objects 0 to 7 of pages below 64?
fn are_distinct(changes: &[Change]) -> bool
    ensures { result ≡ distinct changes.now }
{
    match changes {
        [] => true,
        [first, rest @ ..] => {
            first.id.is_inside() && !names(rest, first.id) && are_distinct(rest)
        }
    }
}

// Are they 1 to 8 such objects?
fn are_proper(changes: &[Change]) -> bool
    ensures { result ≡ proper changes.now }
{
    (1..=8).contains(&changes.len()) && are_distinct(changes)
}

// The record of a change in the commit of this number.
pub(crate) fn stamp(number: u32, change: Change) -> Record
    ensures { result ≡ stamped number change }
{
    Record {
        id: change.id,
        entry: Entry {
            number,
            value: change.value,
        },
    }
}

// The number of the next commit in a log with this last number and free count, or why it is refused.
pub(crate) fn admit(last: u32, free: usize, changes: &[Change]) -> Result<u32, DeviceFault>
    ensures { result ≡ admission last free changes.now }
{
    if !are_proper(changes) {
        Err(DeviceFault::BadChanges)
    } else if last == u32::MAX {
        Err(DeviceFault::NumbersSpent)
    } else if free < changes.len() {
        Err(DeviceFault::LogFull)
    } else {
        Ok(last + 1)
    }
}
