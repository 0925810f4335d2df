ghost use Rattle.std.specs.Prelude.{◌≡◌, reverse, option_map};
ghost use Rattle.std.specs.List.{find};
ghost use Rattle.device.specs.declared.record.Record.{Record};
ghost use Rattle.device.specs.Changes.{same_object, nothing, newest};
ghost use Rattle.device.specs.Records.{outlasts};

use crate::object::ObjectId;
use crate::record::{Entry, Record};

// The entry of the last record of an object.
fn last_entry(records: &[Record], id: ObjectId) -> Option<Entry>
    ensures { result ≡ option_map (λ (r : Record). r.entry) (find (λ (r : Record). same_object r.id.page r.id.object id.page id.object) (reverse records.now)) }
{
    records.iter().rev().find(|r| r.id == id).map(|r| r.entry)
}

// The entry of an object: its last record is its newest.
pub(crate) fn look(records: &[Record], id: ObjectId) -> Option<Entry>
    ensures { result ≡ newest nothing records.now id.page id.object }
{
    last_entry(records, id)
}

// Does the record outlast forgetting this page up to this number?
pub(crate) fn outlasting(r: Record, page: u8, upto: u32) -> bool
    ensures { result ≡ outlasts page upto r }
{
    r.id.page != page || r.entry.number > upto
}
