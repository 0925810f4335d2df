ghost use Rattle.std.specs.Prelude.{◌≡◌, ◌≤◌, true, length, take};
ghost use Rattle.device.specs.Records.{in_order};

use crate::record::Record;

mod edits;
pub mod lend;
pub mod ops;

// A log over 8 to 64 records in memory that is lent to it. The first `used` of them are in use, one for each
// object of each append that was not forgotten since, in the order of the appends. (A count beside a slice: the memory is
// fixed and not the log's own, so that no `Vec` holds it.)
#[derive(Drop)]
pub struct ListLog<'a> {
    records: &'a mut [Record],
    used: usize,
    last: u32,
    ghost within: { used ≤ length records.now },
    ghost least: { 8 ≤ length records.now },
    ghost most: { length records.now ≤ 64 },
    ghost order: { in_order 0 last (take used records.now) ≡ true },
}
