ghost use Rattle.std.specs.Prelude.{◌≡◌, ◌+◌, ◌-◌, ◌<◌, ◌≤◌, true, [], ◌∷◌, ◌++◌, slice_set, length, is_ok, if◌then◌else◌, filter};
ghost use Rattle.device.specs.Logs.{empty_log, append_answer, append_state, forget_state};
ghost use Rattle.device.specs.Lists.{list_state, list_places, capacity, in_use, records_after};
ghost use Rattle.device.specs.Records.{in_order, outlasts};

use crate::changes::{admit, stamp};
use crate::fault::DeviceFault;
use crate::list::ListLog;
use crate::list::edits::{look, outlasting};
use crate::log::Log;
use crate::object::ObjectId;
use crate::record::{Change, Entry, Record};

impl<'a> ListLog<'a> {
    // An empty log over memory of the greatest size, with this last number. (`over` takes memory of other sizes too.)
    pub fn new(records: &'a mut [Record; 64], last: u32) -> ListLog<'a>
        ensures { list_state result ≡ empty_log last 64 }
    {
        ListLog::empty(records, last)
    }

    fn in_use(&self) -> &[Record]
        ensures { result.now ≡ in_use self.now }
    {
        &self.records[..self.used]
    }

    // Lays a record behind those in use.
    fn push(&mut self, r: Record)
        requires room { self.old.used < length self.old.records.now }
        requires order { in_order 0 self.old.last (in_use self.old ++ r ∷ []) ≡ true }
        ensures records { self.new.records.now ≡ slice_set self.old.records.now self.old.used r }
        ensures used { self.new.used ≡ self.old.used + 1 }
        ensures last { self.new.last ≡ self.old.last }
    {
        self.records[self.used] = r;
        self.used += 1;
    }
}

impl Log for ListLog<'_> {
    const MOST: usize = 64;

    ghost most = { 64 };

    ghost state = { list_state };

    ghost places = { list_places };

    fn append(&mut self, changes: &[Change]) -> Result<u32, DeviceFault>
        ensures answer { result ≡ append_answer (list_state self.old) changes.now }
        ensures after { list_state self.new ≡ append_state (list_state self.old) changes.now (list_state self.new).free }
        ensures lays_a_record_each { in_use self.new ≡ records_after (in_use self.old) changes.now result }
        ensures takes_one_record_each { (list_state self.new).free ≡ (if is_ok (append_answer (list_state self.old) changes.now) then (list_state self.old).free - length changes.now else (list_state self.old).free) }
    {
        let number = admit(self.last, self.free(), changes)?;
        self.last = number;
        for c in changes {
            self.push(stamp(number, *c));
        }
        Ok(number)
    }

    // Moves the records that remain to the front, in their order; what is in use counts those moved so far. It goes by
    // index since the memory is lent: a slice has no `retain`, and none of its iterators lets go of what it has passed.
    fn forget(&mut self, page: u8, upto: u32)
        ensures after { list_state self.new ≡ forget_state (list_state self.old) page upto (list_state self.new).free }
        ensures never_lowers_free { (list_state self.old).free ≤ (list_state self.new).free }
        ensures drops_every_record_up_to { in_use self.new ≡ filter (outlasts page upto) (in_use self.old) }
        ensures frees_what_it_drops { (list_state self.new).free + length (in_use self.new) ≡ capacity self.old }
    {
        let used = self.used;
        self.used = 0;
        for i in 0..used {
            let r = self.records[i];
            if outlasting(r, page, upto) {
                self.push(r);
            }
        }
    }

    fn entry(&self, id: ObjectId) -> Option<Entry> {
        look(self.in_use(), id)
    }

    fn last(&self) -> u32 {
        self.last
    }

    fn free(&self) -> usize {
        self.records.len() - self.used
    }

    // (The same line in each log: at `MOST` it is said why the trait does not have it.)
    fn place_count(&self) -> usize {
        Self::MOST
    }

    fn told(&self, place: usize) -> Option<Record> {
        self.in_use().get(place).copied()
    }
}
