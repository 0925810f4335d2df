ghost use Rattle.std.specs.Prelude.{◌≡◌, ℕ, ◌≤◌, List, length, None, Option, slice_index_or};
ghost use Rattle.device.specs.declared.record.Record.{Record};
ghost use Rattle.device.specs.Changes.{nothing};
ghost use Rattle.device.specs.Logs.{LogState, append_answer, append_state, forget_state, NumbersAtMost, Inside, InsideRecord, Empty, entry_count, gathered};

use crate::fault::DeviceFault;
use crate::object::ObjectId;
use crate::record::{Change, Entry, Record};

// A log, by its content, its last number and its free count.
pub trait Log {
    // The most entries that it can hold. `place_count` answers it, and its contract speaks of it as `most`. (A ghost member of
    // this very name would be tied to it; tried: that is not stated of an impl with a lifetime, as `ListLog`'s is.)
    const MOST: usize;

    ghost most: { ℕ };

    ghost state: { Self → LogState };

    // What is told at its places, one after the other.
    ghost places: { Self → List (Option Record) };

    // One commit. The free count that an accepted one leaves is the log's own affair.
    fn append(&mut self, changes: &[Change]) -> Result<u32, DeviceFault>
        ensures answer { result ≡ append_answer (state self.old) changes.now }
        ensures after { state self.new ≡ append_state (state self.old) changes.now (state self.new).free };

    // Removes the entries of a page whose number is at most `upto`. (Two arguments:
    // forgetting, and installing, which forgets, take them, and a struct of the two would be made only to be taken apart.)
    fn forget(&mut self, page: u8, upto: u32)
        ensures after { state self.new ≡ forget_state (state self.old) page upto (state self.new).free }
        ensures never_lowers_free { (state self.old).free ≤ (state self.new).free };

    fn entry(&self, id: ObjectId) -> Option<Entry>
        ensures { result ≡ (state self.now).content id.page id.object };

    fn last(&self) -> u32
        ensures value { result ≡ (state self.now).last }
        ensures bounds_every_number { NumbersAtMost (state self.now).content result };

    fn free(&self) -> usize
        ensures value { result ≡ (state self.now).free }
        ensures empty_has_room { Empty (state self.now).content → 8 ≤ result };

    // How many places a scan has to ask for at most. What they tell, taken in order, is the whole content.
    fn place_count(&self) -> usize
        ensures value { result ≡ most }
        ensures bounds_the_places { length (places self.now) ≤ result }
        ensures bounds_the_entries { entry_count (state self.now).content ≤ result }
        ensures places_tell_all { gathered nothing (places self.now) ≡ (state self.now).content }
        ensures entries_lie_inside { Inside (state self.now).content };

    // What is told at a place; nothing at a place that there is not.
    fn told(&self, place: usize) -> Option<Record>
        ensures value { result ≡ slice_index_or (places self.now) place None }
        ensures lies_inside { InsideRecord result };
}
