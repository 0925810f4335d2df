ghost use Rattle.std.specs.Prelude.{◌≡◌, ℕ, ◌+◌, ◌*◌, ◌<◌, true, map, length, Some, slice_set};
ghost use Rattle.device.specs.Changes.{inside, distinct, appended, newer, forgotten};
ghost use Rattle.device.specs.Cells.{cell_content, all_within, tagged};

use crate::changes::stamp;
use crate::object::ObjectId;
use crate::page::{OBJECTS, PAGES};
use crate::record::{Change, Entry, Record};

// The record of a cell.
pub(crate) fn tag(cell: usize, entry: Option<Entry>) -> Option<Record>
    requires { cell < 512 }
    ensures { result ≡ tagged cell entry }
{
    Some(Record {
        id: ObjectId {
            page: (cell / 8) as u8,
            object: (cell % 8) as u8,
        },
        entry: entry?,
    })
}

// The entry, unless its number is at most `upto`.
fn newer_than(entry: Option<Entry>, upto: u32) -> Option<Entry>
    ensures { result ≡ newer upto entry }
{
    entry.filter(|e| e.number > upto)
}

// The cell of an object 0 to 7 of a page below 64.
pub(crate) fn cell_of(id: ObjectId) -> usize
    ensures { result ≡ 8 * id.page + id.object }
{
    8 * id.page as usize + id.object as usize
}

// Writes the record's entry to its cell.
fn store(cells: &mut [Option<Entry>; 512], r: Record)
    requires { inside r.id.page r.id.object ≡ true }
    ensures { cells.new ≡ slice_set cells.old (8 * r.id.page + r.id.object) (Some r.entry) }
{
    cells[cell_of(r.id)] = Some(r.entry);
}

// Writes the entries of the commit of this number.
pub(crate) fn enter(cells: &mut [Option<Entry>; 512], number: u32, changes: &[Change])
    requires { distinct changes.now ≡ true }
    ensures length { length cells.new ≡ 512 }
    ensures content { cell_content cells.new ≡ appended (cell_content cells.old) number changes.now }
    ensures order { all_within number cells.old ≡ true → all_within number cells.new ≡ true }
{
    for c in changes {
        store(cells, stamp(number, *c));
    }
}

// Removes the entries whose number is at most `upto`.
fn keep_newer(cells: &mut [Option<Entry>], upto: u32)
    ensures { cells.new ≡ map (newer upto) cells.old }
{
    for cell in cells {
        *cell = newer_than(*cell, upto);
    }
}

// Removes the entries of a page whose number is at most `upto`.
pub(crate) fn sweep(cells: &mut [Option<Entry>; 512], page: u8, upto: u32)
    ensures length { length cells.new ≡ 512 }
    ensures content { cell_content cells.new ≡ forgotten (cell_content cells.old) page upto }
    ensures order { (n : ℕ) → all_within n cells.old ≡ true → all_within n cells.new ≡ true }
{
    if page < PAGES {
        let first = cell_of(ObjectId { page, object: 0 });
        let end = first + OBJECTS as usize;
        keep_newer(&mut cells[first..end], upto);
    }
}
