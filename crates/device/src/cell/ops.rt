ghost use Rattle.std.specs.Prelude.{◌≡◌, ◌≤◌};
ghost use Rattle.device.specs.Logs.{empty_log, Empty};
ghost use Rattle.device.specs.CellLogs.{cell_state, cell_places};

use crate::cell::CellLog;
use crate::cell::edits::{cell_of, enter, sweep, tag};
use crate::changes::admit;
use crate::fault::DeviceFault;
use crate::log::Log;
use crate::object::ObjectId;
use crate::record::{Change, Entry, Record};

impl CellLog {
    // An empty log with this last number.
    pub fn new(last: u32) -> CellLog
        ensures { cell_state result ≡ empty_log last 512 }
    {
        CellLog {
            cells: [None; 512],
            last,
        }
    }
}

impl Log for CellLog {
    const MOST: usize = 512;

    ghost most = { 512 };

    ghost state = { cell_state };

    ghost places = { cell_places };

    fn append(&mut self, changes: &[Change]) -> Result<u32, DeviceFault> {
        let number = admit(self.last, self.free(), changes)?;
        enter(&mut self.cells, number, changes);
        self.last = number;
        Ok(number)
    }

    fn forget(&mut self, page: u8, upto: u32) {
        sweep(&mut self.cells, page, upto);
    }

    fn entry(&self, id: ObjectId) -> Option<Entry> {
        if id.is_inside() {
            self.cells[cell_of(id)]
        } else {
            None
        }
    }

    fn last(&self) -> u32 {
        self.last
    }

    fn free(&self) -> usize
        ensures value { result ≡ (cell_state self.now).free }
        ensures empty_has_room { Empty (cell_state self.now).content → 8 ≤ result }
        ensures always_512 { result ≡ 512 }
    {
        self.cells.len()
    }

    // (The same line in each log: at `MOST` it is said why the trait does not have it.)
    fn place_count(&self) -> usize {
        Self::MOST
    }

    fn told(&self, place: usize) -> Option<Record> {
        tag(place, *self.cells.get(place)?)
    }
}
