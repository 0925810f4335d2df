ghost use Rattle.std.specs.Prelude.{◌≡◌, true, length};
ghost use Rattle.device.specs.Cells.{all_within};

use crate::record::Entry;

mod edits;
pub mod ops;

// A log with a cell for each of the 512 objects: the entry of object o of page p lies at cell 8 p + o. (One array: its memory
// is fixed, and a scan asks for the cells by one number.)
#[derive(Drop)]
pub struct CellLog {
    cells: [Option<Entry>; 512],
    last: u32,
    ghost size: { length cells ≡ 512 },
    ghost order: { all_within last cells ≡ true },
}
