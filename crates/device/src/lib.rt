// Disks and logs: the lowest layer, which knows nothing of servers or benches.
#![tactic(auto)]

pub mod fault;
pub mod object;
pub mod page;
pub mod record;
// disks
pub mod disk;
pub mod layout;
pub mod placed;
pub mod places;
pub mod plain;
pub mod spared;
// logs
pub mod cell;
mod changes;
pub mod list;
pub mod log;
// over any disk and any log
pub mod install;
pub mod numbered;

pub use cell::CellLog;
pub use disk::Disk;
pub use fault::DeviceFault;
pub use layout::Layout;
pub use list::ListLog;
pub use list::lend::{ListLogWork, lend_list_log, with_list_log};
pub use log::Log;
pub use object::ObjectId;
pub use page::Page;
pub use placed::PlacedDisk;
pub use places::PlaceSet;
pub use plain::PlainDisk;
pub use record::{Change, Entry, Record};
pub use spared::SparedDisk;
