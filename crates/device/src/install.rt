ghost use Rattle.std.specs.Prelude.{◌≡◌, ◌≤◌};
ghost use Rattle.device.specs.Overlay.{value_over, current_answer, install_disk, install_log};

use crate::disk::Disk;
use crate::fault::DeviceFault;
use crate::log::Log;
use crate::object::ObjectId;
use crate::page::{OBJECTS, Page};
use crate::record::Entry;
use std::array;

// An object's value with its entry, if any, laid over it.
fn laid_over(entry: Option<Entry>, old: u32) -> u32
    ensures { result ≡ value_over entry old }
{
    entry.map_or(old, |e| e.value)
}

// A page as disk and log together give it.
pub fn current_page<D: Disk, L: Log>(disk: &D, log: &L, page: u8) -> Result<Page, DeviceFault>
    ensures { result ≡ current_answer (D.Disk.state disk.now) (L.Log.state log.now) page }
{
    let written = disk.read(page)?;
    Ok(Page {
        objects: array::from_fn(|o| {
            let id = ObjectId {
                page,
                object: o as u8,
            };
            laid_over(log.entry(id), written.objects[o])
        }),
    })
}

// Writes a page as disk and log give it, and has the log forget its entries up to a number. Answers the page.
// The log forgets only what the disk has: a program that stops between the two calls has lost nothing.
pub fn install<D: Disk, L: Log>(
    disk: &mut D,
    log: &mut L,
    page: u8,
    upto: u32,
) -> Result<Page, DeviceFault>
    ensures answer { result ≡ current_answer (D.Disk.state disk.old) (L.Log.state log.old) page }
    ensures disk_after { D.Disk.state disk.new ≡ install_disk (D.Disk.state disk.old) (L.Log.state log.old) page }
    ensures log_after { L.Log.state log.new ≡ install_log (D.Disk.state disk.old) (L.Log.state log.old) page upto (L.Log.state log.new).free }
    ensures never_lowers_free { (L.Log.state log.old).free ≤ (L.Log.state log.new).free }
{
    let current = current_page(disk, log, page)?;
    disk.write(page, &current, OBJECTS)?;
    log.forget(page, upto);
    Ok(current)
}
