ghost use Rattle.std.specs.Prelude.{◌≡◌, ◌<◌, min, length, ok_or, IfOk, if◌then◌else◌, nat_lt, slice_index};
ghost use Rattle.device.specs.declared.fault.DeviceFault.TheVariants.{BadPage};
ghost use Rattle.device.specs.Disks.{write_answer, write_state};
ghost use Rattle.device.specs.Pages.{row, object_of};
ghost use Rattle.device.specs.Places.{overwritten, disk_at, disk_state};

use crate::disk::Disk;
use crate::fault::DeviceFault;
use crate::layout::Layout;
use crate::page::{OBJECTS, Page};

// A disk over one stretch of memory, in which a layout says where each page lies.
#[derive(Drop)]
pub struct PlacedDisk<'a, L> {
    pub(crate) memory: &'a mut [[u32; 8]],
    pub(crate) layout: L,
}

// Has the first `count` objects be those of `new`, all eight where the count is larger.
fn splice(objects: &mut [u32; 8], new: &Page, count: u8)
    ensures { objects.new ≡ row (λ o. (if nat_lt o (min count 8) then object_of new.now o else slice_index objects.old o)) }
{
    let meant = count.min(OBJECTS) as usize;
    objects[..meant].copy_from_slice(&new.objects[..meant]);
}

impl<L: Layout> PlacedDisk<'_, L> {
    // The place of a page; a page without one is bad.
    fn place(&self, page: u8) -> Result<usize, DeviceFault>
        ensures value { result ≡ ok_or (disk_at L.place_of self.now page) (BadPage page) }
        ensures within { IfOk result (λ place. place < length self.now.memory.now) }
    {
        self.layout
            .place(self.memory.len(), page)
            .ok_or(DeviceFault::BadPage(page))
    }
}

impl<L: Layout> Disk for PlacedDisk<'_, L> {
    ghost state = { disk_state L.place_of };

    fn read(&self, page: u8) -> Result<Page, DeviceFault> {
        Ok(Page::new(self.memory[self.place(page)?]))
    }

    // The place of a bad page, a spared place and whatever else lies in the memory stay as they were.
    fn write(&mut self, page: u8, new: &Page, count: u8) -> Result<(), DeviceFault>
        ensures answer { result ≡ write_answer (disk_state L.place_of self.old) page }
        ensures after { disk_state L.place_of self.new ≡ write_state (disk_state L.place_of self.old) page (object_of new.now) count }
        ensures touches_one_place { self.new.memory.now ≡ overwritten self.old.memory.now (disk_at L.place_of self.old page) (object_of new.now) count }
    {
        let place = self.place(page)?;
        splice(&mut self.memory[place], new, count);
        Ok(())
    }
}
