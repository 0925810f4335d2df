ghost use Rattle.std.specs.Prelude.{◌≡◌, ℕ, ◌<◌, true};
ghost use Rattle.device.specs.Pages.{object_of};
ghost use Rattle.device.specs.Disks.{DiskState, read_answer, write_answer, write_state};

use crate::fault::DeviceFault;
use crate::page::Page;

// A disk, by its good pages and their objects.
pub trait Disk {
    ghost state: { Self → DiskState };

    // The objects of a good page.
    fn read(&self, page: u8) -> Result<Page, DeviceFault>
        ensures answer { result ≡ read_answer (state self.now) page }
        ensures good_is_below_64 { (p : ℕ) → (state self.now).good p ≡ true → p < 64 };

    // Writes the first `count` objects of `new`, all eight where the count is larger. (No slice
    // for the two: a count above 8 is taken too, and means 8.)
    fn write(&mut self, page: u8, new: &Page, count: u8) -> Result<(), DeviceFault>
        ensures answer { result ≡ write_answer (state self.old) page }
        ensures after { state self.new ≡ write_state (state self.old) page (object_of new.now) count };
}
