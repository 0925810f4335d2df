ghost use Rattle.std.specs.Prelude.{◌≡◌};
ghost use Rattle.device.specs.Pages.{page};
ghost use Rattle.device.specs.Numbered.{numbered_value, numbered_state};

use crate::disk::Disk;
use crate::page::{OBJECTS, PAGES, Page};
use std::array;

// The page whose object o holds 256 number + o.
fn numbered_page(number: u8) -> Page
    ensures { result ≡ page (numbered_value number) }
{
    let first = 256 * number as u32;
    Page {
        objects: array::from_fn(|o| first + o as u32),
    }
}

// Has each object o of each good page p hold 256 p + o.
pub fn number_pages<D: Disk>(disk: &mut D)
    ensures { D.Disk.state disk.new ≡ numbered_state (D.Disk.state disk.old) }
{
    for p in 0..PAGES {
        let _ = disk.write(p, &numbered_page(p), OBJECTS);
    }
}
