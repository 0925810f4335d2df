ghost use Rattle.std.specs.Prelude.{◌≡◌, length};
ghost use Rattle.device.specs.Places.{member, placed, spared_place, spared_layout, spared_state};
ghost use Rattle.device.specs.LayoutLaws.{spared_apart, spared_below_64};

use crate::layout::Layout;
use crate::page::PAGES;
use crate::placed::PlacedDisk;
use crate::places::PlaceSet;

// Some places are spared: page p lies at the p-th of the others, counted from 0.
#[derive(Drop)]
pub struct SparedLayout {
    spared: PlaceSet,
}

impl Layout for SparedLayout {
    ghost place_of = { spared_layout };

    ghost apart = { λ l. spared_apart (member l.spared) };

    ghost below_64 = { λ l. spared_below_64 (member l.spared) };

    fn place(&self, places: usize, page: u8) -> Option<usize> {
        if page < PAGES {
            (0..places)
                .filter(|place| !self.spared.has(*place))
                .nth(page as usize)
        } else {
            None
        }
    }
}

// A disk whose pages lie, in order, at the places that are not spared.
pub type SparedDisk<'a> = PlacedDisk<'a, SparedLayout>;

impl<'a> SparedDisk<'a> {
    // The disk over this memory. (Each kind of disk has its own `new`, so that a caller hands in a set and names no layout.)
    pub fn new(memory: &'a mut [[u32; 8]], spared: PlaceSet) -> SparedDisk<'a>
        ensures { spared_state result ≡ placed memory.old (spared_place (member spared) (length memory.old)) }
    {
        PlacedDisk {
            memory,
            layout: SparedLayout { spared },
        }
    }
}
