ghost use Rattle.std.specs.Prelude.{◌≡◌, length};
ghost use Rattle.device.specs.Places.{member, placed, plain_place, plain_layout, plain_state};
ghost use Rattle.device.specs.LayoutLaws.{plain_apart, plain_below_64};

use crate::layout::Layout;
use crate::page::PAGES;
use crate::placed::PlacedDisk;
use crate::places::PlaceSet;

// Page p lies at place p. Pages of a given set are bad.
#[derive(Drop)]
pub struct PlainLayout {
    bad: PlaceSet,
}

impl Layout for PlainLayout {
    ghost place_of = { plain_layout };

    ghost apart = { λ l. plain_apart (member l.bad) };

    ghost below_64 = { λ l. plain_below_64 (member l.bad) };

    fn place(&self, places: usize, page: u8) -> Option<usize> {
        let place = page as usize;
        (page < PAGES && place < places && !self.bad.has(place)).then_some(place)
    }
}

// A disk whose pages lie at the places of their own numbers.
pub type PlainDisk<'a> = PlacedDisk<'a, PlainLayout>;

impl<'a> PlainDisk<'a> {
    // The disk over this memory. (Each kind of disk has its own `new`, so that a caller hands in a set and names no layout.)
    pub fn new(memory: &'a mut [[u32; 8]], bad: PlaceSet) -> PlainDisk<'a>
        ensures { plain_state result ≡ placed memory.old (plain_place (member bad) (length memory.old)) }
    {
        PlacedDisk {
            memory,
            layout: PlainLayout { bad },
        }
    }
}
