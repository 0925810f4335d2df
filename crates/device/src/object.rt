ghost use Rattle.std.specs.Prelude.{◌≡◌};
ghost use Rattle.device.specs.Changes.{inside};

use crate::page::{OBJECTS, PAGES};

// An object of a page, by their numbers. Both can be out of range.
#[derive(Clone, Copy, PartialEq, Eq, Debug, Default)]
pub struct ObjectId {
    pub page: u8,
    pub object: u8,
}

impl ObjectId {
    // Is it an object 0 to 7 of a page below 64?
    pub(crate) fn is_inside(self) -> bool
        ensures { result ≡ inside self.page self.object }
    {
        self.page < PAGES && self.object < OBJECTS
    }
}
