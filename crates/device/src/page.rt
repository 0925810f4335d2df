ghost use Rattle.std.specs.Prelude.{◌≡◌, slice_index};
ghost use Rattle.device.specs.Pages.{page};

// Pages are numbered from 0, and there are at most this many.
pub const PAGES: u8 = 64;

// How many objects a page has.
pub const OBJECTS: u8 = 8;

// The eight objects of a page, by value.
#[derive(Clone, Copy, PartialEq, Eq, Debug)]
pub struct Page {
    pub objects: [u32; 8],
}

impl Page {
    // The page of these objects.
    pub fn new(objects: [u32; 8]) -> Page
        ensures { result ≡ page (λ o. slice_index objects o) }
    {
        Page { objects }
    }
}
