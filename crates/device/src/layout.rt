ghost use Rattle.std.specs.Prelude.{◌≡◌, ℕ, ◌<◌, true, is_some, Option};
ghost use Rattle.device.specs.Places.{Within, Apart};

// A rule that says at which place of a disk's memory each page lies.
pub trait Layout {
    // The place of a page, if it has one, among so many places.
    ghost place_of: { Self → ℕ → ℕ → Option ℕ };

    fn place(&self, places: usize, page: u8) -> Option<usize>
        ensures value { result ≡ place_of self.now places page }
        ensures within { Within result places };

    // Two pages have two places.
    ghost apart: { (layout : Self) (places : ℕ) → Apart (place_of layout places) };

    // Only pages below 64 have a place.
    ghost below_64: { (layout : Self) (places page : ℕ) → is_some (place_of layout places page) ≡ true → page < 64 };
}
