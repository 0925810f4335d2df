ghost use Rattle.std.specs.Prelude.{◌≡◌, false};
ghost use Rattle.device.specs.Places.{member, joined};

// A set of places of a disk's memory, below 256. (An array, since a disk has fixed memory and no heap for a set of std's.)
#[derive(Clone, Copy)]
pub struct PlaceSet {
    members: [bool; 256],
}

impl PlaceSet {
    pub fn empty() -> PlaceSet
        ensures { member result ≡ (λ n. false) }
    {
        PlaceSet {
            members: [false; 256],
        }
    }

    // The set with one place more.
    pub fn with(mut self, place: u8) -> PlaceSet
        ensures { member result ≡ joined (member self) place }
    {
        self.members[place as usize] = true;
        self
    }

    pub fn has(&self, place: usize) -> bool
        ensures { result ≡ member self.now place }
    {
        self.members.get(place) == Some(&true)
    }
}
