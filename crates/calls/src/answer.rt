ghost use Rattle.std.specs.Prelude.{◌≡◌};
ghost use Rattle.calls.specs.Answers.{source_number};

// Where the page of a fetch or a take up came from.
#[derive(Clone, Copy, Debug, PartialEq, Eq)]
pub enum Source {
    // the bench's own copy, filled from the entries
    OwnCopy = 0,
    // another bench's copy, which was complete
    CompleteCopy = 1,
    // another bench's copy, filled from the entries
    ReconstructedCopy = 2,
    // the disk's page with the entries laid over it
    Disk = 3,
}

impl From<Source> for u8 {
    ghost from_gives = { λ source number. number ≡ source_number source };

    fn from(source: Source) -> u8 {
        source as u8
    }
}

// What a granted call answers.
#[derive(Clone, Copy, Debug, PartialEq, Eq)]
pub enum Answer {
    Done,
    // what was read
    Value(u32),
    // the number of the commit
    Committed(u32),
    // a fetch or a take up, and the bench that supplied the page, if one did (two parts: with the
    // supplier inside the variants the source would need a match for its number again, and be no plainer)
    Obtained {
        source: Source,
        supplier: Option<u8>,
    },
    // the objects that were delivered, bit i for object i, and whether a transaction was aborted
    Delivered {
        objects: u8,
        aborted: bool,
    },
    // whether the server was cut
    PutDown {
        cut: bool,
    },
    // the number of entries in the cache
    Cut {
        entries: u8,
    },
}
