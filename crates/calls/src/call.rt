ghost use Rattle.std.specs.Prelude.{◌≡◌};
ghost use Rattle.calls.specs.Calls.{named, place_of};

use crate::page_number::PageNumber;
use crate::refusal::Place;

// What a client can ask of the store.
#[derive(Clone, Copy, Debug, PartialEq, Eq)]
pub enum Call {
    // makes the store: so many pages and benches, at most so many entries in the modification cache, and one bad page or none
    Making {
        pages: u8,
        benches: u8,
        entries: u8,
        bad: Option<PageNumber>,
    },
    Begin {
        bench: u8,
    },
    Read {
        bench: u8,
        page: u8,
        object: u8,
    },
    Write {
        bench: u8,
        page: u8,
        object: u8,
        value: u32,
    },
    Commit {
        bench: u8,
    },
    Cancel {
        bench: u8,
    },
    Fetch {
        bench: u8,
        page: u8,
    },
    Evict {
        bench: u8,
        page: u8,
    },
    Drop {
        bench: u8,
        page: u8,
        object: u8,
    },
    Deliver {
        bench: u8,
        page: u8,
    },
    TakeUp {
        page: u8,
    },
    PutDown {
        cut_point: u8,
    },
    LetGo,
    Restart {
        bench: u8,
    },
    Cut,
}

impl Call {
    // The bench that is called.
    pub fn bench(self) -> Option<u8>
        ensures { result ≡ (named self).bench }
    {
        match self {
            Call::Begin { bench }
            | Call::Read { bench, .. }
            | Call::Write { bench, .. }
            | Call::Commit { bench }
            | Call::Cancel { bench }
            | Call::Fetch { bench, .. }
            | Call::Evict { bench, .. }
            | Call::Drop { bench, .. }
            | Call::Deliver { bench, .. }
            | Call::Restart { bench } => Some(bench),
            _ => None,
        }
    }

    // The page that the call names.
    pub fn page(self) -> Option<u8>
        ensures { result ≡ (named self).page }
    {
        match self {
            Call::Read { page, .. }
            | Call::Write { page, .. }
            | Call::Fetch { page, .. }
            | Call::Evict { page, .. }
            | Call::Drop { page, .. }
            | Call::Deliver { page, .. }
            | Call::TakeUp { page } => Some(page),
            _ => None,
        }
    }

    // The object that the call names.
    pub fn object(self) -> Option<u8>
        ensures { result ≡ (named self).object }
    {
        match self {
            Call::Read { object, .. } | Call::Write { object, .. } | Call::Drop { object, .. } => {
                Some(object)
            }
            _ => None,
        }
    }

    // The cut point that the call names.
    pub fn cut_point(self) -> Option<u8>
        ensures { result ≡ (named self).cut_point }
    {
        match self {
            Call::PutDown { cut_point } => Some(cut_point),
            _ => None,
        }
    }

    // Where a refusal of this call points.
    pub fn place(self) -> Place
        ensures { result ≡ place_of self }
    {
        Place {
            page: self.page(),
            object: self.object(),
        }
    }
}
