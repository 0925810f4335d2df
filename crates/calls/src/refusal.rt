ghost use Rattle.std.specs.Prelude.{◌≡◌};
ghost use Rattle.calls.specs.Refusals.{nowhere, at, refusal, refusal_bytes, layer_number};

use crate::optional::byte_or_255;
use crate::reason::Reason;

// The part of the store that refuses.
#[derive(Clone, Copy, Debug, PartialEq, Eq)]
pub enum Layer {
    // the store's door: frames, the making and the ranges of arguments
    Door = 0,
    Bench = 1,
    Server = 2,
    Log = 3,
    Disk = 4,
}

impl From<Layer> for u8 {
    ghost from_gives = { λ layer number. number ≡ layer_number layer };

    fn from(layer: Layer) -> u8 {
        layer as u8
    }
}

// The page and the object that a refusal points at. (Not one id, as disks and logs have: here each can be missing. Calls and
// `Reason::InvalidUse` have the two as the frames do, byte by byte, and this crate stands on no other; an id of its own would be
// made only to be taken apart.)
#[derive(Clone, Copy, Debug, PartialEq, Eq)]
pub struct Place {
    pub page: Option<u8>,
    pub object: Option<u8>,
}

impl Place {
    // Where no call names a page or an object.
    pub fn nowhere() -> Place
        ensures { result ≡ nowhere }
    {
        Place {
            page: None,
            object: None,
        }
    }

    // An object of a page.
    pub fn at(page: u8, object: u8) -> Place
        ensures { result ≡ at page object }
    {
        Place {
            page: Some(page),
            object: Some(object),
        }
    }
}

// A refusal as the protocol tells it. Only `new` makes one, so that the place is the one that goes with the reason.
#[derive(Clone, Copy, Debug, PartialEq, Eq)]
pub struct Refusal {
    reason: Reason,
    place: Place,
}

impl Refusal {
    // A call that names `asked` is refused for this reason.
    pub fn new(reason: Reason, asked: Place) -> Refusal
        ensures { result ≡ refusal reason asked }
    {
        let place = match reason {
            Reason::InvalidUse { page, object } => Place::at(page, object),
            _ => asked,
        };
        Refusal { reason, place }
    }

    // The number, the layer, the page and the object. (A method, as std's `to_be_bytes`; a `From`
    // for an array would be as long, and say less.)
    pub fn to_bytes(self) -> [u8; 4]
        ensures { result ≡ refusal_bytes self }
    {
        [
            self.reason.number(),
            u8::from(self.reason.layer()),
            byte_or_255(self.place.page),
            byte_or_255(self.place.object),
        ]
    }
}
