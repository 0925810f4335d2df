ghost use Rattle.std.specs.Prelude.{◌≡◌, ◌<◌};

use crate::optional::NO_NUMBER;

// The number of a page that can be told in a byte beside "none", which is 255: it is 0 to 254.
#[derive(Clone, Copy, Debug, PartialEq, Eq)]
pub struct PageNumber {
    number: u8,
    ghost below_255: { number < 255 },
}

impl PageNumber {
    ghost use Rattle.calls.specs.PageNumbers.{page_number};

    // The page of this number; 255 is none. (An option, as of std's `NonZeroU8`, since 255 is no mistake but tells "none".)
    pub fn new(number: u8) -> Option<PageNumber>
        ensures { result ≡ page_number number }
    {
        if number < NO_NUMBER {
            Some(PageNumber { number })
        } else {
            None
        }
    }

    pub fn number(self) -> u8
        ensures { result ≡ self.number }
    {
        self.number
    }
}
