ghost use Rattle.std.specs.Prelude.{◌≡◌};
ghost use Rattle.codec.specs.Raw.{byte_of, word_of, raw_call};

use crate::raw::{RawFrame, Run};
use calls::{Call, PageNumber};
use text::byte_value;

// Two functions, since one for any number of bytes is no plainer: it takes a loop, and a bound on twice that number.
// Always inlined, with `byte_value`: LLVM takes what stands behind several `?` for cold, and a call there cost a write a
// fifth more time.
impl Run<'_> {
    // The byte of two digits.
    #[inline(always)]
    fn byte(self) -> Option<u8>
        ensures { result ≡ byte_of self.entry }
    {
        match self.digits {
            [high, low] => byte_value(*high, *low),
            _ => None,
        }
    }

    // The number of eight digits.
    #[inline(always)]
    fn word(self) -> Option<u32>
        ensures { result ≡ word_of self.entry }
    {
        let [a, b, c, d, e, f, g, h] = self.digits else {
            return None;
        };
        let bytes = [
            byte_value(*a, *b)?,
            byte_value(*c, *d)?,
            byte_value(*e, *f)?,
            byte_value(*g, *h)?,
        ];
        Some(u32::from_be_bytes(bytes))
    }
}

impl RawFrame<'_> {
    // The call of the fields, unless one of them is not made of digits. (One table, an arm for each call.)
    pub fn call(self) -> Option<Call>
        ensures { result ≡ raw_call self.entry }
    {
        Some(match self {
            RawFrame::Making(pages, benches, entries, bad) => Call::Making {
                pages: pages.byte()?,
                benches: benches.byte()?,
                entries: entries.byte()?,
                bad: PageNumber::new(bad.byte()?),
            },
            RawFrame::Begin(bench) => Call::Begin {
                bench: bench.byte()?,
            },
            RawFrame::Read(bench, page, object) => Call::Read {
                bench: bench.byte()?,
                page: page.byte()?,
                object: object.byte()?,
            },
            RawFrame::Write(bench, page, object, value) => Call::Write {
                bench: bench.byte()?,
                page: page.byte()?,
                object: object.byte()?,
                value: value.word()?,
            },
            RawFrame::Commit(bench) => Call::Commit {
                bench: bench.byte()?,
            },
            RawFrame::Cancel(bench) => Call::Cancel {
                bench: bench.byte()?,
            },
            RawFrame::Fetch(bench, page) => Call::Fetch {
                bench: bench.byte()?,
                page: page.byte()?,
            },
            RawFrame::Evict(bench, page) => Call::Evict {
                bench: bench.byte()?,
                page: page.byte()?,
            },
            RawFrame::Drop(bench, page, object) => Call::Drop {
                bench: bench.byte()?,
                page: page.byte()?,
                object: object.byte()?,
            },
            RawFrame::Deliver(bench, page) => Call::Deliver {
                bench: bench.byte()?,
                page: page.byte()?,
            },
            RawFrame::TakeUp(page) => Call::TakeUp { page: page.byte()? },
            RawFrame::PutDown(cut_point) => Call::PutDown {
                cut_point: cut_point.byte()?,
            },
            RawFrame::LetGo => Call::LetGo,
            RawFrame::Restart(bench) => Call::Restart {
                bench: bench.byte()?,
            },
            RawFrame::Cut => Call::Cut,
        })
    }
}
