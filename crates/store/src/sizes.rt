ghost use Rattle.std.specs.Prelude.{◌≡◌, if◌then◌else◌, None, Some};
ghost use Rattle.std.specs.Result.{result_err};
ghost use Rattle.store.specs.Sizes.{is_store_page, made_sizes, not_below, out_of_range};

use calls::{Call, PageNumber, Reason};

// The sizes of a store: its pages, its benches, and the most entries of its modification cache.
#[derive(Clone, Copy, Debug, PartialEq, Eq)]
pub struct Sizes {
    pub pages: u8,
    pub benches: u8,
    pub entries: u8,
}

// Is there no page, or one of a store of this many pages?
fn is_store_page(page: Option<PageNumber>, pages: u8) -> bool
    ensures { result ≡ is_store_page page pages }
{
    page.is_none_or(|p| p.number() < pages)
}

// Refuses a number that is named and not below its limit.
fn ensure_below(number: Option<u8>, limit: u8, reason: Reason) -> Result<(), Reason>
    ensures { result_err result ≡ (if not_below number limit then Some reason else None) }
{
    if number.is_some_and(|n| n >= limit) {
        Err(reason)
    } else {
        Ok(())
    }
}

impl Sizes {
    // The sizes that a making asks for, unless they are out of limits or its bad page is none of the store's.
    pub fn of_making(pages: u8, benches: u8, entries: u8, bad: Option<PageNumber>) -> Option<Sizes>
        ensures { result ≡ made_sizes pages benches entries bad }
    {
        let fits = (1..=64).contains(&pages)
            && (1..=8).contains(&benches)
            && (8..=64).contains(&entries)
            && is_store_page(bad, pages);
        fits.then_some(Sizes {
            pages,
            benches,
            entries,
        })
    }

    // Refuses a call that is no making if an argument is out of range, for the first that is.
    pub fn ensure_in_range(self, call: Call) -> Result<(), Reason>
        ensures { result_err result ≡ out_of_range self call }
    {
        ensure_below(call.bench(), self.benches, Reason::NoSuchBench)?;
        ensure_below(call.page(), self.pages, Reason::NoSuchPage)?;
        ensure_below(call.object(), 8, Reason::NoSuchObject)?;
        ensure_below(call.cut_point(), 10, Reason::NoSuchObject)
    }
}
