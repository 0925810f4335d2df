ghost use Rattle.std.specs.Prelude.{◌≡◌, Some};
ghost use Rattle.calls.specs.Calls.{place_of};
ghost use Rattle.calls.specs.Refusals.{refusal};
ghost use Rattle.store.specs.Sessions.{made_by, outcome_in, fresh, outcome, after};

use crate::denial::Denial;
use crate::sizes::Sizes;
use calls::{Answer, Call, Reason, Refusal};

// What is kept from one call to the next: the store's sizes, once a making was granted.
#[derive(Clone, Copy)]
pub struct Session {
    made: Option<Sizes>,
}

// The refusal of a call for a reason.
fn refused(reason: Reason, call: Call) -> Refusal
    ensures { result ≡ refusal reason (place_of call) }
{
    Refusal::new(reason, call.place())
}

// The sizes of the store that a call makes.
fn made_by(call: Call) -> Option<Sizes>
    ensures { result ≡ made_by call }
{
    match call {
        Call::Making {
            pages,
            benches,
            entries,
            bad,
        } => Sizes::of_making(pages, benches, entries, bad),
        _ => None,
    }
}

// A call to a store of these sizes.
fn in_store(sizes: Sizes, call: Call) -> Result<Answer, Denial>
    ensures { result ≡ outcome_in (Some sizes) call }
{
    if matches!(call, Call::Making { .. }) {
        return Err(refused(Reason::Making, call).into());
    }
    // By `if let`, since with `map_err` and `?` the proof did not close.
    if let Err(reason) = sizes.ensure_in_range(call) {
        return Err(refused(reason, call).into());
    }
    Err(Denial::NotBuilt)
}

impl Session {
    // Before any making.
    pub fn new() -> Session
        ensures { result ≡ fresh }
    {
        Session { made: None }
    }

    // Answers a call.
    pub fn call(&mut self, call: Call) -> Result<Answer, Denial>
        ensures answer { result ≡ outcome self.old call }
        ensures after { self.new ≡ after self.old call }
    {
        if let Some(sizes) = self.made {
            return in_store(sizes, call);
        }
        // A `Denial` at once: with `ok_or_else(..)?` a refused call took 8 % more instructions.
        let Some(sizes) = made_by(call) else {
            return Err(Denial::Refused(refused(Reason::Making, call)));
        };
        self.made = Some(sizes);
        Ok(Answer::Done)
    }
}
