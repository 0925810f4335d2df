ghost use Rattle.std.specs.Prelude.{◌≡◌, ◌≤◌, true, false, length};
ghost use Rattle.device.specs.Logs.{LogState, empty_log};
ghost use Rattle.device.specs.Lists.{list_state};
ghost use Rattle.device.specs.Lends.{Lent, Begins, DoneOn, fits};

use crate::fault::DeviceFault;
use crate::list::ListLog;
use crate::record::Record;

// May a list log have this many records?
fn fits(count: usize) -> bool
    ensures { result ≡ fits count }
{
    (8..=64).contains(&count)
}

impl<'a> ListLog<'a> {
    // An empty log over this many records.
    pub(crate) fn empty(records: &'a mut [Record], last: u32) -> ListLog<'a>
        requires { fits (length records.old) ≡ true }
        ensures { list_state result ≡ empty_log last (length records.old) }
    {
        ListLog {
            records,
            used: 0,
            last,
        }
    }

    // An empty log over these records, which must be 8 to 64, with this last number.
    pub fn over(records: &'a mut [Record], last: u32) -> Result<ListLog<'a>, DeviceFault>
        ensures { Lent Begins last (length records.old) result }
    {
        if fits(records.len()) {
            Ok(ListLog::empty(records, last))
        } else {
            Err(DeviceFault::BadRecordCount)
        }
    }
}

// Work that is done on a list log which is lent to it.
pub trait ListLogWork {
    type Answer;

    // what it may answer on a log that begins so
    ghost allows: { Self → LogState → Self.Answer → Type 0 };

    fn run(self, log: &mut ListLog<'_>) -> Self::Answer
        ensures { allows self (list_state log.old) result };
}

// Does the work on an empty list log over these records, which must be 8 to 64. `ListLog::over` lends the log itself; only here,
// and in `lend_list_log`, is it promised that refused memory stays as it was, which a clause cannot say of memory that the
// answer may hold. (A trait, since the call of a closure has to be asked for by a `requires`, and this has none; what the trait
// says is proved where the work is declared.)
pub fn with_list_log<W: ListLogWork + Drop>(
    records: &mut [Record],
    last: u32,
    work: W,
) -> Result<W::Answer, DeviceFault>
    ensures answer { Lent (W.ListLogWork.allows work) last (length records.old) result }
    ensures refusal_keeps_memory { fits (length records.old) ≡ false → records.new ≡ records.old }
{
    lend_list_log(records, last, |log| work.run(log))
}

// The same with a closure for the work, which must be one that can be called on every list log.
pub fn lend_list_log<R, F: FnOnce(&mut ListLog<'_>) -> R + Drop>(
    records: &mut [Record],
    last: u32,
    work: F,
) -> Result<R, DeviceFault>
    requires { F.IsAlwaysCallable work }
    ensures answer { Lent (DoneOn F.FnOnce work) last (length records.old) result }
    ensures refusal_keeps_memory { fits (length records.old) ≡ false → records.new ≡ records.old }
{
    if !fits(records.len()) {
        return Err(DeviceFault::BadRecordCount);
    }
    let mut log = ListLog::empty(records, last);
    Ok(work(&mut log))
}
