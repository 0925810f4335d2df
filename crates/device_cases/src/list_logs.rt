ghost use Rattle.std.specs.Prelude.{◌≡◌, length, IfOk};

use crate::logs::{change, entry_of, holds, told_count, whole_page};
use device::{DeviceFault, ListLog, ListLogWork, Log, Record, lend_list_log, with_list_log};
use std::process::Abort;
use std::test::*;

// Fills an empty log of eight records, whose last number is 7.
fn fill<L: Log>(rt: &impl Abort, log: &mut L) -> Result<(), Fail> {
    assert!(rt; log.free() == 8 && log.last() == 7);
    assert!(rt; log.append(&[change(1, 0, 10), change(2, 0, 20), change(1, 1, 11)])? == 8);
    assert!(rt; log.append(&[change(2, 0, 21)])? == 9);
    assert!(rt;
        log.append(&[change(3, 0, 30), change(1, 0, 12), change(2, 7, 22)])? == 10
            && log.free() == 1
    );
    assert!(rt; log.append(&[change(4, 0, 1), change(4, 1, 1)]) == Err(DeviceFault::LogFull));
    assert!(rt; log.append(&[change(4, 0, 1)])? == 11 && log.free() == 0);
    assert!(rt; log.append(&[change(4, 0, 2)]) == Err(DeviceFault::LogFull));
    Ok(())
}

// Has it drop two records of page 2 in its middle, which one object had, and goes on.
fn compact<L: Log>(rt: &impl Abort, log: &mut L) -> Result<(), Fail> {
    log.forget(2, 9);
    assert!(rt;
        log.free() == 2
            && told_count(log) == 6
            && entry_of(log, 2, 0).is_none()
            && holds(log, 2, 7, 10, 22)
    );
    assert!(rt; holds(log, 1, 0, 10, 12) && holds(log, 1, 1, 8, 11) && holds(log, 3, 0, 10, 30));
    assert!(rt; log.append(&[change(1, 0, 13), change(9, 0, 90)])? == 12);
    assert!(rt; holds(log, 1, 0, 12, 13) && holds(log, 9, 0, 12, 90) && log.free() == 0);
    Ok(())
}

// Fills a log of eight records, and has it drop some.
fn eight<L: Log>(rt: &impl Abort, log: &mut L) -> Result<(), Fail> {
    fill(rt, log)?;
    compact(rt, log)
}

// Fills a log of 64 records with eight pages.
fn full<L: Log>(rt: &impl Abort, log: &mut L) -> Result<(), Fail> {
    for page in 0..8u8 {
        assert!(rt; log.append(&whole_page(page)).is_ok());
    }
    assert!(rt; log.free() == 0 && told_count(log) == 64);
    assert!(rt; log.append(&[change(0, 0, 1)]) == Err(DeviceFault::LogFull));
    log.forget(3, 4);
    assert!(rt; log.free() == 8 && holds(log, 7, 7, 8, 7) && entry_of(log, 3, 0).is_none());
    Ok(())
}

// Fills a log of eight records with the last number that there is: then it is spent, and full too.
fn spent_and_full<L: Log>(rt: &impl Abort, log: &mut L) -> Result<(), Fail> {
    assert!(rt; log.append(&whole_page(5))? == 4_294_967_295 && log.free() == 0);
    assert!(rt; log.append(&[change(5, 0, 1)]) == Err(DeviceFault::NumbersSpent));
    assert!(rt; holds(log, 5, 0, 4_294_967_295, 0) && told_count(log) == 8);
    Ok(())
}

#[derive(Clone, Copy)]
enum Task {
    Eight,
    Full,
    SpentAndFull,
}

// One of the above as work that is handed over.
#[derive(Drop)]
struct Work<'a, A> {
    rt: &'a A,
    task: Task,
}

impl<A: Abort> ListLogWork for Work<'_, A> {
    type Answer = Result<(), Fail>;

    ghost allows = { λ _ _ _. Unit {0} };

    fn run(self, log: &mut ListLog<'_>) -> Result<(), Fail> {
        match self.task {
            Task::Eight => eight(self.rt, log),
            Task::Full => full(self.rt, log),
            Task::SpentAndFull => spent_and_full(self.rt, log),
        }
    }
}

// (By a match: a `Fail` is not let go of, so that `err` is not for it.)
fn is_refused(rt: &impl Abort, answer: Result<Result<(), Fail>, DeviceFault>) -> Result<(), Fail> {
    match answer {
        Ok(done) => {
            done?;
            Err(Fail::new("memory of this size is refused"))
        }
        Err(fault) => {
            assert!(rt; fault == DeviceFault::BadRecordCount);
            Ok(())
        },
    }
}

// Tells what is free.
#[derive(Drop)]
struct TellFree;

impl ListLogWork for TellFree {
    type Answer = usize;

    ghost allows = { λ _ log free. free ≡ log.free };

    fn run(self, log: &mut ListLog<'_>) -> usize {
        log.free()
    }
}

// What is free in a new log over this memory, told by work on it. What `with_list_log` promises is enough to know it.
fn free_when_new(records: &mut [Record]) -> Result<usize, DeviceFault>
    ensures { IfOk result (λ free. free ≡ length records.old) }
{
    with_list_log(records, 0, TellFree)
}

// The same, by a closure.
fn free_when_lent(records: &mut [Record]) -> Result<usize, DeviceFault>
    ensures { IfOk result (λ free. free ≡ length records.old) }
{
    lend_list_log(records, 0, |log| log.free())
}

#[test]
fn memory_of_8_and_64_records_serves(rt: HostRuntime) -> Result<(), Fail> {
    let work = |task| Work { rt: &rt, task };
    with_list_log(&mut [Record::default(); 8], 7, work(Task::Eight))??;
    with_list_log(
        &mut [Record::default(); 8],
        4_294_967_294,
        work(Task::SpentAndFull),
    )??;
    with_list_log(&mut [Record::default(); 64], 0, work(Task::Full))??;
    lend_list_log(&mut [Record::default(); 8], 7, |log| eight(&rt, log))??;
    let mut records = [Record::default(); 8];
    let mut log = ListLog::over(&mut records, 7)?;
    eight(&rt, &mut log)?;
    assert!(rt; free_when_new(&mut [Record::default(); 9])? == 9);
    assert!(rt; free_when_lent(&mut [Record::default(); 9])? == 9);
    Ok(())
}

#[test]
fn memory_of_7_or_65_records_is_refused(rt: HostRuntime) -> Result<(), Fail> {
    let work = |task| Work { rt: &rt, task };
    is_refused(
        &rt,
        with_list_log(&mut [Record::default(); 7], 7, work(Task::Eight)),
    )?;
    is_refused(
        &rt,
        with_list_log(&mut [Record::default(); 65], 0, work(Task::Full)),
    )?;
    is_refused(&rt, with_list_log(&mut [], 0, work(Task::Full)))?;
    is_refused(
        &rt,
        lend_list_log(&mut [Record::default(); 7], 7, |log| eight(&rt, log)),
    )?;
    assert!(rt;
        ListLog::over(&mut [Record::default(); 65], 0).err() == Some(DeviceFault::BadRecordCount)
    );
    Ok(())
}
