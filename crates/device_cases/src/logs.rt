use device::{CellLog, Change, DeviceFault, Entry, ListLog, Log, ObjectId, Record};
use std::array;
use std::process::Abort;
use std::test::*;

// Cases are told by numbers, one beside the other, so that each stands in a line.
pub fn change(page: u8, object: u8, value: u32) -> Change {
    Change {
        id: ObjectId { page, object },
        value,
    }
}

// The eight objects of a page, each with the value of its number.
pub fn whole_page(page: u8) -> [Change; 8] {
    array::from_fn(|o| change(page, o as u8, o as u32))
}

pub fn entry_of<L: Log>(log: &L, page: u8, object: u8) -> Option<Entry> {
    log.entry(ObjectId { page, object })
}

// Is the object's entry this one?
pub fn holds<L: Log>(log: &L, page: u8, object: u8, number: u32, value: u32) -> bool {
    entry_of(log, page, object) == Some(Entry { number, value })
}

// How many records the scan tells.
pub fn told_count<L: Log>(log: &L) -> usize {
    (0..log.place_count())
        .filter(|place| log.told(*place).is_some())
        .count()
}

// Is that the record?
fn is_record(told: Option<Record>, page: u8, object: u8, number: u32, value: u32) -> bool {
    let id = ObjectId { page, object };
    let entry = Entry { number, value };
    told == Some(Record { id, entry })
}

// Refused by this fault, and as it was before.
fn refused<L: Log>(
    rt: &impl Abort,
    log: &mut L,
    changes: &[Change],
    fault: DeviceFault,
) -> Result<(), Fail> {
    let last = log.last();
    let free = log.free();
    let records = told_count(log);
    let refused = log.append(changes) == Err(fault);
    assert!(rt; refused && log.last() == last && log.free() == free && told_count(log) == records);
    Ok(())
}

// Lists that no log takes, and the shortest and the longest that each takes.
fn lists<L: Log>(rt: &impl Abort, log: &mut L) -> Result<(), Fail> {
    let eight = whole_page(63);
    let mut nine = [change(62, 0, 1); 9];
    nine[..8].copy_from_slice(&eight);
    refused(rt, log, &[], DeviceFault::BadChanges)?;
    refused(rt, log, &nine, DeviceFault::BadChanges)?;
    refused(
        rt,
        log,
        &[change(1, 1, 1), change(2, 1, 1), change(1, 1, 2)],
        DeviceFault::BadChanges,
    )?;
    refused(rt, log, &[change(64, 0, 1)], DeviceFault::BadChanges)?;
    refused(rt, log, &[change(255, 0, 1)], DeviceFault::BadChanges)?;
    refused(rt, log, &[change(0, 8, 1)], DeviceFault::BadChanges)?;
    refused(rt, log, &[change(0, 255, 1)], DeviceFault::BadChanges)?;
    assert!(rt; log.append(&eight)? == 1);
    assert!(rt; log.append(&[change(0, 0, 9)])? == 2);
    assert!(rt; holds(log, 63, 7, 1, 7) && holds(log, 0, 0, 2, 9));
    assert!(rt;
        entry_of(log, 1, 1).is_none()
            && entry_of(log, 0, 8).is_none()
            && entry_of(log, 64, 0).is_none()
            && entry_of(log, 255, 255).is_none()
    );
    assert!(rt;
        log.place_count() == L::MOST
            && log.told(L::MOST).is_none()
            && log.told(usize::MAX).is_none()
    );
    Ok(())
}

// Forgetting nothing, a part, and everything.
fn forgetting<L: Log>(rt: &impl Abort, log: &mut L) -> Result<(), Fail> {
    let free = log.free();
    log.forget(64, 99);
    log.forget(255, 99);
    log.forget(2, 99);
    log.forget(63, 0);
    assert!(rt; log.free() == free && log.last() == 2);
    assert!(rt; holds(log, 63, 0, 1, 0) && holds(log, 0, 0, 2, 9));
    assert!(rt; log.append(&[change(63, 0, 50)])? == 3);
    log.forget(63, 2);
    assert!(rt;
        holds(log, 63, 0, 3, 50) && entry_of(log, 63, 1).is_none() && holds(log, 0, 0, 2, 9)
    );
    log.forget(63, 3);
    log.forget(0, 4_294_967_295);
    assert!(rt;
        entry_of(log, 63, 0).is_none()
            && entry_of(log, 0, 0).is_none()
            && log.last() == 3
            && log.free() >= 8
    );
    Ok(())
}

fn spent<L: Log>(rt: &impl Abort, log: &mut L) -> Result<(), Fail> {
    assert!(rt; log.append(&[change(1, 1, 1)])? == 4_294_967_295);
    refused(rt, log, &[change(1, 1, 2)], DeviceFault::NumbersSpent)?;
    refused(rt, log, &[], DeviceFault::BadChanges)?;
    assert!(rt; holds(log, 1, 1, 4_294_967_295, 1));
    log.forget(1, 4_294_967_294);
    assert!(rt; told_count(log) == 1);
    log.forget(1, 4_294_967_295);
    assert!(rt; told_count(log) == 0);
    Ok(())
}

#[test]
fn cell_log(rt: HostRuntime) -> Result<(), Fail> {
    let mut log = CellLog::new(0);
    lists(&rt, &mut log)?;
    assert!(rt;
        log.free() == 512
            && log.place_count() == 512
            && is_record(log.told(511), 63, 7, 1, 7)
            && told_count(&log) == 9
    );
    forgetting(&rt, &mut log)?;
    assert!(rt; log.free() == 512 && told_count(&log) == 0);
    spent(&rt, &mut CellLog::new(4_294_967_294))
}

#[test]
fn list_log(rt: HostRuntime) -> Result<(), Fail> {
    let mut records = [Record::default(); 64];
    let mut log = ListLog::new(&mut records, 0);
    lists(&rt, &mut log)?;
    assert!(rt;
        log.free() == 55
            && log.place_count() == 64
            && is_record(log.told(8), 0, 0, 2, 9)
            && told_count(&log) == 9
    );
    forgetting(&rt, &mut log)?;
    assert!(rt; log.free() == 64 && told_count(&log) == 0);
    let mut more = [Record::default(); 64];
    spent(&rt, &mut ListLog::new(&mut more, 4_294_967_294))
}
