use crate::logs::{change, entry_of, holds, told_count};
use device::install::{current_page, install};
use device::numbered::number_pages;
use device::{CellLog, DeviceFault, Disk, Log, PlaceSet, PlainDisk};
use std::process::Abort;
use std::test::*;

// A bad page is refused, and its entry and the other page stay.
fn bad_page<D: Disk, L: Log>(rt: &impl Abort, disk: &mut D, log: &mut L) -> Result<(), Fail> {
    assert_eq!(rt; current_page(disk, log, 5), Err(DeviceFault::BadPage(5)));
    assert_eq!(rt; install(disk, log, 5, 9), Err(DeviceFault::BadPage(5)));
    assert!(rt;
        holds(log, 5, 0, 1, 50) && told_count(log) == 3 && disk.read(6)?.objects[0] == 1536
    );
    Ok(())
}

// Up to commit 1: the page is written with the entry of commit 2 too, which stays in the log.
fn up_to_the_first<D: Disk, L: Log>(
    rt: &impl Abort,
    disk: &mut D,
    log: &mut L,
) -> Result<(), Fail> {
    let page = install(disk, log, 6, 1)?;
    assert!(rt; page.objects[0] == 61 && page.objects[1] == 62 && page.objects[7] == 1543);
    let written = disk.read(6)?;
    assert!(rt; written.objects[0] == 61 && written.objects[1] == 62 && written.objects[7] == 1543);
    assert!(rt;
        entry_of(log, 6, 0).is_none() && holds(log, 6, 1, 2, 62) && holds(log, 5, 0, 1, 50)
    );
    assert!(rt; current_page(disk, log, 6)?.objects[1] == 62 && log.last() == 2);
    Ok(())
}

#[test]
fn installing(rt: HostRuntime) -> Result<(), Fail> {
    let mut memory = [[0; 8]; 64];
    let mut disk = PlainDisk::new(&mut memory, PlaceSet::empty().with(5));
    number_pages(&mut disk);
    let mut log = CellLog::new(0);
    assert!(rt; log.append(&[change(5, 0, 50), change(6, 0, 61)])? == 1);
    assert!(rt; log.append(&[change(6, 1, 62)])? == 2);
    bad_page(&rt, &mut disk, &mut log)?;
    up_to_the_first(&rt, &mut disk, &mut log)
}
