use device::numbered::number_pages;
use device::{DeviceFault, Disk, Page, PlaceSet, PlainDisk, SparedDisk};
use std::array;
use std::process::Abort;
use std::test::*;

// The page that holds 100 + o in its first `count` objects, and first + o in the others.
fn written(count: usize, first: u32) -> Page {
    Page::new(array::from_fn(|o| {
        let base = if o < count { 100 } else { first };
        base.wrapping_add(o as u32)
    }))
}

// Writes a page with each count. Page 1, which is another one, stays.
fn counts<D: Disk>(rt: &impl Abort, disk: &mut D, page: u8, first: u32) -> Result<(), Fail> {
    let new = Page::new([100, 101, 102, 103, 104, 105, 106, 107]);
    for count in [0, 1, 7, 8, 9, 255] {
        number_pages(disk);
        disk.write(page, &new, count)?;
        assert_eq!(rt; disk.read(page)?, written(count as usize, first));
        assert_eq!(rt; disk.read(1)?, written(0, 256));
    }
    Ok(())
}

// The page cannot be read or written.
fn is_bad<D: Disk>(rt: &impl Abort, disk: &mut D, page: u8) {
    let refused = DeviceFault::BadPage(page);
    assert_eq!(rt; disk.read(page), Err(refused));
    assert_eq!(rt; disk.write(page, &Page::new([1; 8]), 8), Err(refused));
}

// A bad page is refused by its number, and a refused write leaves page 0.
fn refuses<D: Disk>(rt: &impl Abort, disk: &mut D, page: u8) -> Result<(), Fail> {
    number_pages(disk);
    is_bad(rt, disk, page);
    assert_eq!(rt; disk.read(0)?.objects[7], 7);
    Ok(())
}

#[test]
fn plain_disk(rt: HostRuntime) -> Result<(), Fail> {
    let mut memory = [[0; 8]; 64];
    let mut disk = PlainDisk::new(&mut memory, PlaceSet::empty().with(5).with(255));
    counts(&rt, &mut disk, 63, 16128)?;
    refuses(&rt, &mut disk, 64)?;
    refuses(&rt, &mut disk, 255)?;
    refuses(&rt, &mut disk, 5)?;
    let mut few = [[0; 8]; 10];
    let mut small = PlainDisk::new(&mut few, PlaceSet::empty());
    counts(&rt, &mut small, 9, 2304)?;
    refuses(&rt, &mut small, 10)
}

#[test]
fn plain_disk_past_64_places(rt: HostRuntime) -> Result<(), Fail> {
    let mut memory = [[0; 8]; 65];
    let mut disk = PlainDisk::new(&mut memory, PlaceSet::empty());
    counts(&rt, &mut disk, 63, 16128)?;
    refuses(&rt, &mut disk, 64)
}

#[test]
fn spared_disk(rt: HostRuntime) -> Result<(), Fail> {
    let mut memory = [[0; 8]; 66];
    let mut disk = SparedDisk::new(&mut memory, PlaceSet::empty().with(0).with(2));
    counts(&rt, &mut disk, 63, 16128)?;
    refuses(&rt, &mut disk, 64)?;
    refuses(&rt, &mut disk, 255)?;
    number_pages(&mut disk);
    assert!(rt; memory[0][0] == 0 && memory[1][0] == 0 && memory[2][0] == 0);
    assert!(rt; memory[1][1] == 1 && memory[3][0] == 256 && memory[65][0] == 16128);
    Ok(())
}

#[test]
fn spared_place_past_64(rt: HostRuntime) -> Result<(), Fail> {
    let mut memory = [[0; 8]; 66];
    let mut disk = SparedDisk::new(&mut memory, PlaceSet::empty().with(0).with(64));
    counts(&rt, &mut disk, 63, 16128)?;
    number_pages(&mut disk);
    assert!(rt; memory[63][0] == 15872 && memory[64][0] == 0 && memory[65][0] == 16128);
    Ok(())
}

#[test]
fn spared_disk_short_of_places(rt: HostRuntime) -> Result<(), Fail> {
    let mut memory = [[0; 8]; 64];
    let mut disk = SparedDisk::new(&mut memory, PlaceSet::empty().with(1).with(63));
    counts(&rt, &mut disk, 61, 15616)?;
    refuses(&rt, &mut disk, 62)?;
    refuses(&rt, &mut disk, 63)
}

// No page is good, and numbering the pages changes nothing.
fn has_no_page<D: Disk>(rt: &impl Abort, disk: &mut D) {
    number_pages(disk);
    is_bad(rt, disk, 0);
}

#[test]
fn disks_without_a_place(rt: HostRuntime) {
    has_no_page(&rt, &mut PlainDisk::new(&mut [], PlaceSet::empty()));
    has_no_page(&rt, &mut SparedDisk::new(&mut [], PlaceSet::empty()));
    let mut memory = [[9; 8]; 2];
    has_no_page(
        &rt,
        &mut SparedDisk::new(&mut memory, PlaceSet::empty().with(0).with(1)),
    );
    assert!(rt; memory[0][0] == 9 && memory[1][7] == 9);
}
