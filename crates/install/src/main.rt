// One page is installed from the log, and each step is printed: once over a plain disk with a list log, once over
// a spared disk with a cell log.
#![tactic(auto)]

use device::install::{current_page, install};
use device::numbered::number_pages;
use device::{
    CellLog, Change, DeviceFault, Disk, ListLog, Log, ObjectId, Page, PlaceSet, PlainDisk, Record,
    SparedDisk,
};
use std::io;
use thiserror::Error;

// Why the program stops early. (An enum, and no `anyhow::Error`, so that what it prints then says which of the two it was.)
#[derive(Debug, Drop, Error)]
enum Failure {
    #[error(transparent)]
    Device(#[from] DeviceFault),
    #[error(transparent)]
    Output(#[from] io::Error),
}

// The page that is installed.
const PAGE: u8 = 1;

// A page that is not, and whose entry stays in the log.
const OTHER: u8 = 3;

// A commit of two objects of that page, and of one of another page.
const CHANGES: [Change; 3] = [
    Change {
        id: ObjectId {
            page: PAGE,
            object: 2,
        },
        value: 2748,
    },
    Change {
        id: ObjectId {
            page: PAGE,
            object: 7,
        },
        value: 5,
    },
    Change {
        id: ObjectId {
            page: OTHER,
            object: 0,
        },
        value: 99,
    },
];

// A page's objects in a line, behind where they come from. (Not by `Display`: an impl for pages and one for
// changes, with what each promises of its text, would be longer than these lines, and serve them alone.)
fn show(rt: &impl Print, number: u8, origin: &str, page: Page) -> io::Result<()> {
    let [a, b, c, d, e, f, g, h] = page.objects;
    println!(rt; "page {number} {origin}: {a} {b} {c} {d} {e} {f} {g} {h}")
}

fn tell_commit(rt: &impl Print, number: u32) -> io::Result<()> {
    for change in &CHANGES {
        let ObjectId { page, object } = change.id;
        let value = change.value;
        println!(rt; "commit {number} sets object {object} of page {page} to {value}")?;
    }
    Ok(())
}

// A page from the disk alone, and from disk and log together.
fn compare<D: Disk, L: Log>(rt: &impl Print, disk: &D, log: &L, page: u8) -> Result<(), Failure> {
    show(rt, page, "from disk alone", disk.read(page)?)?;
    show(
        rt,
        page,
        "from disk and log together",
        current_page(disk, log, page)?,
    )?;
    Ok(())
}

// The installing step, with the page and the log's free count before and after it.
fn install_and_tell<D: Disk, L: Log>(
    rt: &impl Print,
    disk: &mut D,
    log: &mut L,
    upto: u32,
) -> Result<(), Failure> {
    compare(rt, disk, log, PAGE)?;
    let before = log.free();
    println!(rt; "the log has {before} free")?;
    let _ = install(disk, log, PAGE, upto)?;
    println!(rt;
        "page {PAGE} is installed: written to disk, its entries up to commit {upto} forgotten"
    )?;
    compare(rt, disk, log, PAGE)?;
    let after = log.free();
    println!(rt; "the log has {after} free")?;
    Ok(())
}

// The steps, over any disk and any log.
fn walk<D: Disk, L: Log>(rt: &impl Print, disk: &mut D, log: &mut L) -> Result<(), Failure> {
    number_pages(disk);
    let free = log.free();
    println!(rt; "the log is empty and has {free} free")?;
    let number = log.append(&CHANGES)?;
    tell_commit(rt, number)?;
    install_and_tell(rt, disk, log, number)?;
    compare(rt, disk, log, OTHER)
}

fn run(rt: &impl Print) -> Result<(), Failure> {
    println!(rt; "plain disk, list log")?;
    let mut memory = [[0u32; 8]; 64];
    let mut records = [Record::default(); 64];
    let mut disk = PlainDisk::new(&mut memory, PlaceSet::empty());
    let mut log = ListLog::new(&mut records, 0);
    walk(rt, &mut disk, &mut log)?;
    println!(rt; "spared disk, cell log")?;
    let mut memory = [[0u32; 8]; 66];
    let mut disk = SparedDisk::new(&mut memory, PlaceSet::empty().with(0).with(2));
    let mut log = CellLog::new(0);
    walk(rt, &mut disk, &mut log)
}

fn main(rt: HostRuntime) -> Result<(), Failure> {
    run(&rt)
}
