use crate::buffers::written_behind;
use calls::{Call, PageNumber};
use frames::{RawFrame, Run, read_call, write_frame};
use std::alloc::Global;
use std::process::Abort;
use std::test::Fail;

// The call is written as this frame, behind what was written before, and the frame is read as a call that is written so.
fn written(rt: &impl Abort, heap: Global, call: Call, frame: &[u8]) -> Result<(), Fail> {
    written_behind(rt, heap, frame, |out| write_frame(call, out))?;
    let again = read_call(frame).ok_or("not read")?;
    assert!(rt; again == call);
    let mut twice = Vec::new(heap);
    write_frame(again, &mut twice)?;
    assert!(rt; twice.as_slice() == frame);
    Ok(())
}

fn making(pages: u8, benches: u8, entries: u8, bad: u8) -> Call {
    Call::Making {
        pages,
        benches,
        entries,
        bad: PageNumber::new(bad),
    }
}

#[test]
fn a_making_with_and_without_a_bad_page(rt: HostRuntime) -> Result<(), Fail> {
    let heap = rt.alloc();
    written(&rt, heap, making(2, 3, 8, 255), b"00020308ff")?;
    written(&rt, heap, making(0, 255, 64, 0), b"0000ff4000")?;
    written(&rt, heap, making(1, 1, 8, 254), b"00010108fe")?;
    assert!(rt; PageNumber::new(255).is_none() && PageNumber::new(254).is_some());
    Ok(())
}

#[test]
fn calls_of_a_transaction(rt: HostRuntime) -> Result<(), Fail> {
    let heap = rt.alloc();
    let bench = 1;
    let page = 63;
    let object = 7;
    written(&rt, heap, Call::Begin { bench }, b"0101")?;
    written(
        &rt,
        heap,
        Call::Read {
            bench,
            page,
            object,
        },
        b"02013f07",
    )?;
    let value = 0x0123_abcd;
    written(
        &rt,
        heap,
        Call::Write {
            bench,
            page,
            object,
            value,
        },
        b"03013f070123abcd",
    )?;
    written(
        &rt,
        heap,
        Call::Drop {
            bench,
            page,
            object,
        },
        b"08013f07",
    )?;
    written(&rt, heap, Call::Commit { bench }, b"0401")?;
    written(&rt, heap, Call::Cancel { bench }, b"0501")
}

#[test]
fn calls_of_pages_and_of_the_server(rt: HostRuntime) -> Result<(), Fail> {
    let heap = rt.alloc();
    let bench = 255;
    let page = 160;
    written(&rt, heap, Call::Fetch { bench, page }, b"06ffa0")?;
    written(&rt, heap, Call::Evict { bench, page }, b"07ffa0")?;
    written(&rt, heap, Call::Deliver { bench, page }, b"09ffa0")?;
    written(&rt, heap, Call::TakeUp { page }, b"0aa0")?;
    written(&rt, heap, Call::PutDown { cut_point: 9 }, b"0b09")?;
    written(&rt, heap, Call::LetGo, b"0c")?;
    written(&rt, heap, Call::Restart { bench }, b"0dff")?;
    written(&rt, heap, Call::Cut, b"0e")
}

fn run(digits: &[u8], place: usize) -> Run<'_> {
    Run { digits, place }
}

// The fields of a write are parts of its line, digits or not, and know their places.
#[test]
fn fields_are_parts_of_the_line(rt: HostRuntime) -> Result<(), Fail> {
    let line = b"03xy3f07 123ABCD";
    let raw = RawFrame::cut(line).ok_or("not cut")?;
    assert!(rt; raw.call().is_none());
    let RawFrame::Write(bench, page, object, value) = raw else {
        return Err(Fail::new("no write"));
    };
    assert!(rt; bench == run(b"xy", 2) && page == run(b"3f", 4) && object == run(b"07", 6));
    assert!(rt; value == run(b" 123ABCD", 8));
    Ok(())
}

#[test]
fn lines_that_are_not_cut(rt: HostRuntime) {
    assert!(rt; RawFrame::cut(b"").is_none() && RawFrame::cut(b"0").is_none());
    assert!(rt; RawFrame::cut(b"0f").is_none() && RawFrame::cut(b"0E").is_none());
    assert!(rt; RawFrame::cut(b"0e0").is_none() && RawFrame::cut(b"0e00").is_none());
    assert!(rt; RawFrame::cut(b"01").is_none() && RawFrame::cut(b"010").is_none());
    assert!(rt; RawFrame::cut(b"01000").is_none() && RawFrame::cut(b"01zz").is_some());
}
