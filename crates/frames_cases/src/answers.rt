use crate::buffers::written_behind;
use calls::{Answer, Source};
use frames::write_outcome;
use std::alloc::Global;
use std::process::Abort;
use std::test::Fail;
use store::Denial;

// The outcome is written so, behind what was written before.
pub fn told(
    rt: &impl Abort,
    heap: Global,
    outcome: Result<Answer, Denial>,
    text: &[u8],
) -> Result<(), Fail> {
    written_behind(rt, heap, text, |out| write_outcome(outcome, out))
}

fn granted(rt: &impl Abort, heap: Global, answer: Answer, text: &[u8]) -> Result<(), Fail> {
    told(rt, heap, Ok(answer), text)
}

fn obtained(source: Source, supplier: Option<u8>) -> Answer {
    Answer::Obtained { source, supplier }
}

#[test]
fn each_answer(rt: HostRuntime) -> Result<(), Fail> {
    let heap = rt.alloc();
    granted(&rt, heap, Answer::Done, b"00")?;
    granted(&rt, heap, Answer::Value(0x1234_abcd), b"001234abcd")?;
    granted(&rt, heap, Answer::Committed(1), b"0000000001")?;
    granted(&rt, heap, Answer::Committed(u32::MAX), b"00ffffffff")?;
    granted(&rt, heap, Answer::Cut { entries: 64 }, b"0040")?;
    granted(&rt, heap, Answer::PutDown { cut: true }, b"0001")?;
    granted(&rt, heap, Answer::PutDown { cut: false }, b"0000")?;
    told(&rt, heap, Err(Denial::NotBuilt), b"..")
}

#[test]
fn pages_and_deliveries(rt: HostRuntime) -> Result<(), Fail> {
    let heap = rt.alloc();
    granted(&rt, heap, obtained(Source::OwnCopy, None), b"0000ff")?;
    granted(
        &rt,
        heap,
        obtained(Source::CompleteCopy, Some(0)),
        b"000100",
    )?;
    granted(
        &rt,
        heap,
        obtained(Source::ReconstructedCopy, Some(7)),
        b"000207",
    )?;
    granted(&rt, heap, obtained(Source::Disk, None), b"0003ff")?;
    let aborted = true;
    granted(
        &rt,
        heap,
        Answer::Delivered {
            objects: 0x84,
            aborted,
        },
        b"008401",
    )?;
    let aborted = false;
    granted(
        &rt,
        heap,
        Answer::Delivered {
            objects: 0,
            aborted,
        },
        b"000000",
    )
}
