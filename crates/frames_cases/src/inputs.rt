use crate::buffers::written_behind;
use frames::{Line, Lines, answer_all};
use std::alloc::Global;
use std::process::Abort;
use std::test::Fail;

fn answered(rt: &impl Abort, heap: Global, input: &[u8], output: &[u8]) -> Result<(), Fail> {
    written_behind(rt, heap, output, |out| answer_all(input, out))
}

#[test]
fn whole_inputs(rt: HostRuntime) -> Result<(), Fail> {
    let heap = rt.alloc();
    answered(&rt, heap, b"", b"")?;
    answered(&rt, heap, b"\n", b"0100ffff\n")?;
    answered(&rt, heap, b"\n\n", b"0100ffff\n0100ffff\n")?;
    answered(&rt, heap, b"00010108ff", b"00\n")?;
    answered(&rt, heap, b"0001010800\n0100\n0101", b"00\n..\n0300ffff\n")?;
    answered(
        &rt,
        heap,
        b"00020208ff\n0e0e\n00020208ff\n0109\n",
        b"00\n0100ffff\n0200ffff\n0300ffff\n",
    )
}

fn line(text: &[u8], number: usize) -> Line<'_> {
    Line { text, number }
}

#[test]
fn lines_have_numbers(rt: HostRuntime) -> Result<(), Fail> {
    let mut lines = Lines::new(b"ab\n\n\xffc");
    let first = lines.next().ok_or("no first line")?;
    assert!(rt; first == line(b"ab", 1));
    let second = lines.next().ok_or("no second line")?;
    assert!(rt; second == line(b"", 2));
    let third = lines.next().ok_or("no third line")?;
    assert!(rt; third == line(b"\xffc", 3));
    assert!(rt; lines.next().is_none() && lines.next().is_none());
    assert!(rt; Lines::new(b"a\n").count() == 1 && Lines::new(b"").count() == 0);
    Ok(())
}
