use std::alloc::{AllocError, Global};
use std::process::Abort;
use std::test::Fail;

// This text is written, behind what was written before.
pub fn written_behind<F: FnOnce(&mut Vec<u8>) -> Result<(), AllocError>>(
    rt: &impl Abort,
    heap: Global,
    text: &[u8],
    write: F,
) -> Result<(), Fail>
    requires { F.IsAlwaysCallable write }
{
    let mut out = Vec::new(heap);
    out.push(b'#')?;
    write(&mut out)?;
    assert!(rt; out.strip_prefix(b"#".as_slice()) == Some(text));
    Ok(())
}
