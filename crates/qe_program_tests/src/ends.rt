//! Whole reads and writes.

use qe_base::{MemSink, MemSource, read_all, write_all};
use std::alloc::{AllocError, Global};
use std::test::Fail;

const BYTES: &[u8] = &[5, 6, 7, 8, 9];

/// A source of these bytes, whose first read gives at most two of them.
fn supply(alloc: Global) -> Result<MemSource, AllocError> {
    Ok(MemSource::new(
        Vec::from_slice(alloc, BYTES)?,
        Vec::from_slice(alloc, &[2])?,
        Vec::new(alloc),
    ))
}

#[test]
fn reads_all(rt: HostRuntime) -> Result<(), Fail> {
    let mut source = supply(rt.alloc())?;
    let found = read_all(rt.alloc(), &mut source);
    assert!(rt; matches!(&found, Ok(bytes) if bytes.as_slice() == BYTES));
    Ok(())
}

#[test]
fn writes_all(rt: HostRuntime) -> Result<(), Fail> {
    let cuts = Vec::from_slice(rt.alloc(), &[2])?;
    let mut sink = MemSink::new(rt.alloc(), 5, cuts, Vec::new(rt.alloc()))?;
    assert!(rt; write_all(&mut sink, BYTES).is_ok());
    assert_eq!(rt; sink.taken(), BYTES);
    Ok(())
}
