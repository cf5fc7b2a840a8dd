//! Calls of a watched reader or writer, one by one.
use crate::fakes::{End, Narrow, Pieces, whole, wide};
use expander::Watched;
use std::alloc::Global;
use std::io;
use std::io::{Read, Write};
use std::test::Fail;

// The kind of the error that a call is expected to give.
fn kind_of<T: Drop>(answer: io::Result<T>) -> Result<io::ErrorKind, Fail> {
    match answer {
        Ok(_) => Err(Fail::new("there is no error")),
        Err(error) => Ok(error.kind()),
    }
}

// Whether a read that fails keeps the error's kind.
fn read_keeps(kind: io::ErrorKind) -> Result<bool, Fail> {
    let mut reader = Watched::new(Pieces {
        cut: Some(0),
        kind,
        ..whole(b"x")
    });
    let mut buf = [0u8; 2];
    let answer = reader.read(&mut buf);
    Ok(reader.failed() && kind_of(answer)? == kind)
}

// Whether a write and a flush that fail keep it.
fn write_keeps(alloc: Global, kind: io::ErrorKind) -> Result<bool, Fail> {
    let mut writer = Watched::new(Narrow {
        room: 0,
        end: End::Fails(kind),
        ..wide(alloc)
    });
    let answer = writer.write(b"x");
    Ok(writer.failed() && kind_of(answer)? == kind)
}

fn flush_keeps(alloc: Global, kind: io::ErrorKind) -> Result<bool, Fail> {
    let mut writer = Watched::new(Narrow {
        flush_fails: Some(kind),
        ..wide(alloc)
    });
    let answer = writer.flush();
    Ok(writer.failed() && kind_of(answer)? == kind)
}

#[test]
fn errors_keep_their_kind(rt: HostRuntime) -> Result<(), Fail> {
    for kind in [io::ErrorKind::Interrupted, io::ErrorKind::BrokenPipe] {
        assert!(rt; read_keeps(kind)?);
        assert!(rt; write_keeps(rt.alloc(), kind)?);
        assert!(rt; flush_keeps(rt.alloc(), kind)?);
    }
    Ok(())
}

// Whether calls reach the reader inside.
fn is_read() -> io::Result<bool> {
    let mut reader = Watched::new(whole(b"xyz"));
    let mut buf = [0u8; 2];
    let len = reader.read(&mut buf)?;
    let failed = reader.failed();
    Ok(len == 2 && buf == *b"xy" && !failed && reader.into_inner().left == b"z".as_slice())
}

// Whether calls reach the writer inside.
fn is_written(alloc: Global) -> io::Result<bool> {
    let mut writer = Watched::new(wide(alloc));
    let len = writer.write(b"xy")?;
    writer.flush()?;
    let failed = writer.failed();
    let inner = writer.into_inner();
    Ok(len == 2 && !failed && inner.got.as_slice() == b"xy".as_slice() && inner.flushes == 1)
}

#[test]
fn calls_reach_the_one_inside(rt: HostRuntime) -> Result<(), Fail> {
    assert!(rt; is_read()? && is_written(rt.alloc())?);
    Ok(())
}
