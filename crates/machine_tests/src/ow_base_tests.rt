//! Tests of bytes in and out.

use ow_base::{
    Failed, FixedSink, MemSink, MemSource, ReadAllFault, Sink, Source, StdSink, StdSource, put_all,
    put_escaped, read_all,
};
use std::alloc::{AllocError, Global};
use std::io::{Cursor, Error, ErrorKind, Read, Result as IoResult, Write};
use std::test::Fail;

// What `put_escaped` writes of these bytes.
fn escaped(alloc: Global, bytes: &[u8]) -> Result<Vec<u8>, Fail> {
    let mut sink = FixedSink::new(vec![in alloc; 0; 1024]?);
    put_escaped(&mut sink, bytes)?;
    Ok(Vec::from_slice(alloc, sink.written())?)
}

#[test]
fn bytes_in_escape_text(rt: HostRuntime) -> Result<(), Fail> {
    let cases = [
        (0, "\\x00"),
        (9, "\\x09"),
        (10, "\\n"),
        (31, "\\x1f"),
        (32, " "),
        (92, "\\\\"),
        (126, "~"),
        (127, "\\x7f"),
        (255, "\\xff"),
    ];
    for (byte, want) in cases {
        let text = escaped(rt.alloc(), &[byte])?;
        assert_eq!(rt; text.as_slice(), want.as_bytes(), "at {byte}");
    }
    // 94 stand for themselves, two are two bytes long, and the other 160 are four bytes long.
    let mut all = Vec::new(rt.alloc());
    for byte in 0..=255u8 {
        all.push(byte)?;
    }
    assert_eq!(rt; escaped(rt.alloc(), all.as_slice())?.len(), 738);
    Ok(())
}

// What is written of `abcdef`, two bytes a call, into so much room, and how often that failed.
fn put(alloc: Global, room: usize, fails: &[u32]) -> Result<(Vec<u8>, u64), AllocError> {
    let fails = Vec::from_slice(alloc, fails)?;
    let mut sink = MemSink::new(vec![in alloc; 0; room]?, fails).with_pace(2);
    let _ = put_all(&mut sink, b"abcdef");
    Ok((Vec::from_slice(alloc, sink.written())?, sink.faults()))
}

#[test]
fn a_sink_that_fails(rt: HostRuntime) -> Result<(), Fail> {
    let cases: [(usize, &[u32], &str, u64); 7] = [
        (6, &[], "abcdef", 0),
        (6, &[1], "", 1),
        (6, &[7, 2], "ab", 1),
        (6, &[3], "abcd", 1),
        (6, &[4], "abcdef", 0),
        (5, &[], "abcde", 1),
        (0, &[], "", 1),
    ];
    for (room, fails, want, faults) in cases {
        let (text, count) = put(rt.alloc(), room, fails)?;
        assert_eq!(rt; text.as_slice(), want.as_bytes());
        assert_eq!(rt; count, faults);
    }
    Ok(())
}

// What `read_all` answers of `abcd`, with the text of a fault in place of the bytes.
fn read(alloc: Global, limit: usize, fails: &[u32], pace: usize) -> Result<Vec<u8>, AllocError> {
    let bytes = Vec::from_slice(alloc, b"abcd")?;
    let mut source = MemSource::new(bytes, Vec::from_slice(alloc, fails)?).with_pace(pace);
    match read_all(alloc, &mut source, limit) {
        Ok(bytes) => Ok(bytes),
        Err(ReadAllFault::ReadFault) => Vec::from_slice(alloc, b"read fault"),
        Err(ReadAllFault::TooLarge) => Vec::from_slice(alloc, b"too large"),
        Err(ReadAllFault::Memory(e)) => Err(e),
    }
}

#[test]
fn a_source_that_fails(rt: HostRuntime) -> Result<(), Fail> {
    let cases: [(usize, &[u32], usize, &str); 9] = [
        (4, &[], 0, "abcd"),
        (3, &[], 0, "too large"),
        (4, &[1], 0, "read fault"),
        (4, &[2], 0, "read fault"),
        (4, &[3], 0, "abcd"),
        (4, &[], 1, "abcd"),
        (3, &[5], 1, "too large"),
        (4, &[5], 1, "read fault"),
        (4, &[6], 1, "abcd"),
    ];
    for (limit, fails, pace, want) in cases {
        let text = read(rt.alloc(), limit, fails, pace)?;
        assert_eq!(rt; text.as_slice(), want.as_bytes());
    }
    Ok(())
}

// A reader that answers an error, and a writer that takes nothing.
#[derive(Drop)]
struct Broken;

impl Read for Broken {
    fn read(&mut self, _buf: &mut [u8]) -> IoResult<usize> {
        Err(Error::from(ErrorKind::Other))
    }
}

impl Write for Broken {
    fn write(&mut self, _buf: &[u8]) -> IoResult<usize> {
        Ok(0)
    }

    fn flush(&mut self) -> IoResult<()> {
        Ok(())
    }
}

#[test]
fn readers_and_writers(rt: HostRuntime) -> Result<(), Fail> {
    let mut source = StdSource::new(Cursor::new("abc"));
    assert_eq!(rt;
        read_all(rt.alloc(), &mut source, 3)?.as_slice(),
        b"abc".as_slice()
    );
    let mut room = [0; 4];
    let mut sink = StdSink::new(Cursor::new(&mut room[..]));
    put_all(&mut sink, b"abc")?;
    assert_eq!(rt; (source.faults(), sink.faults()), (0, 0));
    assert_eq!(rt; room, *b"abc\0");
    let mut broken = StdSource::new(Broken);
    assert_eq!(rt; broken.read(&mut [0; 4]), Err(Failed));
    let mut full = StdSink::new(Broken);
    assert_eq!(rt; full.write(b"a"), Err(Failed));
    assert_eq!(rt; full.write(b""), Ok(0));
    assert_eq!(rt; (broken.faults(), full.faults()), (1, 1));
    Ok(())
}
