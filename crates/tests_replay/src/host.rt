//! Sources and sinks over the streams of the system.

use rtmfp_host::{Sink, Source, StreamSink, StreamSource, Taken, Wrote};
use std::alloc::Global;
use std::io::{self, Read, Write};

/// A stream that fails at each call, and one that takes no byte.
#[derive(Drop)]
struct Broken;

#[derive(Drop)]
struct Full;

impl Read for Broken {
    fn read(&mut self, _buf: &mut [u8]) -> io::Result<usize> {
        Err(io::Error::from(io::ErrorKind::BrokenPipe))
    }
}

impl Write for Broken {
    fn write(&mut self, _buf: &[u8]) -> io::Result<usize> {
        Err(io::Error::from(io::ErrorKind::BrokenPipe))
    }

    fn flush(&mut self) -> io::Result<()> {
        Err(io::Error::from(io::ErrorKind::BrokenPipe))
    }
}

impl Write for Full {
    fn write(&mut self, _buf: &[u8]) -> io::Result<usize> {
        Ok(0)
    }

    fn flush(&mut self) -> io::Result<()> {
        Ok(())
    }
}

/// A reader is read to its end, and one that fails isn't at its end.
fn reads() -> bool {
    let mut source = StreamSource::new(b"abc".as_slice());
    let mut buf = [0; 2];
    let two = source.read(&mut buf) == Taken::Done(2) && buf == *b"ab";
    let one = source.read(&mut buf) == Taken::Done(1) && buf[0] == b'c';
    let end = source.read(&mut buf) == Taken::End;
    two && one && end && StreamSource::new(Broken).read(&mut buf) == Taken::Failed
}

/// A writer takes all or fails.
fn writes(alloc: Global) -> bool {
    let mut written = Vec::new(alloc);
    let mut sink = StreamSink::new(&mut written);
    let done = sink.write(b"ab") == Wrote::Done
        && sink.write(b"") == Wrote::Done
        && sink.flush() == Wrote::Done;
    done && written.as_slice() == b"ab".as_slice()
}

/// One that takes nothing, or fails, is a failed one.
fn fails() -> bool {
    StreamSink::new(Full).write(b"ab") == Wrote::Failed
        && StreamSink::new(Broken).write(b"ab") == Wrote::Failed
        && StreamSink::new(Broken).flush() == Wrote::Failed
}

#[test]
fn streams_are_sources_and_sinks(rt: HostRuntime) {
    assert!(rt; reads() && writes(rt.alloc()) && fails());
}
